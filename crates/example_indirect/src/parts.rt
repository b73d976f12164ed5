//! The register model and the device of the chip.
ghost use Rattle.std.specs.Prelude.{◌≡◌, ◌<◌, ◌^◌, [], IfOk, Some, map, length};
ghost use Rattle.rl_bus.specs.Standing.{kinds_of};
ghost use Rattle.rl_map.specs.Maps.{IsBuiltWith};
ghost use Rattle.rl_access.specs.Model.{IsReady};
ghost use Rattle.rl_bench.specs.State.{bench_state};

use crate::chip::{table_chip, table_layout};
use crate::fault::Fault;
use rl_access::Model;
use rl_bench::Bench;
use rl_bus::{Adapter, Adapters};
use rl_desc::Desc;
use rl_session::{kinds_of, open};
use std::alloc::Global;

// The chip and its layout for these adapters, without flaws.
fn described(alloc: Global, adapters: &Adapters) -> Result<Desc, Fault>
    requires few { length (map standing adapters.now.items) < 2 ^ 32 }
    ensures kinds { IfOk result (λ desc. desc.layout.kinds ≡ kinds_of (map standing adapters.now.items)) }
    ensures built_with { IfOk result (λ desc. IsBuiltWith desc.layout desc.chip) }
    ensures flawless { IfOk result (λ desc. desc.flaws ≡ []) }
{
    let kinds = kinds_of(alloc, adapters)?;
    let chip = table_chip(alloc)?;
    let layout = table_layout(alloc, &chip, &kinds)?;
    Ok(Desc {
        chip,
        layout,
        flaws: Vec::new(alloc),
    })
}

/// A register model and a device without flaws, both after a hard reset, for accesses through these adapters.
pub(crate) fn opened(alloc: Global, adapters: &Adapters) -> Result<(Model, Bench), Fault>
    requires few { length (map standing adapters.now.items) < 2 ^ 32 }
    ensures ready { IfOk result (λ opened.
        IsReady opened.0 (map standing adapters.now.items) (Some (bench_state opened.1))) }
{
    let desc = described(alloc, adapters)?;
    Ok(open(alloc, desc)?)
}
