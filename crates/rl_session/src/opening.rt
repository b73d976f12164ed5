// The parts of a session, from its description.
ghost use Rattle.std.specs.Prelude.{◌≡◌, ◌≢◌, ◌<◌, ◌^◌, List, map, length, Some, Ok, Err, IfOk, IfErr};
ghost use Rattle.rl_session.specs.Prelude.{AreFlawsOf, IsAt, IsBuiltWith, IsModel, IsOpened, Standing};
ghost use Rattle.rl_session.specs.Prelude.{bench_state, description_refused_text, first_world, kinds_of, opening_after};

use rl_access::Model;
use rl_bench::Bench;
use rl_bus::{Adapter, AdapterKind, Adapters};
use rl_desc::{Desc, DescFault, read_description};
use std::alloc::{AllocError, Global};

fn boxed_kind(adapter: &Box<dyn Adapter>) -> AdapterKind
    ensures { result ≡ (standing adapter.now).kind }
{
    adapter.kind()
}

/// The kinds of the adapters in order.
pub fn kinds_of(alloc: Global, adapters: &Adapters) -> Result<Vec<AdapterKind>, AllocError>
    ensures { IfOk result (λ kinds. kinds.items ≡ kinds_of (map standing adapters.now.items)) }
{
    let mut kinds = Vec::new(alloc);
    for adapter in adapters {
        kinds.push(boxed_kind(adapter))?;
    }
    Ok(kinds)
}

/// Reads a description for these adapters.
pub fn described(alloc: Global, head: &[u8], adapters: &Adapters) -> Result<Desc, DescFault>
    requires few { length (map standing adapters.now.items) < 2 ^ 32 }
    ensures kinds { IfOk result (λ desc. desc.layout.kinds ≡ kinds_of (map standing adapters.now.items)) }
    ensures read { IfOk result (λ desc.
        opening_after (Ok head.now) (kinds_of (map standing adapters.now.items)) ≡ Ok desc) }
    ensures refused { IfErr result (λ fault. fault ≢ DescFault.Memory
        → opening_after (Ok head.now) (kinds_of (map standing adapters.now.items))
        ≡ Err (description_refused_text fault)) }
    ensures built_with { IfOk result (λ desc. IsBuiltWith desc.layout desc.chip) }
    ensures flaws { IfOk result (λ desc. AreFlawsOf desc.chip desc.layout desc.flaws) }
{
    let Ok(kinds) = kinds_of(alloc, adapters) else {
        return Err(DescFault::Memory);
    };
    read_description(alloc, head, &kinds)
}

/// The register model of a description, after a hard reset.
pub fn model_of(alloc: Global, desc: Desc) -> Result<Model, AllocError>
    requires built_with { IsBuiltWith desc.layout desc.chip }
    ensures layout { IfOk result (λ model. model.layout ≡ desc.layout) }
    ensures first { IfOk result (λ model. (adapters : List Standing) → model ≡ (first_world desc adapters).model) }
    ensures sound { IfOk result IsModel }
{
    let Desc {
        chip,
        layout,
        flaws: _,
    } = desc;
    let model = Model::build(alloc, chip, layout)?;
    Ok(model)
}

/// The model and the device of a description, after a hard reset.
///
/// # Examples
///
/// ```text
/// let desc = described(alloc, head, &adapters)?;
/// let (mut model, mut bench) = open(alloc, desc)?;
/// // An operation is then a call of `rl_access` on both, as:
/// peek(&mut model, &mut bench, 0)
/// ```
pub fn open(alloc: Global, desc: Desc) -> Result<(Model, Bench), AllocError>
    requires built_with { IsBuiltWith desc.layout desc.chip }
    requires flaws { AreFlawsOf desc.chip desc.layout desc.flaws }
    ensures opened { IfOk result (λ opened. IsOpened desc opened.0 opened.1) }
    ensures first { IfOk result (λ opened. (adapters : List Standing)
        → IsAt opened.0 adapters (Some (bench_state opened.1)) (first_world desc adapters)) }
    ensures sound { IfOk result (λ opened. (adapters : List Standing) → IsModel (first_world desc adapters).model) }
{
    let bench = Bench::build(alloc, &desc.chip, &desc.layout, &desc.flaws)?;
    let model = model_of(alloc, desc)?;
    Ok((model, bench))
}
