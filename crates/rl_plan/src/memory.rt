// The operations for a memory, beside a walk over it.
ghost use Rattle.std.specs.Prelude.{◌≡◌, ◌++◌, ◌<◌, ◌-◌, length, IfOk, OnOk};
ghost use Rattle.std.specs.List.{list_any};
ghost use Rattle.rl_plan.specs.Plan.{is_filled, location_ops, mem_ops, ones_of};

use crate::visit::{Visit, push_visits};
use crate::way::Way;
use rl_access::Op;
use rl_model::{Chip, Item};
use rl_policy::mask;
use std::alloc::{AllocError, Global};

fn has_writer(ways: &[Way]) -> bool
    ensures { result ≡ list_any (λ w. w.writes) ways.now }
{
    ways.iter().any(|way| way.writes)
}

// Appends the operations for a location: a write at each place and checks of it, or reads where it isn't written.
fn push_location(
    ops: &mut Vec<Op>,
    ways: &[Way],
    filled: bool,
    mem: u32,
    index: u64,
    value: u64,
) -> Result<(), AllocError>
    ensures { OnOk result (ops.new.items ≡ ops.old.items ++ location_ops ways.now filled mem value index) }
{
    if !filled {
        return push_visits(ops, ways, Visit::Read { mem, index });
    }
    push_visits(ops, ways, Visit::Fill { mem, index, value })?;
    push_visits(ops, ways, Visit::Check { mem, index, value })
}

/// The operations for a memory with these places: of its first and its last location.
pub fn mem_ops(alloc: Global, chip: &Chip, mem: u32, ways: &[Way]) -> Result<Vec<Op>, AllocError>
    requires { mem < length chip.now.mems }
    ensures { IfOk result (λ ops. ops.items ≡ mem_ops chip.now mem ways.now) }
{
    let mut ops = Vec::new(alloc);
    let filled = chip.writable(mem) && has_writer(ways);
    let value = mask(8 * chip.bytes(Item::Mem(mem)));
    push_location(&mut ops, ways, filled, mem, 0, value)?;
    let size = chip.size(mem);
    if size > 1 {
        push_location(&mut ops, ways, filled, mem, u64::from(size) - 1, value)?;
    }
    Ok(ops)
}
