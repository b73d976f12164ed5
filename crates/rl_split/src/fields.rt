//! The narrow form of a field access.
ghost use Rattle.std.specs.Prelude.{◌≡◌, ◌+◌, ◌^◌, ◌≤◌, ◌<◌, length};
ghost use Rattle.rl_map.specs.Maps.{IsBuiltWith};
ghost use Rattle.rl_split.specs.Access.{carries_lanes};
ghost use Rattle.rl_split.specs.Narrow.{field_at, share_byte, has_neighbour, is_narrow};
ghost use Rattle.rl_model.specs.Fields.{first_of, count_of};

use rl_bus::AdapterKind;
use rl_map::Layout;
use rl_model::{Chip, Field};

/// Whether an access to a field in a direction reaches the bytes of the field alone, as one to an individually
/// accessible field (`uvm_reg_field::write` and `read`, IEEE 1800.2-2017, 18.5).
///
/// So it is where the field is marked `alone`, no other field has a bit in its bytes, prediction is
/// implicit, no map on the path is of a FIFO kind, and the adapter carries byte enables in the direction.
/// Any other field access goes to the whole register. These conditions are this project's own.
#[tactic(auto, unfolding(crate::specs::Narrow::is_narrow))]
pub fn narrow(chip: &Chip, layout: &Layout, field: u32, place: u32, write: bool) -> bool
    requires field { field < length chip.now.fields }
    requires place { place < length layout.now.places }
    requires built_with { IsBuiltWith layout.now chip.now }
    ensures { result ≡ is_narrow chip.now layout.now field place write }
{
    let port = layout.port_of(place);
    field_at(chip, field).alone
        && carries_lanes(&layout.port_kind(port), write)
        && !layout.explicit(port)
        && !layout.fifo(place)
        && !has_neighbour(chip, field)
}

/// The adapter carries byte enables in the direction.
pub(crate) fn carries_lanes(kind: &AdapterKind, write: bool) -> bool
    ensures { result ≡ carries_lanes kind.now write }
{
    if write {
        kind.write_lanes
    } else {
        kind.read_lanes
    }
}

/// A field, which lies in its register.
fn field_at(chip: &Chip, field: u32) -> Field
    requires { field < length chip.now.fields }
    ensures value { result ≡ field_at chip.now field }
    ensures reg { result.reg < length chip.now.regs }
    ensures some { 1 ≤ result.width }
    ensures inside { result.lsb + result.width ≤ 64 }
    ensures row { first_of chip.now result.reg + count_of chip.now result.reg ≤ length chip.now.fields }
    ensures few { length chip.now.fields < 2 ^ 32 }
{
    prove!(field < chip.fields());
    chip.field(field)
}

/// Another field of the register has a bit in the bytes of the field.
#[tactic(auto, using(crate::proofs::Registers::first_is, crate::proofs::Registers::count_is))]
fn has_neighbour(chip: &Chip, field: u32) -> bool
    requires { field < length chip.now.fields }
    ensures { result ≡ has_neighbour chip.now field }
{
    let own = field_at(chip, field);
    let first = chip.first_field(own.reg);
    for other in first..first + chip.field_count(own.reg) {
        if other != field && share_byte(&field_at(chip, other), &own) {
            return true;
        }
    }
    false
}

fn share_byte(one: &Field, other: &Field) -> bool
    requires one { 1 ≤ one.now.width }
    requires other { 1 ≤ other.now.width }
    requires one_in { one.now.lsb + one.now.width ≤ 64 }
    requires other_in { other.now.lsb + other.now.width ≤ 64 }
    ensures { result ≡ share_byte one.now other.now }
{
    let one_last = (one.lsb + one.width - 1) / 8;
    let other_last = (other.lsb + other.width - 1) / 8;
    one.lsb / 8 <= other_last && other.lsb / 8 <= one_last
}
