//! Which registers, memories, places and bits a sequence goes over.
ghost use Rattle.std.specs.Prelude.{◌≡◌, ◌<◌, ◌&&◌, length, unwrap_or, None, IfSome};
ghost use Rattle.rl_map.specs.Layout.{place_of};
ghost use Rattle.rl_model.specs.Chip.{HasItem};
ghost use Rattle.rl_mirror.specs.Compared.{is_compared};
ghost use Rattle.rl_policy.specs.Bits.{is_within};
ghost use Rattle.rl_seq.specs.Choice.{is_tested, is_reg_tested, is_accessed, is_shared, is_walked, is_of, may_read};
ghost use Rattle.rl_seq.specs.Choice.{may_write, places_of, is_bit_compared, has_writable_field, is_read_only};
ghost use Rattle.rl_seq.specs.Choice.{low_bits, turned_round};

use bitflags::Flags;
use rl_map::{Layout, has_right};
use rl_model::{Chip, Field, Item, Skip};
use rl_policy::{Policy, mask, write_only};

/// Whether the item is within the block, and no exclusion names it.
pub(crate) fn is_tested(chip: &Chip, item: Item, block: Option<u32>, skip: Skip) -> bool
    requires item { HasItem chip.now item }
    requires block { IfSome block (λ b. b < chip.now.blocks) }
    ensures { result ≡ is_tested chip.now item block skip.bits }
{
    let inside = match block {
        None => true,
        Some(block) => chip.within(item, block),
    };
    inside && !chip.skips(item).contains(skip)
}

/// Whether the register is within the block, and neither this exclusion nor `NO_REG_TESTS` names it.
pub(crate) fn is_reg_tested(chip: &Chip, reg: u32, block: Option<u32>, skip: Skip) -> bool
    requires reg { reg < length chip.now.regs }
    requires block { IfSome block (λ b. b < chip.now.blocks) }
    ensures { result ≡ is_reg_tested chip.now reg block skip.bits }
{
    let item = Item::Reg(reg);
    is_tested(chip, item, block, skip) && is_tested(chip, item, block, Skip::NO_REG_TESTS)
}

/// Whether the access test goes over the register: one with a backdoor, and a field that isn't RO.
pub(crate) fn is_accessed(chip: &Chip, reg: u32, block: Option<u32>) -> bool
    requires reg { reg < length chip.now.regs }
    requires block { IfSome block (λ b. b < chip.now.blocks) }
    ensures { result ≡ is_accessed chip.now reg block }
{
    is_reg_tested(chip, reg, block, Skip::NO_REG_ACCESS_TEST)
        && chip.backdoor(Item::Reg(reg))
        && has_writable_field(chip, reg)
}

/// Whether the shared access goes over the register: one with at least two places.
pub(crate) fn is_shared(chip: &Chip, layout: &Layout, reg: u32, block: Option<u32>) -> bool
    requires reg { reg < length chip.now.regs }
    requires block { IfSome block (λ b. b < chip.now.blocks) }
    ensures { result ≡ is_shared chip.now layout.now reg block }
{
    is_reg_tested(chip, reg, block, Skip::NO_REG_SHARED_ACCESS_TEST)
        && 2 <= places_of(layout, Item::Reg(reg))
}

/// Whether the memory walk goes over the memory: one that the bus may write.
pub(crate) fn is_walked(chip: &Chip, mem: u32, block: Option<u32>) -> bool
    requires mem { mem < length chip.now.mems }
    requires block { IfSome block (λ b. b < chip.now.blocks) }
    ensures { result ≡ is_walked chip.now mem block }
{
    is_tested(chip, Item::Mem(mem), block, Skip::NO_MEM_WALK_TEST) && chip.writable(mem)
}

/// Whether the place is the item's.
pub(crate) fn is_of(layout: &Layout, place: u32, item: Item) -> bool
    requires { place < length layout.now.places }
    ensures { result ≡ is_of layout.now place item }
{
    match (layout.item(place), item) {
        (Item::Reg(a), Item::Reg(b)) => a == b,
        (Item::Mem(a), Item::Mem(b)) => a == b,
        _ => false,
    }
}

/// Whether the place has the right to read.
pub(crate) fn may_read(layout: &Layout, place: u32) -> bool
    requires { place < length layout.now.places }
    ensures { result ≡ may_read layout.now place }
{
    has_right(layout.rights(place), false)
}

/// Whether the place has the right to write.
pub(crate) fn may_write(layout: &Layout, place: u32) -> bool
    requires { place < length layout.now.places }
    ensures { result ≡ may_write layout.now place }
{
    has_right(layout.rights(place), true)
}

/// The first place of the item, and 0 where it has none.
pub(crate) fn first_place(layout: &Layout, item: Item) -> u32
    ensures { result ≡ unwrap_or (place_of layout.now item None) 0 }
{
    layout.place_of(item, None).unwrap_or(0)
}

/// How many places the item has.
fn places_of(layout: &Layout, item: Item) -> u32
    ensures { result ≡ places_of layout.now item }
{
    let mut count = 0;
    for place in first_place(layout, item)..layout.end_of(item) {
        if is_of(layout, place, item) {
            count += 1;
        }
    }
    count
}

/// Whether the bit belongs to a field that checks compare.
pub(crate) fn is_bit_compared(chip: &Chip, reg: u32, bit: u32) -> bool
    requires { reg < length chip.now.regs }
    ensures { result ≡ is_bit_compared chip.now reg bit }
{
    let first = chip.first_field(reg);
    for k in 0..chip.field_count(reg) {
        if is_compared_in(&chip.field(first + k), bit) {
            return true;
        }
    }
    false
}

// Whether the bit belongs to the field, and checks compare it.
fn is_compared_in(field: &Field, bit: u32) -> bool
    ensures { result ≡ (is_within field.now.lsb field.now.width bit && is_compared field.now) }
{
    covers(field, bit) && field.compare && !write_only(field.policy)
}

fn covers(field: &Field, bit: u32) -> bool
    ensures { result ≡ is_within field.now.lsb field.now.width bit }
{
    field.lsb <= bit && bit - field.lsb < field.width
}

/// Whether the register has a field that isn't RO.
fn has_writable_field(chip: &Chip, reg: u32) -> bool
    requires { reg < length chip.now.regs }
    ensures { result ≡ has_writable_field chip.now reg }
{
    let first = chip.first_field(reg);
    for k in 0..chip.field_count(reg) {
        if !is_read_only(chip.field(first + k).policy) {
            return true;
        }
    }
    false
}

fn is_read_only(policy: Policy) -> bool
    ensures { result ≡ is_read_only policy }
{
    matches!(policy, Policy::Ro)
}

/// The value's bits that the item's bytes hold.
pub(crate) fn low_bits(chip: &Chip, item: Item, value: u64) -> u64
    requires { HasItem chip.now item }
    ensures { result ≡ low_bits chip.now item value }
{
    value & mask(8 * chip.bytes(item))
}

/// The value with all bits of the item's bytes turned round.
pub(crate) fn turned_round(chip: &Chip, item: Item, value: u64) -> u64
    requires { HasItem chip.now item }
    ensures { result ≡ turned_round chip.now item value }
{
    !value & mask(8 * chip.bytes(item))
}
