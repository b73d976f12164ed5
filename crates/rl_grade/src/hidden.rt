// Flaws that no script finds.
ghost use Rattle.std.specs.Prelude.{◌≡◌, ◌<◌, IfOk, length};
ghost use Rattle.std.specs.List.{list_all};
ghost use Rattle.rl_policy.specs.Bits.{bit};
ghost use Rattle.rl_model.specs.Fields.{field_of};
ghost use Rattle.rl_flaw.specs.Flaws.{IsFlawOf};
ghost use Rattle.rl_grade.specs.Hidden.{IsThere, deaf_bit, first_bit, is_bit_hidden, is_deaf_hidden};
ghost use Rattle.rl_grade.specs.Hidden.{is_deafness_hidden, is_field_hidden};
ghost use Rattle.rl_grade.specs.Hidden.{is_hidden, is_same, is_silent_by, other_bit, sound_bit, stuck_bit, ways_to};
ghost use Rattle.rl_grade.specs.Reached.{is_reached, lets};

use crate::bits::{FlawedBit, Ways, is_alike, is_fixed, is_same, is_unseen};
use crate::flaws::is_of;
use crate::unchecked::is_unchecked;
use rl_bench::Flaw;
use rl_bus::WordRow;
use rl_map::Layout;
use rl_model::{Chip, Item, Reset};
use rl_policy::Policy;
use std::alloc::AllocError;

// Whether a bit of a value is set.
fn has_bit(value: u64, i: u32) -> bool
    ensures { result ≡ bit value i }
{
    i < 64 && value >> i & 1 == 1
}

// ---- how a register is reached

fn lets_through(row: &WordRow, item: Item, write: bool) -> bool
    ensures { result ≡ lets item write row.now }
{
    is_of(row.cell, item) && (if write { row.writes } else { row.reads })
}

// Whether some word of an item lets items of the direction through.
fn is_reached(rows: &[WordRow], item: Item, write: bool) -> bool
    ensures { result ≡ is_reached rows.now item write }
{
    rows.iter().any(|row| lets_through(row, item, write))
}

fn ways_to(chip: &Chip, rows: &[WordRow], reg: u32) -> Ways
    requires { reg < length chip.now.regs }
    ensures { result ≡ ways_to chip.now rows.now reg }
{
    Ways {
        written: is_reached(rows, Item::Reg(reg), true),
        read: is_reached(rows, Item::Reg(reg), false),
        backdoor: chip.backdoor(Item::Reg(reg)),
    }
}

// ---- a bit of a field

// Without a flaw.
fn sound_bit(chip: &Chip, field: u32) -> FlawedBit
    requires { field < length chip.now.fields }
    ensures { result ≡ sound_bit (field_of chip.now field) }
{
    let shape = chip.field(field);
    FlawedBit {
        own: shape.policy,
        other: shape.policy,
        stuck: None,
        deaf: false,
        volatile: shape.volatile,
    }
}

fn stuck_bit(chip: &Chip, field: u32, value: bool) -> FlawedBit
    requires { field < length chip.now.fields }
    ensures { result ≡ stuck_bit (field_of chip.now field) value }
{
    FlawedBit {
        stuck: Some(value),
        ..sound_bit(chip, field)
    }
}

fn other_bit(chip: &Chip, field: u32, other: Policy) -> FlawedBit
    requires { field < length chip.now.fields }
    ensures { result ≡ other_bit (field_of chip.now field) other }
{
    FlawedBit {
        other,
        ..sound_bit(chip, field)
    }
}

fn deaf_bit(chip: &Chip, field: u32) -> FlawedBit
    requires { field < length chip.now.fields }
    ensures { result ≡ deaf_bit (field_of chip.now field) }
{
    FlawedBit {
        deaf: true,
        ..sound_bit(chip, field)
    }
}

// Its value at a HARD reset, and 0 where the field has none.
fn first_bit(chip: &Chip, field: u32, i: u32) -> bool
    requires { field < length chip.now.fields }
    ensures { result ≡ first_bit (field_of chip.now field) i }
{
    // Asked for their number, the kinds are known to have HARD.
    let _kinds = chip.kinds();
    let value = chip.reset_of(field, 0).unwrap_or(0);
    has_bit(value, i)
}

fn field_resets(chip: &Chip, field: u32) -> &[Reset]
    requires { field < length chip.now.fields }
    ensures { result.now ≡ (field_of chip.now field).resets }
{
    chip.resets(field)
}

fn are_resets_to(resets: &[Reset], i: u32, value: bool) -> bool
    ensures { result ≡ list_all (λ r. is_same (bit r.value i) value) resets.now }
{
    resets
        .iter()
        .all(|reset| is_same(has_bit(reset.value, i), value))
}

fn is_bit_hidden(chip: &Chip, field: u32, ways: Ways, bit: FlawedBit, i: u32) -> bool
    requires { field < length chip.now.fields }
    ensures { result ≡ is_bit_hidden ways bit (field_of chip.now field) i }
{
    let first = first_bit(chip, field, i);
    is_alike(ways, bit)
        || (is_unseen(ways, bit)
            || (is_fixed(first, ways, bit) && are_resets_to(field_resets(chip, field), i, first)))
}

fn is_field_hidden(chip: &Chip, field: u32, ways: Ways, bit: FlawedBit) -> bool
    requires { field < length chip.now.fields }
    ensures { result ≡ is_field_hidden ways bit (field_of chip.now field) }
{
    let width = chip.field(field).width;
    for i in 0..width {
        if !is_bit_hidden(chip, field, ways, bit, i) {
            return false;
        }
    }
    true
}

// ---- flaws

// Whether a deaf register's writes change nothing, as far as one of its fields is asked; of another register's they do.
fn is_deaf_field_hidden(chip: &Chip, field: u32, ways: Ways, reg: u32) -> bool
    requires { field < length chip.now.fields }
    ensures { result ≡ is_deaf_hidden ways reg (field_of chip.now field) }
{
    chip.field(field).reg != reg || is_field_hidden(chip, field, ways, deaf_bit(chip, field))
}

fn is_deafness_hidden(chip: &Chip, rows: &[WordRow], reg: u32) -> bool
    requires { reg < length chip.now.regs }
    ensures { result ≡ is_deafness_hidden chip.now rows.now reg }
{
    let ways = ways_to(chip, rows, reg);
    for field in 0..chip.fields() {
        if !is_deaf_field_hidden(chip, field, ways, reg) {
            return false;
        }
    }
    true
}

// How the register of a field is reached.
fn ways_to_field(chip: &Chip, rows: &[WordRow], field: u32) -> Ways
    requires { field < length chip.now.fields }
    ensures { result ≡ ways_to chip.now rows.now (field_of chip.now field).shape.reg }
{
    let reg = chip.field(field).reg;
    ways_to(chip, rows, reg)
}

// Whether each event stays as it is.
fn is_silent_by(chip: &Chip, rows: &[WordRow], flaw: Flaw) -> bool
    requires { IsThere chip.now flaw }
    ensures { result ≡ is_silent_by chip.now rows.now flaw }
{
    match flaw {
        Flaw::Stuck { field, bit, value } => {
            let ways = ways_to_field(chip, rows, field);
            is_bit_hidden(chip, field, ways, stuck_bit(chip, field, value), bit)
        }
        Flaw::OtherPolicy { field, policy } => {
            let ways = ways_to_field(chip, rows, field);
            is_field_hidden(chip, field, ways, other_bit(chip, field, policy))
        }
        Flaw::OtherReset { field, .. } => {
            let ways = ways_to_field(chip, rows, field);
            is_unseen(ways, sound_bit(chip, field))
        }
        Flaw::Deaf {
            item: Item::Reg(reg),
        } => is_deafness_hidden(chip, rows, reg),
        Flaw::Deaf {
            item: Item::Mem(mem),
        } => !chip.writable(mem) || !is_reached(rows, Item::Mem(mem), true),
        Flaw::ErrorRange { .. } | Flaw::ErrorNth { .. } => false,
    }
}

/// Whether no script finds a flaw of a description: no event of a script shows more with it than without it. So it is
/// where each event stays as it is, to the byte; and where of the flaw's register no check compares a field that the
/// flaw could change, or one that is volatile, so that values differ at most.
///
/// Flaws of which neither is known are no, though no script may find some of these either.
///
/// # Errors
///
/// Want of memory.
pub fn is_hidden(chip: &Chip, layout: &Layout, flaw: Flaw) -> Result<bool, AllocError>
    requires { IsFlawOf chip.now layout.now flaw }
    ensures { IfOk result (λ hidden. hidden ≡ is_hidden chip.now layout.now flaw) }
{
    let rows = layout.shared_rows()?;
    Ok(is_silent_by(chip, &rows, flaw) || is_unchecked(chip, flaw))
}
