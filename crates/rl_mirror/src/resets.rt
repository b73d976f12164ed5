//! Values after a reset.
ghost use Rattle.std.specs.Prelude.{◌≡◌, ℕ, ◌<◌, length, map, get_or, replicate, false, if◌then◌else◌};
ghost use Rattle.std.specs.List.{range_with_len};
ghost use Rattle.rl_policy.specs.Bits.{from_bits, bit};
ghost use Rattle.rl_model.specs.Chip.{IsSound};
ghost use Rattle.rl_model.specs.Fields.{fields_of, field_in, covers};
ghost use Rattle.rl_mirror.specs.Fields.{owned};
ghost use Rattle.rl_mirror.specs.Prediction.{reset_bit, after_reset};

use crate::fields::{field_at, field_count, field_number};
use rl_model::Chip;
use rl_policy::word::put;

/// The word with the value that the register's `k`-th field takes at a reset of this kind, if it has one.
fn with_reset(chip: &Chip, reg: u32, k: u32, kind: u32, word: u64) -> u64
    requires reg { reg < length chip.now.regs }
    requires field { k < length (fields_of chip.now reg) }
    requires kind { kind < length chip.now.kinds }
    ensures { result ≡ from_bits 64 (λ b. if covers (field_in (fields_of chip.now reg) k).shape b
        then reset_bit (field_in (fields_of chip.now reg) k) kind b (bit word b) else bit word b) }
{
    let field = field_at(chip, reg, k);
    match chip.reset_of(field_number(chip, reg, k), kind) {
        Some(value) => put(word, field.lsb, field.width, value),
        None => word,
    }
}

/// A value of the register after a reset of this kind.
fn after_reset(chip: &Chip, reg: u32, kind: u32, value: u64) -> u64
    requires reg { reg < length chip.now.regs }
    requires kind { kind < length chip.now.kinds }
    requires value { value ≡ owned (fields_of chip.now reg) value }
    ensures { result ≡ after_reset (fields_of chip.now reg) kind value }
{
    let mut word = value;
    for k in 0..field_count(chip, reg) {
        word = with_reset(chip, reg, k, kind, word);
    }
    word
}

/// Brings the values of all registers to those after a reset of this kind.
pub(crate) fn reset_all(chip: &Chip, kind: u32, values: &mut [u64])
    requires kind { kind < length chip.now.kinds }
    requires count { length values.old ≡ length chip.now.regs }
    requires owned { (reg : ℕ) → reg < length chip.now.regs →
        get_or values.old reg 0 ≡ owned (fields_of chip.now reg) (get_or values.old reg 0) }
    ensures sound { IsSound chip.now }
    ensures value { values.new ≡
        map (λ reg. after_reset (fields_of chip.now reg) kind (get_or values.old reg 0))
        (range_with_len 0 (length values.old)) }
{
    for reg in 0..chip.regs() {
        values[reg as usize] = after_reset(chip, reg, kind, values[reg as usize]);
    }
}

/// Clears all spent marks.
pub(crate) fn clear(spent: &mut [bool])
    ensures { spent.new ≡ replicate (length spent.old) false }
{
    spent.fill(false);
}
