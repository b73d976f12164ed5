//! The bits of fields in one register.
ghost use Rattle.std.specs.Prelude.{◌≡◌, ℕ, ◌+◌, ◌-◌, ◌<◌, ◌≤◌, true, if◌then◌else◌};
ghost use Rattle.rl_policy.specs.Bits.{bit, is_within};
ghost use Rattle.rl_bus.specs.Setup.{covers};
ghost use Rattle.rl_bus.specs.State.{value_bit};
ghost use Rattle.rl_policy.specs.Masks.{HasBits};

use rl_bus::FieldRow;
use rl_policy::word::{mask, put, replaced, window};

/// The bits of this register that belong to the field.
pub fn seat_in(row: &FieldRow, reg: u32) -> u64
    requires some { 1 ≤ row.now.width }
    requires most { row.now.lsb + row.now.width ≤ 64 }
    ensures { HasBits result (covers row.now reg) }
{
    if row.reg == reg {
        window(row.lsb, row.width)
    } else {
        0
    }
}

/// The word with the field's value, if there is one, in the bits of the field that are free.
pub fn with_value(row: &FieldRow, value: Option<u64>, word: u64, free: u64) -> u64
    requires some { 1 ≤ row.now.width }
    requires most { row.now.lsb + row.now.width ≤ 64 }
    requires free { (b : ℕ) → b < 64 → bit free b ≡ true → is_within row.now.lsb row.now.width b ≡ true }
    ensures { HasBits result (λ b. if bit free b then value_bit value (b - row.now.lsb) (bit word b) else bit word b) }
{
    match value {
        None => word,
        Some(value) => {
            let part = value & mask(row.width);
            replaced(word, put(0, row.lsb, row.width, part), free)
        }
    }
}
