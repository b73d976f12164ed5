//! The bits of a register by what accesses do to them.
ghost use Rattle.std.specs.Prelude.{◌≡◌, None};
ghost use Rattle.rl_policy.specs.Bits.{bit};

use crate::policy::{Policy, spends};
use crate::word::{repeated, replaced};

/// The bits of a register, by what a write and a read do to them: one mask for each effect that an access
/// can have on a bit. So an access to the whole register is a few operations on words, whatever the policies
/// of its fields.
///
/// A bit that belongs to no field is in no mask. The masks are this project's own; the effects are those of
/// the policies.
#[derive(Clone, Copy)]
pub struct Effects {
    /// The bits that belong to a field.
    pub owned: u64,
    /// Those that take the first write alone.
    pub spending: u64,
    /// Those that are 1 after a write of 0 where they were 0.
    pub zero_by_zero: u64,
    /// Those that are 1 after a write of 0 where they were 1.
    pub one_by_zero: u64,
    /// Those that are 1 after a write of 1 where they were 0.
    pub zero_by_one: u64,
    /// Those that are 1 after a write of 1 where they were 1.
    pub one_by_one: u64,
    /// Those that are 1 after a read where they were 0.
    pub zero_by_read: u64,
    /// Those that are 1 after a read where they were 1.
    pub one_by_read: u64,
    /// Those that a read answers.
    pub shown: u64,
}

impl Effects {
    ghost use Rattle.rl_policy.specs.Masks.{AreEffectsOf, ForPoliciesOf, more_owned};
    ghost use Rattle.rl_policy.specs.Masks.{bits_written, marks_written, bits_answered, bits_left};

    /// The effects of a register with no field.
    pub fn none() -> Effects
        ensures { AreEffectsOf (λ b. None) result }
    {
        Effects {
            owned: 0,
            spending: 0,
            zero_by_zero: 0,
            one_by_zero: 0,
            zero_by_one: 0,
            one_by_one: 0,
            zero_by_read: 0,
            one_by_read: 0,
            shown: 0,
        }
    }

    /// The effects with a field more: its bits that belong to no field so far get this policy.
    pub fn with_field(&self, seat: u64, policy: Policy) -> Effects
        ensures { ForPoliciesOf self.now (λ own. AreEffectsOf (more_owned own (bit seat) policy) result) }
    {
        let new = seat & !self.owned;
        Effects {
            owned: self.owned | new & repeated(true),
            spending: self.spending | new & repeated(spends(policy)),
            zero_by_zero: self.zero_by_zero | new & policy.written(0, 0, 0),
            one_by_zero: self.one_by_zero | new & policy.written(u64::MAX, 0, 0),
            zero_by_one: self.zero_by_one | new & policy.written(0, u64::MAX, 0),
            one_by_one: self.one_by_one | new & policy.written(u64::MAX, u64::MAX, 0),
            zero_by_read: self.zero_by_read | new & policy.left_by_read(0),
            one_by_read: self.one_by_read | new & policy.left_by_read(u64::MAX),
            shown: self.shown | new & policy.answered(u64::MAX),
        }
    }

    /// The bits and the spent marks of the register after a bus write of `word` with these lanes, by the write
    /// effects of `uvm_reg_field` (IEEE 1800.2-2017, 18.5).
    pub fn write(&self, bits: u64, marks: u64, word: u64, lanes: u64) -> (u64, u64)
        ensures bits { ForPoliciesOf self.now (λ own. result.0 ≡ bits_written own bits marks word lanes) }
        ensures marks { ForPoliciesOf self.now (λ own. result.1 ≡ marks_written own marks lanes) }
    {
        let by_zero = replaced(self.zero_by_zero, self.one_by_zero, bits);
        let by_one = replaced(self.zero_by_one, self.one_by_one, bits);
        let written = replaced(by_zero, by_one, word);
        let touched = self.owned & lanes;
        let free = touched & !(self.spending & marks);
        (
            replaced(bits, written, free),
            marks | (self.spending & lanes),
        )
    }

    /// What a bus read answers, and the bits of the register after one with these lanes, by the read effects of
    /// `uvm_reg_field` (IEEE 1800.2-2017, 18.5).
    pub fn read(&self, bits: u64, lanes: u64) -> (u64, u64)
        ensures answer { ForPoliciesOf self.now (λ own. result.0 ≡ bits_answered own bits) }
        ensures bits { ForPoliciesOf self.now (λ own. result.1 ≡ bits_left own bits lanes) }
    {
        let left = replaced(self.zero_by_read, self.one_by_read, bits);
        (self.shown & bits, replaced(bits, left, self.owned & lanes))
    }
}
