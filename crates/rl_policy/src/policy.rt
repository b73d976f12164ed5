//! The field access policies.
//!
//! The calls on [`Policy`] work on all 64 bits of a word at once, so that a caller may keep several fields
//! in one word; the free functions work on the value of one field.
ghost use Rattle.std.specs.Prelude.{◌≡◌, ◌≢◌, ℕ, ◌+◌, ◌-◌, ◌^◌, ◌<◌, ◌≤◌, IfSome, IsNone, find, bytes_eq};
ghost use Rattle.rl_policy.specs.Bits.{bit, from_bits};
ghost use Rattle.rl_policy.specs.Names.{name_of};
ghost use Rattle.rl_policy.specs.Table.{after_write, after_read, value_read, update_bit, neutral_bit, is_write_only};
ghost use Rattle.rl_policy.specs.Table.{spends_mark};

use crate::word::{mask, repeated, replaced};

/// What a bus write and a bus read do to the bits of a field: the predefined access policies of `uvm_reg_field`
/// (IEEE 1800.2-2017, 18.5).
///
/// In the names `R` is a read and `W` a write; `C`, `S` and `T` clear, set and toggle. `W1` and `W0` before
/// one of these letters act on the bits where a 1 or a 0 is written: `W1SRC` is "write 1 to set, read to
/// clear". `RO` is read only and `WO` write only. `W1` alone is write once, where only the first write after
/// a hard reset takes effect, and `WO1` is write only, once. Where no effect of a read is named, a read
/// changes nothing.
///
/// What a read of a write-only field answers, 0, is this project's own choice. The variants are in the
/// order in which the policies are numbered, from 0.
#[derive(Debug, Clone, Copy, PartialEq, Eq)]
pub enum Policy {
    /// Read only: a write and a read change nothing.
    Ro,
    /// A write stores what is written; a read changes nothing.
    Rw,
    /// A read clears; a write changes nothing.
    Rc,
    /// A read sets; a write changes nothing.
    Rs,
    /// A write stores what is written; a read clears.
    Wrc,
    /// A write stores what is written; a read sets.
    Wrs,
    /// A write clears, whatever is written; a read changes nothing.
    Wc,
    /// A write sets, whatever is written; a read changes nothing.
    Ws,
    /// A write sets, whatever is written; a read clears.
    Wsrc,
    /// A write clears, whatever is written; a read sets.
    Wcrs,
    /// A written 1 clears its bit; a written 0 and a read change nothing.
    W1c,
    /// A written 1 sets its bit; a written 0 and a read change nothing.
    W1s,
    /// A written 1 toggles its bit; a written 0 and a read change nothing.
    W1t,
    /// A written 0 clears its bit; a written 1 and a read change nothing.
    W0c,
    /// A written 0 sets its bit; a written 1 and a read change nothing.
    W0s,
    /// A written 0 toggles its bit; a written 1 and a read change nothing.
    W0t,
    /// A written 1 sets its bit, and a written 0 changes nothing; a read clears.
    W1src,
    /// A written 1 clears its bit, and a written 0 changes nothing; a read sets.
    W1crs,
    /// A written 0 sets its bit, and a written 1 changes nothing; a read clears.
    W0src,
    /// A written 0 clears its bit, and a written 1 changes nothing; a read sets.
    W0crs,
    /// Write only: a write stores what is written; a read answers 0 and changes nothing.
    Wo,
    /// Write only: a write clears, whatever is written; a read answers 0 and changes nothing.
    Woc,
    /// Write only: a write sets, whatever is written; a read answers 0 and changes nothing.
    Wos,
    /// Write once: the first write after a hard reset stores what is written, later ones change nothing.
    W1,
    /// Write only, once: written as `W1`; a read answers 0 and changes nothing.
    Wo1,
}

/// The 25 predefined policies of `uvm_reg_field`, in the order of the standard's table (IEEE 1800.2-2017, 18.5).
pub const POLICIES: [Policy; 25] = [
    Policy::Ro,
    Policy::Rw,
    Policy::Rc,
    Policy::Rs,
    Policy::Wrc,
    Policy::Wrs,
    Policy::Wc,
    Policy::Ws,
    Policy::Wsrc,
    Policy::Wcrs,
    Policy::W1c,
    Policy::W1s,
    Policy::W1t,
    Policy::W0c,
    Policy::W0s,
    Policy::W0t,
    Policy::W1src,
    Policy::W1crs,
    Policy::W0src,
    Policy::W0crs,
    Policy::Wo,
    Policy::Woc,
    Policy::Wos,
    Policy::W1,
    Policy::Wo1,
];

// The first policy of this name.
fn first_named(name: &[u8]) -> Option<Policy>
    ensures { result ≡ find (λ p. bytes_eq (name_of p) name.now) POLICIES }
{
    POLICIES
        .iter()
        .copied()
        .find(|p| p.name().as_bytes() == name)
}

impl Policy {
    /// The policy of this name, which is in capitals, as `W1SRC`.
    pub fn of_name(name: &[u8]) -> Option<Policy>
        ensures found { IfSome result (λ p. name.now ≡ name_of p) }
        ensures none { IsNone result → (p : Policy) → name.now ≢ name_of p }
    {
        first_named(name)
    }

    /// The policy's name, in capitals, as `uvm_reg_field` has it (IEEE 1800.2-2017, 18.5).
    pub fn name(self) -> &'static str
        ensures { result.now ≡ name_of self }
    {
        match self {
            Policy::Ro => "RO",
            Policy::Rw => "RW",
            Policy::Rc => "RC",
            Policy::Rs => "RS",
            Policy::Wrc => "WRC",
            Policy::Wrs => "WRS",
            Policy::Wc => "WC",
            Policy::Ws => "WS",
            Policy::Wsrc => "WSRC",
            Policy::Wcrs => "WCRS",
            Policy::W1c => "W1C",
            Policy::W1s => "W1S",
            Policy::W1t => "W1T",
            Policy::W0c => "W0C",
            Policy::W0s => "W0S",
            Policy::W0t => "W0T",
            Policy::W1src => "W1SRC",
            Policy::W1crs => "W1CRS",
            Policy::W0src => "W0SRC",
            Policy::W0crs => "W0CRS",
            Policy::Wo => "WO",
            Policy::Woc => "WOC",
            Policy::Wos => "WOS",
            Policy::W1 => "W1",
            Policy::Wo1 => "WO1",
        }
    }

    /// The bits after a write of `w`: the write effect of `uvm_reg_field` (IEEE 1800.2-2017, 18.5). `spent` has a
    /// mark for each bit, which is this project's own.
    #[tactic(auto, using(crate::proofs::BitLemmas::word_bits))]
    pub fn written(self, cur: u64, w: u64, spent: u64) -> u64
        ensures { (i : ℕ) → i < 64 → bit result i ≡ after_write self (bit cur i) (bit w i) (bit spent i) }
    {
        match self {
            Policy::Ro | Policy::Rc | Policy::Rs => cur,
            Policy::Rw | Policy::Wrc | Policy::Wrs | Policy::Wo => w,
            Policy::Wc | Policy::Wcrs | Policy::Woc => 0,
            Policy::Ws | Policy::Wsrc | Policy::Wos => u64::MAX,
            Policy::W1c | Policy::W1crs => cur & !w,
            Policy::W1s | Policy::W1src => cur | w,
            Policy::W1t => cur ^ w,
            Policy::W0c | Policy::W0crs => cur & w,
            Policy::W0s | Policy::W0src => cur | !w,
            Policy::W0t => cur ^ !w,
            Policy::W1 | Policy::Wo1 => replaced(w, cur, spent),
        }
    }

    /// The bits after a read: the read effect of `uvm_reg_field` (IEEE 1800.2-2017, 18.5).
    #[tactic(auto, using(crate::proofs::BitLemmas::word_bits))]
    pub fn left_by_read(self, cur: u64) -> u64
        ensures { (i : ℕ) → i < 64 → bit result i ≡ after_read self (bit cur i) }
    {
        match self {
            Policy::Rc | Policy::Wrc | Policy::Wsrc | Policy::W1src | Policy::W0src => 0,
            Policy::Rs | Policy::Wrs | Policy::Wcrs | Policy::W1crs | Policy::W0crs => u64::MAX,
            _ => cur,
        }
    }

    /// The bits that a read answers: those stored, or 0 for a write-only field, which is this project's own.
    #[tactic(auto, using(crate::proofs::BitLemmas::word_bits))]
    pub fn answered(self, cur: u64) -> u64
        ensures { (i : ℕ) → i < 64 → bit result i ≡ value_read self (bit cur i) }
    {
        if write_only(self) { 0 } else { cur }
    }

    /// The update bits, this project's own: those to write so that the desired ones result, as far as the
    /// policy can reach them.
    #[tactic(auto, using(crate::proofs::BitLemmas::word_bits))]
    pub fn updating(self, desired: u64, mirrored: u64) -> u64
        ensures { (i : ℕ) → i < 64 → bit result i ≡ update_bit self (bit desired i) (bit mirrored i) }
    {
        match self {
            Policy::W1c | Policy::W0s | Policy::W1crs | Policy::W0src => !desired,
            Policy::W1t => desired ^ mirrored,
            Policy::W0t => !(desired ^ mirrored),
            _ => desired,
        }
    }

    /// The neutral bits, this project's own: those to write so that a field keeps its bits as far as its
    /// policy allows that.
    #[tactic(auto, using(crate::proofs::BitLemmas::word_bits))]
    pub fn neutral(self, mirrored: u64) -> u64
        ensures { (i : ℕ) → i < 64 → bit result i ≡ neutral_bit self (bit mirrored i) }
    {
        match self {
            Policy::Ro
            | Policy::Rc
            | Policy::Rs
            | Policy::W1c
            | Policy::W1s
            | Policy::W1t
            | Policy::W1src
            | Policy::W1crs => 0,
            Policy::W0c | Policy::W0s | Policy::W0t | Policy::W0src | Policy::W0crs => u64::MAX,
            _ => mirrored,
        }
    }
}

/// Whether a read of a field of this policy answers 0 in place of what is stored, which is this project's own.
pub fn write_only(p: Policy) -> bool
    ensures { result ≡ is_write_only p }
{
    matches!(p, Policy::Wo | Policy::Woc | Policy::Wos | Policy::Wo1)
}

/// Whether only the first write after a hard reset takes effect (`W1` and `WO1` of `uvm_reg_field`, IEEE 1800.2-2017,
/// 18.5); a field that took it is spent.
pub fn spends(p: Policy) -> bool
    ensures { result ≡ spends_mark p }
{
    matches!(p, Policy::W1 | Policy::Wo1)
}

/// The value of a field of `width` bits after a write of `w`, where it held `cur`: the write effect of `uvm_reg_field`
/// (IEEE 1800.2-2017, 18.5).
///
/// # Examples
///
/// ```text
/// write_effect(Policy::Rw, 4, 0x5, 0x3, false) == 0x3
/// write_effect(Policy::W1c, 4, 0x5, 0x3, false) == 0x4
/// write_effect(Policy::W1t, 4, 0x5, 0x3, false) == 0x6
/// write_effect(Policy::W1, 4, 0x5, 0x3, true) == 0x5
/// ```
pub fn write_effect(p: Policy, width: u32, cur: u64, w: u64, spent: bool) -> u64
    requires some { 1 ≤ width }
    requires most { width ≤ 64 }
    ensures { result ≡ from_bits width (λ i. after_write p (bit cur i) (bit w i) spent) }
{
    p.written(cur, w, repeated(spent)) & mask(width)
}

/// The value of a field of `width` bits after a read, where it held `cur`: the read effect of `uvm_reg_field`
/// (IEEE 1800.2-2017, 18.5).
pub fn read_effect(p: Policy, width: u32, cur: u64) -> u64
    requires some { 1 ≤ width }
    requires most { width ≤ 64 }
    ensures { result ≡ from_bits width (λ i. after_read p (bit cur i)) }
{
    p.left_by_read(cur) & mask(width)
}

/// What a read of a field of `width` bits answers, where it holds `cur`.
///
/// The read's own effect comes after the answer.
pub fn read_value(p: Policy, width: u32, cur: u64) -> u64
    requires some { 1 ≤ width }
    requires most { width ≤ 64 }
    ensures { result ≡ from_bits width (λ i. value_read p (bit cur i)) }
{
    p.answered(cur) & mask(width)
}

/// The desired value of a field after `v` was set (`uvm_reg_field::set`, IEEE 1800.2-2017, 18.5).
///
/// That it is the value that a write of `v` over it would leave is this project's own.
pub fn set_value(p: Policy, width: u32, desired: u64, v: u64, spent: bool) -> u64
    requires some { 1 ≤ width }
    requires most { width ≤ 64 }
    ensures { result ≡ from_bits width (λ i. after_write p (bit desired i) (bit v i) spent) }
{
    write_effect(p, width, desired, v, spent)
}

/// The value to write to a field so that the desired value results, as far as the policy can reach it: this project's
/// own.
pub fn update_word(p: Policy, width: u32, desired: u64, mirrored: u64) -> u64
    requires some { 1 ≤ width }
    requires most { width ≤ 64 }
    ensures { result ≡ from_bits width (λ i. update_bit p (bit desired i) (bit mirrored i)) }
{
    p.updating(desired, mirrored) & mask(width)
}

/// The value to write to a field along with its neighbours, so that it stays as it is where its policy allows that:
/// this project's own.
pub fn neutral_word(p: Policy, width: u32, mirrored: u64) -> u64
    requires some { 1 ≤ width }
    requires most { width ≤ 64 }
    ensures { result ≡ from_bits width (λ i. neutral_bit p (bit mirrored i)) }
{
    p.neutral(mirrored) & mask(width)
}
