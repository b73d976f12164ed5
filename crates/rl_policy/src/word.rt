//! Words as bits. Bits are counted from 0, the lowest.
ghost use Rattle.std.specs.Prelude.{◌≡◌, ℕ, ◌+◌, ◌-◌, ◌^◌, ◌<◌, ◌≤◌, if◌then◌else◌};
ghost use Rattle.rl_policy.specs.Bits.{bit, from_bits, is_within, put_bit};

/// The word with the lowest `width` bits set: the largest value of a field of this width.
pub fn mask(width: u32) -> u64
    requires some { 1 ≤ width }
    requires most { width ≤ 64 }
    ensures { result ≡ 2 ^ width - 1 }
{
    u64::MAX >> (64 - width)
}

/// A word whose bits all are `b`.
#[tactic(auto, using(crate::proofs::BitLemmas::word_bits))]
pub fn repeated(b: bool) -> u64
    ensures { (i : ℕ) → i < 64 → bit result i ≡ b }
{
    if b { u64::MAX } else { 0 }
}

/// The word with the bits of `by` where `places` has a bit.
#[tactic(auto, using(crate::proofs::BitLemmas::word_bits))]
pub fn replaced(word: u64, by: u64, places: u64) -> u64
    ensures { (i : ℕ) → i < 64 → bit result i ≡ (if bit places i then bit by i else bit word i) }
{
    (word & !places) | (by & places)
}

/// The value of the field of `width` bits that is at `lsb` in a word.
pub fn take(word: u64, lsb: u32, width: u32) -> u64
    requires some { 1 ≤ width }
    requires most { lsb + width ≤ 64 }
    ensures { result ≡ from_bits width (λ i. bit word (lsb + i)) }
{
    (word >> lsb) & mask(width)
}

/// The word whose set bits are those of the field of `width` bits at `lsb`.
pub fn window(lsb: u32, width: u32) -> u64
    requires some { 1 ≤ width }
    requires most { lsb + width ≤ 64 }
    ensures { (i : ℕ) → i < 64 → bit result i ≡ is_within lsb width i }
{
    mask(width) << lsb
}

/// The word with the value `v` in the field of `width` bits at `lsb`, and all its other bits as they were.
pub fn put(word: u64, lsb: u32, width: u32, v: u64) -> u64
    requires some { 1 ≤ width }
    requires most { lsb + width ≤ 64 }
    requires v_fits { v < 2 ^ width }
    ensures { result ≡ from_bits 64 (put_bit lsb width (bit v) (bit word)) }
{
    (word & !window(lsb, width)) | (v << lsb)
}
