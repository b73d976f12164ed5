//! What is asked of the bits of a field.
ghost use Rattle.std.specs.Prelude.{◌≡◌, ℕ, ◌<◌};
ghost use Rattle.rl_policy.specs.Bits.{bit};

use rl_policy::Policy;
use rl_policy::word::repeated;

/// What is asked of the bits of a field, by whole words of its register.
#[derive(Clone, Copy)]
pub(crate) enum Effect {
    /// The update bits: those to write so that the desired ones result.
    Updating { desired: u64, mirrored: u64 },
    /// The neutral bits: those to write so that the field stays as it is.
    Neutral { mirrored: u64 },
    /// The field's spent mark, on each of its bits.
    Mark,
}

impl Effect {
    ghost use Rattle.rl_mirror.specs.Effect.{effect_bit};

    /// The bits under a policy, for a field with this spent mark.
    #[inline(always)]
    #[tactic(auto, using(rl_policy::proofs::BitLemmas::word_bits))]
    pub(crate) fn on(self, policy: Policy, spent: bool) -> u64
        ensures { (b : ℕ) → b < 64 → bit result b ≡ effect_bit self policy spent b }
    {
        match self {
            Effect::Updating { desired, mirrored } => policy.updating(desired, mirrored),
            Effect::Neutral { mirrored } => policy.neutral(mirrored),
            Effect::Mark => repeated(spent),
        }
    }
}
