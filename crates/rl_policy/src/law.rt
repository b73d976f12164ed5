//! Laws of updates: which desired bits a write of the update word leaves, and what keeps desired bits
//! among them. These functions do nothing; their contracts are the laws.
//!
//! The update words and the laws are this project's own; the effects of writes that they speak of are those
//! of IEEE 1800.2.
ghost use Rattle.rl_policy.specs.Reach.{UpdateReaches, KeepsReach};

/// A write of the update word leaves the desired bit exactly where the policy can reach it.
pub fn update_reaches()
    ensures { UpdateReaches }
{}

/// What a mirror does to desired and mirrored bits keeps them in reach.
pub fn reach_is_kept()
    ensures { KeepsReach }
{}
