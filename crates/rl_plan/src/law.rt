//! What holds of the lines of every plan and of those that are added to a script, and what the steps by bus and
//! backdoor show of one bit. Each function does nothing; its contract is the law.
ghost use Rattle.rl_plan.specs.Bits.{ForgetsAtReset, ShowsDeafOnes, ShowsStuckBits, ShowsWrongResets};
ghost use Rattle.rl_plan.specs.Bits.{TellsPoliciesApart};
ghost use Rattle.rl_plan.specs.Enough.{AddedLinesAreEnough};
ghost use Rattle.rl_plan.specs.Laws.{LinesAreFew, LinesReadBack};

/// The steps distinguish any two of the 25 policies, from each reset value on and where there is none: some check
/// differs where the device has another policy. So it is of each policy that a read shows, whatever the bit held before
/// in the model and in the device, and whether its first write was done.
pub fn policies_are_told_apart()
    ensures { TellsPoliciesApart }
{}

/// A bit that is stuck at 0 or at 1 makes some check differ.
pub fn stuck_bits_show()
    ensures { ShowsStuckBits }
{}

/// A device that takes no write makes some check differ, for each policy by which a write does something.
pub fn deaf_ones_show()
    ensures { ShowsDeafOnes }
{}

/// A wrong reset value makes some check differ.
pub fn wrong_resets_show()
    ensures { ShowsWrongResets }
{}

/// Where a HARD reset gives a bit a value, what steps after it show is the same whatever the bit held before.
pub fn a_reset_forgets()
    ensures { ForgetsAtReset }
{}

/// Each line of a plan reads back as the operation that it stands for, where the maps and the reset kinds have names,
/// as those of a description that isn't refused do.
pub fn lines_read_back()
    ensures { LinesReadBack }
{}

/// A register has at most 30 lines and one more for each place with the reset HARD, and 8 for each kind of reset. With
/// the kinds HARD and SOFT only and at most 8 places it has at most 40.
pub fn lines_are_few()
    ensures { LinesAreFew }
{}

/// No flaw of a register, a memory or a field that the lines of all items find after a script is missed there with the
/// lines that are added to it.
pub fn added_lines_are_enough()
    ensures { AddedLinesAreEnough }
{}
