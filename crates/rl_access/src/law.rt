//! What holds of every operation, and of gathering. Each function does nothing; its contract is the law.
ghost use Rattle.rl_access.specs.Laws.{BusErrorKeepsBeliefs, CheckNamesDiffering, MemoryCheckMarksAnother};
ghost use Rattle.rl_access.specs.Laws.{NothingElseDiffers};
ghost use Rattle.rl_access.specs.Observed.{WholeAccessPredicts};
ghost use Rattle.rl_access.specs.World.{CallDoesStep, StepIsCall};

/// An operation that ended by a bus error leaves the mirrored values, the desired values and the marks of first
/// writes as they were.
pub fn bus_error_keeps_beliefs()
    ensures { BusErrorKeepsBeliefs }
{}

/// A check of a register names exactly the fields that are compared, which aren't write-only and have `compare`
/// set, and whose bits in the value read aren't those that were mirrored before the read.
pub fn check_names_differing_fields()
    ensures { CheckNamesDiffering }
{}

/// A check of a memory's location is marked exactly where it read another value than the given one.
pub fn memory_check_marks_another_value()
    ensures { MemoryCheckMarksAnother }
{}

/// An operation that is no check names nothing, and neither does a check that was refused or ended by a bus error.
pub fn nothing_else_differs()
    ensures { NothingElseDiffers }
{}

/// Over a device that reports its state an operation has one event, and one state of things after it: those of the
/// step, which is a function of what was before.
pub fn call_does_its_step()
    ensures exact { CallDoesStep }
    ensures some { StepIsCall }
{}

/// From an empty list, the words of a whole access that a predictor sees in order leave the mirror that
/// implicit prediction leaves, and an empty list.
pub fn whole_access_predicts()
    ensures { WholeAccessPredicts }
{}
