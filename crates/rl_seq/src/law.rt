//! What holds of the sequences. The function does nothing; its contract is the law.
ghost use Rattle.rl_seq.specs.Granted.{NoStepIsRefused};

/// No step of a sequence is refused: each operation of each of the five, over any block, is granted from any
/// model of the chip and the layout, and so from the model that the steps before it leave. A sequence whose
/// events are all refusals can't pass for one that was run.
pub fn no_step_is_refused()
    ensures { NoStepIsRefused }
{}
