//! What holds of the session that is made from a number.
ghost use Rattle.rl_session_laws.specs.SoakDescription.{DescriptionReads};
ghost use Rattle.rl_session_laws.specs.SoakNoFault.{DescriptionHasNoFault};
ghost use Rattle.rl_session_laws.specs.SoakScript.{ScriptReads};

/// The script of the session reads, line by line, as the operations that are drawn. None is refused.
pub fn script_reads()
    ensures { ScriptReads }
{}

/// Its description reads as the 64 registers on two buses that are meant, and the session opens with these.
pub fn description_reads()
    ensures { DescriptionReads }
{}

/// Where the plain adapter and that of an APB are at hand, the description has no fault, and the session opens.
pub fn description_has_no_fault()
    ensures { DescriptionHasNoFault }
{}
