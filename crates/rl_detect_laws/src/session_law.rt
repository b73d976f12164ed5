//! What a judged session says of the flaws of its description. Each function does nothing; its contract is the law.
ghost use Rattle.rl_detect_laws.specs.Logged.{SequenceIsLogged, ShownIsFound, ShownNeverPasses};
ghost use Rattle.rl_detect_laws.specs.Sessions.{LoneLineIsPlayed, SessionFindsBitFlaw};
ghost use Rattle.rl_detect_laws.specs.Sessions.{SessionFindsDeafMemory, SessionFindsDeafRegister};
ghost use Rattle.rl_detect_laws.specs.Sessions.{SessionFindsError, SessionFindsKeptReset, SessionFindsStuckBit};
ghost use Rattle.rl_detect_laws.specs.Sessions.{SessionFindsStuckBitBeside, SessionFindsStuckReset};
ghost use Rattle.rl_detect_laws.specs.Sessions.{SessionFindsWrongReset, SessionMarksOnlyDeaf};

/// The events of a line `seq NAME BLOCK` in the log of a script are those of a run of the sequence, from the world that
/// the lines before it lead to. So what a law says of the events of a run it says of the log.
pub fn sequence_is_logged()
    ensures { SequenceIsLogged }
{}

/// A script with an event that names a field, marks a location or ended by a bus error never passes. Where no line is
/// refused, its status is that something was found: exit code 1.
pub fn shown_is_found()
    ensures passes { ShownNeverPasses }
    ensures found { ShownIsFound }
{}

/// No line is refused of the script that is `seq NAME *`, and the line is that sequence over the whole chip.
pub fn lone_line_is_played()
    ensures { LoneLineIsPlayed }
{}

/// A session whose description declares one flaw, a wrong value at a HARD reset of a compared field, finds it by any
/// line `seq hw-reset` that visits the field's register. It finds it by a first line `seq bit-bash`, `seq access` or
/// `seq shared` too, where by the field's policy a write leaves two different bits different.
pub fn session_finds_wrong_reset()
    ensures any { SessionFindsWrongReset }
    ensures kept { SessionFindsKeptReset }
{}

/// A session finds an address that answers errors, with any flaws beside it, by any line of a sequence that visits a
/// place with a word there. The item that failed is of this word, or of one before it in the location.
pub fn session_finds_error()
    ensures { SessionFindsError }
{}

/// A session whose one flaw is a stuck bit finds it by its first line, where that is `seq bit-bash` or `seq hw-reset`
/// and the law of the sequence names the field.
pub fn session_finds_stuck_bit()
    ensures turned { SessionFindsStuckBit }
    ensures beside { SessionFindsStuckBitBeside }
    ensures reset { SessionFindsStuckReset }
{}

/// A session whose one flaw is a deaf register finds it by a first line `seq access`, where the policy of a compared
/// field turns a bit from its first value.
pub fn session_finds_deaf_register()
    ensures { SessionFindsDeafRegister }
{}

/// A session whose flaws are deaf items finds each of its deaf memories by a first line `seq mem-walk` that visits it:
/// the check of its first location is marked, and of each other one to which the walk first writes more than 0. No event
/// of that line is marked but such a check of a deaf memory.
pub fn session_finds_deaf_memory()
    ensures found { SessionFindsDeafMemory }
    ensures only { SessionMarksOnlyDeaf }
{}

/// Let the one flaw of a session be a stuck bit, a deaf register or another policy of a field. The session finds it by
/// a first line `seq bit-bash`, `seq access` or `seq shared`, where no field is volatile and the steps over the bit
/// show the flaw.
pub fn session_finds_bit_flaw()
    ensures { SessionFindsBitFlaw }
{}
