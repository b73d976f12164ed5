//! What holds of the log of a session on a device that does as described. Each function does nothing; its contract
//! is the law.
ghost use Rattle.rl_session_laws.specs.PlainLog.{OpenedLogIsPlain};

/// The judged log of a session that opens, without its item lines, is the log of the plain machine, where the
/// description declares no flaw and no volatile field.
pub fn opened_log_is_plain()
    ensures { OpenedLogIsPlain }
{}
