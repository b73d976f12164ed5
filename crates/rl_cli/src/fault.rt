// What is said where the log can't say how a call ended.
ghost use Rattle.rl_log.specs.Statuses.{is_complete};
ghost use Rattle.std.specs.Prelude.{◌≡◌, None, true};

use rl_log::Status;

// Why a call has no log to its end; none where the log says how it ended, or the words ask for nothing.
fn fault_text(status: Status) -> Option<&'static str>
    ensures none { is_complete status ≡ true → result ≡ None }
{
    match status {
        Status::SourceFault => Some("the input couldn't be read"),
        Status::SinkFault => Some("the output couldn't be written"),
        Status::Memory => Some("out of memory"),
        Status::Words | Status::Passed | Status::Found | Status::Refused => None,
    }
}

/// Says on standard error, after the program's name, that the input couldn't be read, the output couldn't be written,
/// or memory ran out, where a call ended so.
pub fn tell_fault(rt: &impl Eprint, program: &str, status: Status) {
    if let Some(text) = fault_text(status) {
        let _ = eprintln!(rt; "{program}: {text}");
    }
}
