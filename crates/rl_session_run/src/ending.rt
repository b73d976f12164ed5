// The end of a session.
ghost use Rattle.std.specs.Prelude.{◌≡◌, ◌≢◌, ◌≤◌, true, false};
ghost use Rattle.std.specs.Io.KnownBytes.{Keeps};
ghost use Rattle.rl_session_run.specs.Prelude.{EndedOnce, Rose, is_complete};

use rl_log::Status;
use rl_report::{Failed, Sink};

/// Ends a log, once, where its last line was written.
pub fn end_log<K: Sink>(status: Status, log: &mut K) -> Status
    ensures kept { result ≢ Status.SinkFault → result ≡ status }
    ensures given_up { is_complete status ≡ false → result ≡ status }
    ensures told { Keeps (K.written log.old) (K.written log.new) }
    ensures later { K.faults log.old ≤ K.faults log.new }
    ensures cause { result ≡ Status.SinkFault → status ≢ Status.SinkFault
        → Rose (K.faults log.old) (K.faults log.new) }
    ensures ended { is_complete result ≡ true → EndedOnce (K.ends log.old) (K.ends log.new) }
    ensures not_ended { is_complete result ≡ false → K.ends log.new ≡ K.ends log.old }
{
    if !status.is_complete() {
        return status;
    }
    match log.finish() {
        Ok(()) => status,
        Err(Failed) => Status::SinkFault,
    }
}
