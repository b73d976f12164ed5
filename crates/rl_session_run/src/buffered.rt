// The end of a log that keeps bytes back.
ghost use Rattle.std.specs.Prelude.{◌≡◌, ◌≢◌, ◌≤◌, true, false};
ghost use Rattle.std.specs.Io.KnownBytes.{Keeps};
ghost use Rattle.rl_session_run.specs.Prelude.{EndedOnce, NoneFailed, Rose, is_complete, told};

use rl_log::Status;
use rl_play::{Buffered, Earlier};
use rl_report::{Failed, Sink};

/// Writes what is kept back of a log, and ends it, once, where its last line was written. After a source or a sink that
/// failed nothing more is written.
pub fn end_buffered<K: Sink, E: Earlier>(status: Status, log: &mut Buffered<'_, K, E>) -> Status
    requires { status ≢ Status.Words }
    ensures sink_later { K.faults log.old.sink.now ≤ K.faults log.new.sink.now }
    ensures kept { result ≢ Status.SinkFault → result ≡ status }
    ensures given_up { is_complete status ≡ false → result ≡ status }
    ensures cause { result ≡ Status.SinkFault → status ≢ Status.SinkFault
        → Rose (K.faults log.old.sink.now) (K.faults log.new.sink.now) }
    ensures ended { is_complete result ≡ true → EndedOnce (K.ends log.old.sink.now) (K.ends log.new.sink.now) }
    ensures not_ended { is_complete result ≡ false → K.ends log.new.sink.now ≡ K.ends log.old.sink.now }
    ensures told { Keeps (told K.written log.old) (told K.written log.new) }
    ensures whole { is_complete result ≡ true → Keeps (told K.written log.old) (K.written log.new.sink.now) }
    ensures at_fault { status ≡ Status.SourceFault → log.old.end ≡ 0
        → Keeps (told K.written log.old) (K.written log.new.sink.now) }
    ensures unwritten { status ≡ Status.SourceFault → log.new ≡ log.old }
    ensures at_memory { result ≡ Status.Memory → NoneFailed (K.faults log.old.sink.now) (K.faults log.new.sink.now)
        → Keeps (told K.written log.old) (K.written log.new.sink.now) }
    ensures same_sink { log.new.sink.ghost_name ≡ log.old.sink.ghost_name }
{
    if status.is_complete() {
        return match log.close() {
            Ok(()) => status,
            Err(Failed) => Status::SinkFault,
        };
    }
    if status == Status::Memory {
        // What was written before is the log as far as it went.
        let _ = log.flush();
    }
    status
}
