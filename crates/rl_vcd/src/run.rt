// A whole session on the device model, with its log and its dump.
ghost use Rattle.std.specs.Prelude.{◌≡◌, ◌≤◌, ◌<◌, ◌^◌, map, length, true, false, None, Some, IfSome};
ghost use Rattle.rl_play.specs.Leaves.{Leaves};
ghost use Rattle.rl_report.specs.Reading.{input_of};
ghost use Rattle.rl_session.specs.Judged.{judged, script_judged};
ghost use Rattle.rl_session_run.specs.Output.{IsJudged};
ghost use Rattle.rl_session_run.specs.Prelude.{AwaitsScript, EndedOnce, IsCaused, KeepsEarlier, RunsScript, is_complete};
ghost use Rattle.rl_session_run.specs.Prelude.{kinds_of, opening_of, run_lines};
ghost use Rattle.rl_vcd.specs.Noted.{Closes};
ghost use Rattle.rl_vcd.specs.Session.{DrawsRest, DrawsSession};

use crate::dump::{Dump, Fault};
use crate::recorder::Drawing;
use crate::session::Session;
use rl_bus::{Adapter, Adapters};
use rl_desc::Desc;
use rl_log::{Counts, Status};
use rl_play::{Buffered, Earlier, Log};
use rl_report::{LineReader, Sink, Source};
use rl_session::open;
use rl_session_run::{end_buffered, open_session};
use std::alloc::Global;
use std::marker::Brand;

/// How a session ended, and its dump.
#[derive(Drop)]
pub struct Ran<K> {
    /// How it ended.
    pub status: Status,
    /// Why its dump ended early, where it did.
    pub fault: Option<Fault>,
    /// Where its dump went.
    pub vcd: K,
}

// A session that ended before its dump began.
fn undrawn<K>(status: Status, vcd: K) -> Ran<K>
    ensures { result ≡ record { status = status; fault = None; vcd = vcd } }
{
    Ran {
        status,
        fault: None,
        vcd,
    }
}

// Ends the dump of a session that ended so.
fn end_dump<K: Sink + Drop>(status: Status, mut dump: Dump<K>) -> Ran<K>
    ensures status { result.status ≡ status }
    ensures closes { Closes K.Sink dump result.fault result.vcd }
{
    dump.close();
    Ran {
        status,
        fault: dump.fault,
        vcd: dump.sink,
    }
}

// Runs the lines that are left of a session that was opened, and draws and ends its dump.
fn run_opened<S: Source, L: Log, K: Sink + Drop>(
    alloc: Global,
    desc: Desc,
    lines: &mut LineReader,
    source: &mut S,
    log: &mut L,
    vcd: K,
    adapters: &mut Adapters,
) -> Ran<K>
    requires awaits { AwaitsScript desc lines.old (kinds_of (map standing adapters.old.items)) }
    ensures draws { DrawsRest K.Sink desc (input_of lines.old (S.left source.old)) (S.left source.new)
        (L.written log.old) (L.written log.new) (map standing adapters.old.items) vcd
        result.status result.fault result.vcd }
    ensures runs { RunsScript S.Source L.Sink L.is_out (script_judged desc) (run_lines desc) lines.old
        source.old source.new log.old log.new
        (map standing adapters.old.items) (map standing adapters.new.items) result.status }
    ensures kinds { kinds_of (map standing adapters.new.items) ≡ kinds_of (map standing adapters.old.items) }
{
    let mut dump = match Dump::build(alloc, &desc.layout, vcd) {
        Ok(dump) => dump,
        Err(vcd) => return undrawn(Status::Memory, vcd),
    };
    let Ok((mut model, mut bench)) = open(alloc, desc) else {
        return end_dump(Status::Memory, dump);
    };
    let pen = Drawing {
        log,
        dump: &mut dump,
        counts: Counts::new(),
    };
    let mut session = Session {
        model: &mut model,
        bench: &mut bench,
        pen,
    };
    let status = session.run_script(alloc, adapters, lines, source);
    end_dump(status, dump)
}

// Runs a session, draws its events and writes its log. The log isn't ended.
fn run_open<P: Source, L: Log, K: Sink + Drop>(
    alloc: Global,
    session: &mut P,
    log: &mut L,
    vcd: K,
    adapters: &mut Adapters,
) -> Ran<K>
    requires few { length (map standing adapters.old.items) < 2 ^ 32 }
    ensures judged { IfSome (P.left session.old) (λ bytes. IsJudged (judged bytes (map standing adapters.old.items))
        result.status (L.written log.old) (L.written log.new) (map standing adapters.new.items)) }
    ensures draws { IfSome (P.left session.old) (λ bytes.
        DrawsSession K.Sink (opening_of bytes (kinds_of (map standing adapters.old.items))) bytes (P.left session.new)
        (L.written log.old) (L.written log.new) (map standing adapters.old.items) vcd
        result.status result.fault result.vcd) }
    ensures flushed { result.status ≡ Status.SourceFault → L.is_out log.old → L.is_out log.new }
    ensures leaves { Leaves L.Sink (P.faults session.old) (P.faults session.new) log.old log.new (Some result.status) }
    ensures kinds { kinds_of (map standing adapters.new.items) ≡ kinds_of (map standing adapters.old.items) }
{
    match open_session(alloc, session, log, adapters) {
        Ok((desc, mut lines)) => run_opened(alloc, desc, &mut lines, session, log, vcd, adapters),
        Err(status) => undrawn(status, vcd),
    }
}

// Runs a session over a log that keeps bytes back. Whatever the answer, the log keeps the bytes that it had before.
fn run_through<P: Source, Q: Sink, K: Sink + Drop, E: Earlier>(
    alloc: Global,
    session: &mut P,
    log: &mut Q,
    vcd: K,
    adapters: &mut Adapters,
) -> Ran<K>
    requires few { length (map standing adapters.old.items) < 2 ^ 32 }
    requires earlier { Q.written log.old ≡ E.bytes }
    ensures judged { IfSome (P.left session.old) (λ bytes. IsJudged (judged bytes (map standing adapters.old.items))
        result.status (Q.written log.old) (Q.written log.new) (map standing adapters.new.items)) }
    ensures draws { IfSome (P.left session.old) (λ bytes.
        DrawsSession K.Sink (opening_of bytes (kinds_of (map standing adapters.old.items))) bytes (P.left session.new)
        (Q.written log.old) (Q.written log.new) (map standing adapters.old.items) vcd
        result.status result.fault result.vcd) }
    ensures kinds { kinds_of (map standing adapters.new.items) ≡ kinds_of (map standing adapters.old.items) }
    ensures keeps_earlier { KeepsEarlier (Q.written log.old) (Q.written log.new) }
    ensures source_later { P.faults session.old ≤ P.faults session.new }
    ensures sink_later { Q.faults log.old ≤ Q.faults log.new }
    ensures cause { IsCaused result.status
        (P.faults session.old) (P.faults session.new) (Q.faults log.old) (Q.faults log.new) }
    ensures ended { is_complete result.status ≡ true → EndedOnce (Q.ends log.old) (Q.ends log.new) }
    ensures not_ended { is_complete result.status ≡ false → Q.ends log.new ≡ Q.ends log.old }
{
    let mut out = Buffered::<Q, E>::new(log);
    let ran = run_open(alloc, session, &mut out, vcd, adapters);
    Ran {
        status: end_buffered(ran.status, &mut out),
        fault: ran.fault,
        vcd: ran.vcd,
    }
}

/// Runs a session on the device model, and writes its log, and the pins of its APB items as a dump.
///
/// The log is the one that `run` writes, and its status is the session's, whatever becomes of the dump. The log is
/// finished once, where its last line was written, and the dump where all its text was.
pub fn run_waves<P: Source, Q: Sink, K: Sink + Drop>(
    alloc: Global,
    session: &mut P,
    log: &mut Q,
    vcd: K,
    adapters: &mut Adapters,
) -> Ran<K>
    requires few { length (map standing adapters.old.items) < 2 ^ 32 }

    // What is written is the judged log of the session, and the status is the judged one. After any fault, and where
    // memory ran out, a front of it was written.
    ensures judged { IfSome (P.left session.old) (λ bytes. IsJudged (judged bytes (map standing adapters.old.items))
        result.status (Q.written log.old) (Q.written log.new) (map standing adapters.new.items)) }

    // Which sessions are refused and in what words; and of the others the dump: exactly its header, and behind it the
    // text of exactly the transfers of the events that the log tells, in order. After a source that failed these are
    // the events of exactly the lines that were taken whole.
    ensures draws { IfSome (P.left session.old) (λ bytes.
        DrawsSession K.Sink (opening_of bytes (kinds_of (map standing adapters.old.items))) bytes (P.left session.new)
        (Q.written log.old) (Q.written log.new) (map standing adapters.old.items) vcd
        result.status result.fault result.vcd) }
    ensures kinds { kinds_of (map standing adapters.new.items) ≡ kinds_of (map standing adapters.old.items) }

    // However it ends, the log keeps the bytes that it had before.
    ensures keeps_earlier { KeepsEarlier (Q.written log.old) (Q.written log.new) }

    // No fault is made up.
    ensures source_later { P.faults session.old ≤ P.faults session.new }
    ensures sink_later { Q.faults log.old ≤ Q.faults log.new }
    ensures cause { IsCaused result.status
        (P.faults session.old) (P.faults session.new) (Q.faults log.old) (Q.faults log.new) }

    // The log is ended, once, exactly where its last line was written.
    ensures ended { is_complete result.status ≡ true → EndedOnce (Q.ends log.old) (Q.ends log.new) }
    ensures not_ended { is_complete result.status ≡ false → Q.ends log.new ≡ Q.ends log.old }
{
    run_through::<P, Q, K, Brand>(alloc, session, log, vcd, adapters)
}
