// A session up to its separator, and its description.
ghost use Rattle.std.specs.Prelude.{◌≡◌, ◌≢◌, ◌≤◌, ◌<◌, ◌^◌, List, [], Ok, Err, map, length, OnOk, IfOk, IfErr};
ghost use Rattle.std.specs.Prelude.{IfSome};
ghost use Rattle.rl_session_run.specs.Prelude.{AdapterKind, AwaitsScript, IsBehindHead, IsCaused, IsFresh, IsRunnable};
ghost use Rattle.rl_session_run.specs.Prelude.{KeepsEarlier, LeavesScript, OpensWith, ReadsHead, Stays, Stops, TakesNoHead};
ghost use Rattle.rl_session_run.specs.Prelude.{kinds_of, opening_after, opening_of, refused_status};

use rl_bus::{Adapter, Adapters};
use rl_desc::{Desc, DescFault};
use rl_log::Status;
use rl_report::{Failed, Head, HeadFault, LineReader, Sink, Source, put_all};
use rl_session::{described, put_description_refused};
use std::alloc::{AllocError, Global};

/// The status of a session that is refused, by whether its last line was written.
pub fn refused(written: Result<(), Failed>) -> Status
    ensures { result ≡ refused_status written }
{
    match written {
        Ok(()) => Status::Refused,
        Err(Failed) => Status::SinkFault,
    }
}

// A reader that has taken nothing yet.
fn fresh_lines(alloc: Global) -> Result<LineReader, AllocError>
    ensures { IfOk result IsFresh }
{
    LineReader::build(alloc)
}

// Reads the bytes before the separator, or ends the session.
fn read_head<S: Source, K: Sink>(
    lines: &mut LineReader,
    source: &mut S,
    head: &mut Vec<u8>,
    log: &mut K,
) -> Result<(), Status>
    requires empty { head.old.items ≡ [] }
    requires fresh { IsFresh lines.old }
    ensures behind { OnOk result (IsBehindHead lines.new) }
    ensures reads { OnOk result (IfSome (S.left source.old)
        (λ bytes. ReadsHead bytes head.new.items lines.new (S.left source.new))) }
    ensures unwritten { OnOk result (log.new ≡ log.old) }
    ensures at_fault { result ≡ Err Status.SourceFault
        → IfSome (S.left source.old) (λ bytes. TakesNoHead bytes (S.left source.new)) }
    ensures unwritten_at_fault { result ≡ Err Status.SourceFault → log.new ≡ log.old }
    ensures unread { result ≢ Err Status.SourceFault → result ≢ Err Status.Memory
        → IfSome (S.left source.old) (λ bytes. LeavesScript bytes (S.left source.new)) }
    ensures stops { IfErr result (λ status. IfSome (S.left source.old) (λ bytes.
        (kinds : List AdapterKind)
        → Stops (opening_of bytes kinds) status (K.written log.old) (K.written log.new))) }
    ensures none_found { IfErr result (λ status. status ≢ Status.Found) }
    ensures source_later { S.faults source.old ≤ S.faults source.new }
    ensures cause { IfErr result (λ status. IsCaused status
        (S.faults source.old) (S.faults source.new) (K.faults log.old) (K.faults log.new)) }
    ensures keeps_earlier { KeepsEarlier (K.written log.old) (K.written log.new) }
    ensures stays { Stays K.faults K.ends K.target log.old log.new }
{
    match lines.read_head(source, head) {
        Ok(Head::Found) => Ok(()),
        Ok(Head::Missing) => Err(refused(put_all(log, b"refused session: no separator\n"))),
        Ok(Head::TooLong) => Err(refused(put_all(log, b"refused session: description too long\n"))),
        Err(HeadFault::Source) => Err(Status::SourceFault),
        Err(HeadFault::Memory) => Err(Status::Memory),
    }
}

// Reads the description that opens a session, or ends the session.
fn read_desc<K: Sink>(
    alloc: Global,
    head: &[u8],
    adapters: &Adapters,
    log: &mut K,
) -> Result<Desc, Status>
    requires few { length (map standing adapters.now.items) < 2 ^ 32 }
    ensures runnable { IfOk result (λ desc. IsRunnable desc (kinds_of (map standing adapters.now.items))) }
    ensures opening { IfOk result (λ desc.
        opening_after (Ok head.now) (kinds_of (map standing adapters.now.items)) ≡ Ok desc) }
    ensures unwritten { OnOk result (log.new ≡ log.old) }
    ensures stops { IfErr result (λ status. Stops
        (opening_after (Ok head.now) (kinds_of (map standing adapters.now.items)))
        status (K.written log.old) (K.written log.new)) }
    ensures none_found { IfErr result (λ status. status ≢ Status.Found) }
    ensures cause { IfErr result (λ status. IsCaused status 0 0 (K.faults log.old) (K.faults log.new)) }
    ensures keeps_earlier { KeepsEarlier (K.written log.old) (K.written log.new) }
    ensures stays { Stays K.faults K.ends K.target log.old log.new }
{
    let fault = match described(alloc, head, adapters) {
        Ok(desc) => return Ok(desc),
        Err(fault) => fault,
    };
    if fault == DescFault::Memory {
        return Err(Status::Memory);
    }
    Err(refused(put_description_refused(log, &fault)))
}

/// Reads a session up to its separator, and its description, or ends it. With the description comes the reader, which
/// has the script.
///
/// # Errors
///
/// The status of a session that ended here: `Refused` once the line that says so was written, a fault of the source or
/// of the log, or out of memory. Where the source fails, no whole separator was taken, and nothing was written. Else,
/// unless memory ran out, the script is unread but for what was taken with the separator.
pub fn open_session<S: Source, K: Sink>(
    alloc: Global,
    source: &mut S,
    log: &mut K,
    adapters: &Adapters,
) -> Result<(Desc, LineReader), Status>
    requires few { length (map standing adapters.now.items) < 2 ^ 32 }
    ensures awaits { IfOk result (λ opened.
        AwaitsScript opened.0 opened.1 (kinds_of (map standing adapters.now.items))) }
    ensures opens { IfOk result (λ opened. IfSome (S.left source.old) (λ bytes.
        OpensWith bytes (kinds_of (map standing adapters.now.items)) opened.0 opened.1 (S.left source.new))) }
    ensures unwritten { OnOk result (log.new ≡ log.old) }
    ensures stops { IfErr result (λ status. IfSome (S.left source.old) (λ bytes. Stops
        (opening_of bytes (kinds_of (map standing adapters.now.items)))
        status (K.written log.old) (K.written log.new))) }
    ensures none_found { IfErr result (λ status. status ≢ Status.Found) }
    ensures at_fault { result ≡ Err Status.SourceFault
        → IfSome (S.left source.old) (λ bytes. TakesNoHead bytes (S.left source.new)) }
    ensures unwritten_at_fault { result ≡ Err Status.SourceFault → log.new ≡ log.old }
    ensures unread { result ≢ Err Status.SourceFault → result ≢ Err Status.Memory
        → IfSome (S.left source.old) (λ bytes. LeavesScript bytes (S.left source.new)) }
    ensures source_later { S.faults source.old ≤ S.faults source.new }
    ensures cause { IfErr result (λ status. IsCaused status
        (S.faults source.old) (S.faults source.new) (K.faults log.old) (K.faults log.new)) }
    ensures keeps_earlier { KeepsEarlier (K.written log.old) (K.written log.new) }
    ensures stays { Stays K.faults K.ends K.target log.old log.new }
{
    let Ok(mut lines) = fresh_lines(alloc) else {
        return Err(Status::Memory);
    };
    let mut head = Vec::new(alloc);
    read_head(&mut lines, source, &mut head, log)?;
    match read_desc(alloc, &head, adapters, log) {
        Ok(desc) => Ok((desc, lines)),
        Err(status) => Err(status),
    }
}
