// The lines of a script, one after another.
ghost use Rattle.std.specs.Prelude.{◌≡◌, ◌≢◌, ◌≤◌, map, true, false, Ok, Err, MatchResult, IfOk, IfErr, IfSome, OnOk};
ghost use Rattle.std.specs.Prelude.{Some};
ghost use Rattle.std.specs.Io.KnownBytes.{Keeps};
ghost use Rattle.rl_play.specs.Prelude.{IsReady, IsSameChip, IsCaused, DoesFirstEvents};
ghost use Rattle.rl_play.specs.Prelude.{KeepsEarlier, end_status, IsCounted, PlayEnds, said_by, moment_of};
ghost use Rattle.rl_play.specs.Prelude.{BreaksFrom, KeepsCut, PlaysLine, PlaysScript, PlaysThrough, asked, spot, Turns};
ghost use Rattle.rl_play.specs.Prelude.{PlaysOnAnyDevice, heard, is_complete, Tells, refused_text};
ghost use Rattle.rl_play.specs.Prelude.{end_text, Hands, read_of, line_said, input_of, HoldsLine};
ghost use Rattle.rl_play.specs.Prelude.{stop_of, fault_of, NotByCounts, StaysReady, Leaves, LeavesLines, CutsLine};

use crate::buffered::Earlier;
use crate::line::run_line;
use crate::log::Log;
use crate::texts::{put_end, put_line_refused, refusal_of};
use crate::unbuffered::Unbuffered;
use rl_access::Model;
use rl_bus::{Adapter, Adapters, Device};
use rl_log::{Counts, LineRefusal, Status};
use rl_report::{Failed, Got, LineReader, Sink, Source};
use rl_script::{LineFault, LineRef, read_line_ref};
use std::alloc::Global;
use std::marker::Brand;

/// The number of the last line of a script that is run.
pub const MOST_LINES: u64 = 1_000_000;

/// What comes of a line.
#[derive(Clone, Copy)]
pub enum Turn {
    /// The script goes on.
    Next,
    /// It ended, with this status.
    Stop(Status),
}

/// Takes the next line. What was written before is out before the source is read.
pub fn take_line<S: Source, L: Log>(
    lines: &mut LineReader,
    source: &mut S,
    out: &mut L,
) -> Result<Got, Status>
    requires found { lines.old.found ≡ true }
    requires going { lines.old.refused ≡ false }
    ensures found { lines.new.found ≡ true }
    ensures going { IfOk result (λ got. got ≢ Got.TooLong → lines.new.refused ≡ false) }
    ensures handed { IfOk result (λ got. IfSome (input_of lines.old (S.left source.old))
        (λ bytes. Hands bytes got lines.new (S.left source.new))) }
    ensures ended { lines.old.ended ≡ true → lines.new.ended ≡ true }
    ensures told { Keeps (L.written out.old) (L.written out.new) }
    ensures broken { IfErr result (λ status. is_complete status ≡ false) }

    // A source that fails loses no byte, and nothing is kept back of what was written.
    ensures at_fault { result ≡ Err Status.SourceFault
        → CutsLine lines.old (S.left source.old) lines.new (S.left source.new) (L.is_out out.new) }

    // Where no whole line was here, nothing is kept back of what was written before, and nothing is written since.
    ensures out_first { OnOk result ((HoldsLine lines.old → ⊥) → L.is_out out.new) }

    ensures leaves { Leaves L.Sink (S.faults source.old) (S.faults source.new) out.old out.new (fault_of result) }
{
    if !lines.holds_line() && out.flush().is_err() {
        return Err(Status::SinkFault);
    }
    match lines.next_line(source) {
        Ok(got) => Ok(got),
        Err(Failed) => Err(Status::SourceFault),
    }
}

// The status at the end of a script.
fn status_at_end(counts: &Counts) -> Status
    ensures { result ≡ end_status counts.now }
{
    if counts.differences == 0 && counts.errors == 0 {
        Status::Passed
    } else {
        Status::Found
    }
}

/// Ends a script whose lines were all run.
pub fn end<L: Log>(counts: &Counts, out: &mut L) -> Status
    ensures tells { Tells result (end_status counts.now) (L.written out.old) (L.written out.new) (end_text counts.now) }
    ensures counted { IsCounted result counts.now }
    ensures leaves { Leaves L.Sink 0 0 out.old out.new (Some result) }
{
    match put_end(out, counts) {
        Ok(()) => status_at_end(counts),
        Err(Failed) => Status::SinkFault,
    }
}

// Ends a script at a line that is refused.
fn refuse<L: Log>(number: u64, refusal: LineRefusal, out: &mut L) -> Status
    ensures tells { Tells result Status.Refused (L.written out.old) (L.written out.new) (refused_text number refusal) }
    ensures counted { NotByCounts (Some result) }
    ensures leaves { Leaves L.Sink 0 0 out.old out.new (Some result) }
{
    match put_line_refused(out, number, refusal) {
        Ok(()) => Status::Refused,
        Err(Failed) => Status::SinkFault,
    }
}

// Runs a line that was read, and writes its log, or ends the script at it.
fn run_read<D: Device, L: Log>(
    number: u64,
    line: &[u8],
    read: &Result<LineRef<'_>, LineFault>,
    model: &mut Model,
    device: &mut D,
    adapters: &mut Adapters,
    out: &mut L,
    counts: &mut Counts,
) -> Turn
    requires ready { IsReady model.old (map standing adapters.old.items) (D.state device.old) }
    requires read { MatchResult read.now
        (λ l. read_of line.now ≡ Ok (line_said l))
        (λ fault. fault ≢ LineFault.Memory → read_of line.now ≡ Err fault) }
    ensures ready { StaysReady model.old model.new (map standing adapters.new.items) (D.state device.new) }
    ensures turn { Turns number (asked model.old (said_by (read_of line.now)))
        (spot standing D.account D.state L.written model.old adapters.old.items device.old out.old counts.old)
        (spot standing D.account D.state L.written model.new adapters.new.items device.new out.new counts.new) result }
    ensures counted { NotByCounts (stop_of result) }
    ensures leaves { Leaves L.Sink 0 0 out.old out.new (stop_of result) }
{
    match read {
        Ok(line) => match run_line(model, device, adapters, line, out, counts) {
            Ok(None) => Turn::Next,
            Ok(Some(refusal)) => Turn::Stop(refuse(number, refusal, out)),
            Err(Failed) => Turn::Stop(Status::SinkFault),
        },
        Err(fault) => match refusal_of(*fault) {
            Some(refusal) => Turn::Stop(refuse(number, refusal, out)),
            None => Turn::Stop(Status::Memory),
        },
    }
}

// Runs a line that was taken, and writes its log, or ends the script at it.
fn run_taken<D: Device, L: Log>(
    alloc: Global,
    number: u64,
    got: Got,
    line: &[u8],
    model: &mut Model,
    device: &mut D,
    adapters: &mut Adapters,
    out: &mut L,
    counts: &mut Counts,
) -> Turn
    requires ready { IsReady model.old (map standing adapters.old.items) (D.state device.old) }
    ensures ready { StaysReady model.old model.new (map standing adapters.new.items) (D.state device.new) }
    ensures short { result ≡ Turn.Next → got ≢ Got.TooLong }
    ensures last { result ≡ Turn.Next → number ≤ MOST_LINES }
    ensures turn { Turns number (asked model.old (heard number got line.now))
        (spot standing D.account D.state L.written model.old adapters.old.items device.old out.old counts.old)
        (spot standing D.account D.state L.written model.new adapters.new.items device.new out.new counts.new) result }
    ensures counted { NotByCounts (stop_of result) }
    ensures leaves { Leaves L.Sink 0 0 out.old out.new (stop_of result) }
{
    if number > MOST_LINES {
        return Turn::Stop(refuse(number, LineRefusal::TooManyLines, out));
    }
    if is_too_long(got) {
        return Turn::Stop(refuse(number, LineRefusal::TooLong, out));
    }
    // An empty line says nothing, and scripts have many.
    if line.is_empty() {
        return Turn::Next;
    }
    let read = read_line_ref(alloc, line);
    run_read(number, line, &read, model, device, adapters, out, counts)
}

/// Whether a line has more than 4,096 bytes.
pub fn is_too_long(got: Got) -> bool
    ensures long { result ≡ true → got ≡ Got.TooLong }
    ensures short { result ≡ false → got ≢ Got.TooLong }
{
    matches!(got, Got::TooLong)
}

/// Whether there is no further line.
pub fn is_end(got: Got) -> bool
    ensures end { result ≡ true → got ≡ Got.End }
    ensures more { result ≡ false → got ≢ Got.End }
{
    matches!(got, Got::End)
}

// Reads the next line, runs it and writes its log.
fn play_line<S: Source, D: Device, L: Log>(
    alloc: Global,
    number: u64,
    model: &mut Model,
    device: &mut D,
    adapters: &mut Adapters,
    lines: &mut LineReader,
    source: &mut S,
    out: &mut L,
    counts: &mut Counts,
) -> Turn
    requires ready { IsReady model.old (map standing adapters.old.items) (D.state device.old) }
    requires found { lines.old.found ≡ true }
    requires going { lines.old.refused ≡ false }
    ensures ready { StaysReady model.old model.new (map standing adapters.new.items) (D.state device.new) }
    ensures plays { PlaysLine number
        (spot standing D.account D.state L.written model.old adapters.old.items device.old out.old counts.old)
        (input_of lines.old (S.left source.old))
        (spot standing D.account D.state L.written model.new adapters.new.items device.new out.new counts.new)
        (input_of lines.new (S.left source.new)) (S.left source.new) lines.new.ended result }
    ensures leaves { LeavesLines L.Sink (L.is_out out.new)
        lines.old lines.new (S.faults source.old) (S.faults source.new) out.old out.new result }
{
    let got = match take_line(lines, source, out) {
        Ok(got) => got,
        Err(status) => return Turn::Stop(status),
    };
    if is_end(got) {
        return Turn::Stop(end(counts, out));
    }
    let line = lines.line();
    run_taken(
        alloc, number, got, line, model, device, adapters, out, counts,
    )
}

/// Runs the lines that are left, and writes the log of each and the last line to a sink that may keep bytes back.
pub fn play_lines<S: Source, D: Device, L: Log>(
    alloc: Global,
    model: &mut Model,
    device: &mut D,
    adapters: &mut Adapters,
    lines: &mut LineReader,
    source: &mut S,
    out: &mut L,
    counts: &mut Counts,
) -> Status
    requires ready { IsReady model.old (map standing adapters.old.items) (D.state device.old) }
    requires found { lines.old.found ≡ true }
    requires going { lines.old.refused ≡ false }
    ensures ready { IsReady model.new (map standing adapters.new.items) (D.state device.new) }
    ensures parts { IsSameChip model.old model.new }
    ensures plays { PlaysThrough
        (spot standing D.account D.state L.written model.old adapters.old.items device.old out.old counts.old)
        (input_of lines.old (S.left source.old)) (input_of lines.new (S.left source.new)) (S.left source.new)
        (spot standing D.account D.state L.written model.new adapters.new.items device.new out.new counts.new) result }
    ensures leaves { LeavesLines L.Sink (L.is_out out.new)
        lines.old lines.new (S.faults source.old) (S.faults source.new) out.old out.new (Turn.Stop result) }
{
    let mut number = 1u64;
    loop {
        match play_line(
            alloc, number, model, device, adapters, lines, source, out, counts,
        ) {
            Turn::Next => number += 1,
            Turn::Stop(status) => return status,
        }
    }
}

// Runs the lines that are left with nothing kept back. Whatever the answer, the sink keeps the bytes that it had before.
fn play_through<S: Source, K: Sink, D: Device, E: Earlier>(
    alloc: Global,
    model: &mut Model,
    device: &mut D,
    adapters: &mut Adapters,
    lines: &mut LineReader,
    source: &mut S,
    sink: &mut K,
    counts: &mut Counts,
) -> Status
    requires ready { IsReady model.old (map standing adapters.old.items) (D.state device.old) }
    requires found { lines.old.found ≡ true }
    requires going { lines.old.refused ≡ false }
    requires earlier { K.written sink.old ≡ E.bytes }
    ensures ready { IsReady model.new (map standing adapters.new.items) (D.state device.new) }
    ensures parts { IsSameChip model.old model.new }
    ensures plays { PlaysThrough
        (spot standing D.account D.state K.written model.old adapters.old.items device.old sink.old counts.old)
        (input_of lines.old (S.left source.old)) (input_of lines.new (S.left source.new)) (S.left source.new)
        (spot standing D.account D.state K.written model.new adapters.new.items device.new sink.new counts.new) result }
    ensures found { lines.new.found ≡ true }
    ensures again { result ≡ Status.SourceFault → lines.new.refused ≡ false }
    ensures keeps_earlier { KeepsEarlier (K.written sink.old) (K.written sink.new) }
    ensures source_later { S.faults source.old ≤ S.faults source.new }
    ensures sink_later { K.faults sink.old ≤ K.faults sink.new }
    ensures cause { IsCaused result
        (S.faults source.old) (S.faults source.new) (K.faults sink.old) (K.faults sink.new) }
    ensures ends_kept { K.ends sink.new ≡ K.ends sink.old }
{
    let mut out = Unbuffered::<K, E>::new(sink);
    play_lines(
        alloc, model, device, adapters, lines, source, &mut out, counts,
    )
}

/// Runs the lines that are left on a device, and writes the log of each and the last line. Nothing is kept back: each
/// event is written to the sink before the next one is performed, within a sequence and a burst too.
///
/// Lines are numbered from the first that is read here, and the last line and the status are by the lines of this
/// call alone. The counts rise by what happened. The output isn't finished.
///
/// # Examples
///
/// The lines are `write ctrl 0x3` and `check ctrl`, and the device is as described. The status is `Status::Passed`, and
/// the sink has:
///
/// ```text
/// write ctrl 0x3 @bus: ok mirror 0x03
///   bus w 0x0 0x03 1 #0 ok
/// check ctrl @bus: ok 0x03 mirror 0x03
///   bus r 0x0 0x03 1 #1 ok
/// end: 2 events, 0 differences, 0 bus errors
/// ```
pub fn play<S: Source, K: Sink, D: Device>(
    alloc: Global,
    model: &mut Model,
    device: &mut D,
    adapters: &mut Adapters,
    lines: &mut LineReader,
    source: &mut S,
    sink: &mut K,
    counts: &mut Counts,
) -> Status
    requires ready { IsReady model.old (map standing adapters.old.items) (D.state device.old) }
    requires found { lines.old.found ≡ true }
    requires going { lines.old.refused ≡ false }
    ensures ready { IsReady model.new (map standing adapters.new.items) (D.state device.new) }
    ensures parts { IsSameChip model.old model.new }
    // Where the device reports its state and the source its bytes, what is written is the log of the lines that are
    // left, from the device and the model as they are. The status is its status, and the counts rise by what it counts.
    // After any fault, and where memory ran out, it is a front of that log.
    ensures log { PlaysScript
        (moment_of standing D.state K.written model.old adapters.old.items device.old sink.old counts.old)
        (input_of lines.old (S.left source.old))
        (moment_of standing D.state K.written model.new adapters.new.items device.new sink.new counts.new) result }
    // After a source that failed, the sink has exactly the log of the lines that were taken whole.
    ensures at_fault { result ≡ Status.SourceFault → BreaksFrom 1
        (moment_of standing D.state K.written model.old adapters.old.items device.old sink.old counts.old)
        (input_of lines.old (S.left source.old)) (S.left source.new) (K.written sink.new) }
    // The reader can then be handed to the next call, which goes on with the line that was cut: the reader has what was
    // taken of it, and no byte is lost behind the lines that were taken whole.
    ensures found { lines.new.found ≡ true }
    ensures again { result ≡ Status.SourceFault → lines.new.refused ≡ false }
    ensures none_lost { result ≡ Status.SourceFault → KeepsCut
        (input_of lines.old (S.left source.old)) (input_of lines.new (S.left source.new)) (S.left source.new) }
    // However it ends, the sink keeps the bytes that it had before.
    ensures keeps_earlier { KeepsEarlier (K.written sink.old) (K.written sink.new) }
    // However it ends: model, adapters and device are as after the first events of the script, as many as the count
    // of events rose by, and the counts rose by what these count.
    ensures done { DoesFirstEvents
        (moment_of standing D.state K.written model.old adapters.old.items device.old sink.old counts.old)
        (input_of lines.old (S.left source.old))
        (moment_of standing D.state K.written model.new adapters.new.items device.new sink.new counts.new) }
    // Over any device, also one that tells nothing: what is written is the text of events, each of which performs its
    // line's operation from where the one before ended, over the items and answers of these events. After a source that
    // failed these are exactly the lines that were taken whole, and their text was written whole.
    ensures any_device { PlaysOnAnyDevice
        (spot standing D.account D.state K.written model.old adapters.old.items device.old sink.old counts.old)
        (input_of lines.old (S.left source.old)) (S.left source.new)
        (spot standing D.account D.state K.written model.new adapters.new.items device.new sink.new counts.new) result }
    // In any case the status goes by what happened in this call, and the counts rise by it.
    ensures ends { PlayEnds result counts.old counts.new }
    // No fault is made up.
    ensures source_later { S.faults source.old ≤ S.faults source.new }
    ensures sink_later { K.faults sink.old ≤ K.faults sink.new }
    ensures cause { IsCaused result
        (S.faults source.old) (S.faults source.new) (K.faults sink.old) (K.faults sink.new) }
    ensures ends_kept { K.ends sink.new ≡ K.ends sink.old }
{
    let mut own = Counts::new();
    let status = play_through::<S, K, D, Brand>(
        alloc, model, device, adapters, lines, source, sink, &mut own,
    );
    counts.add(&own);
    status
}
