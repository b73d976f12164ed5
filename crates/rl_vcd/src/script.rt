// The lines of a script, one after another.
ghost use Rattle.std.specs.Prelude.{◌≡◌, ◌≢◌, ◌≤◌, ℕ, List, map, true, false, Ok, Err, Some, IfNone, IfSome, MatchResult};
ghost use Rattle.rl_access.specs.Model.{IsReady, IsSameChip};
ghost use Rattle.rl_bench.specs.State.{bench_state};
ghost use Rattle.rl_log.specs.Log.{said_by};
ghost use Rattle.rl_log.specs.Telling.{Tells};
ghost use Rattle.rl_log.specs.Texts.{refused_text};
ghost use Rattle.rl_play.specs.Heard.{heard};
ghost use Rattle.rl_play.specs.Leaves.{Leaves, LeavesLines, NotByCounts, StaysReady};
ghost use Rattle.rl_play.specs.Work.{asked};
ghost use Rattle.rl_report.specs.Reading.{input_of};
ghost use Rattle.rl_script.specs.Reading.{read_of};
ghost use Rattle.rl_script.specs.Said.{line_said};
ghost use Rattle.rl_vcd.specs.Playing.{CanRun, IsSamePen, RunsTurn, spot_of};
ghost use Rattle.rl_vcd.specs.Script.{DrawsLine, DrawsScript};

use crate::session::Session;
use rl_bus::{Adapter, Adapters};
use rl_log::{LineRefusal, Status};
use rl_play::{
    Log, MOST_LINES, Turn, end, is_end, is_too_long, put_line_refused, refusal_of, take_line,
};
use rl_report::{Failed, Got, LineReader, Sink, Source};
use rl_script::{LineFault, LineRef, read_line_ref};
use std::alloc::Global;

// Ends a script at a line that is refused.
fn refuse<L: Log>(number: u64, refusal: LineRefusal, log: &mut L) -> Status
    ensures tells { Tells result Status.Refused (L.written log.old) (L.written log.new) (refused_text number refusal) }
    ensures counted { NotByCounts (Some result) }
    ensures leaves { Leaves L.Sink 0 0 log.old log.new (Some result) }
{
    match put_line_refused(log, number, refusal) {
        Ok(()) => Status::Refused,
        Err(Failed) => Status::SinkFault,
    }
}

// Why a line is refused, whatever it says.
fn refusal_unread(number: u64, got: Got) -> Option<LineRefusal>
    ensures refused { IfSome result (λ why. (line : List ℕ) → heard number got line ≡ Err why) }
    ensures short { IfNone result (got ≢ Got.TooLong) }
    ensures last { IfNone result (number ≤ MOST_LINES) }
{
    if number > MOST_LINES {
        return Some(LineRefusal::TooManyLines);
    }
    if is_too_long(got) {
        return Some(LineRefusal::TooLong);
    }
    None
}

impl<L: Log, K: Sink> Session<'_, '_, '_, L, K> {
    // Runs a line that was read, and draws and writes it, or ends the script at it.
    fn run_read(
        &mut self,
        number: u64,
        line: &[u8],
        read: &Result<LineRef<'_>, LineFault>,
        adapters: &mut Adapters,
    ) -> Turn
        requires ready { CanRun (map standing adapters.old.items) self.old }
        requires read { MatchResult read.now
            (λ l. read_of line.now ≡ Ok (line_said l))
            (λ fault. fault ≢ LineFault.Memory → read_of line.now ≡ Err fault) }
        ensures { RunsTurn L.Sink K.Sink number (asked self.old.model.now (said_by (read_of line.now)))
            (map standing adapters.old.items) (map standing adapters.new.items) self.old self.new result }
    {
        match read {
            Ok(line) => match self.run_line(adapters, line) {
                Ok(None) => Turn::Next,
                Ok(Some(refusal)) => Turn::Stop(refuse(number, refusal, self.pen.log)),
                Err(Failed) => Turn::Stop(Status::SinkFault),
            },
            Err(fault) => match refusal_of(*fault) {
                Some(refusal) => Turn::Stop(refuse(number, refusal, self.pen.log)),
                None => Turn::Stop(Status::Memory),
            },
        }
    }

    // Runs a line that was taken, and draws and writes it, or ends the script at it.
    fn run_taken(
        &mut self,
        alloc: Global,
        number: u64,
        got: Got,
        line: &[u8],
        adapters: &mut Adapters,
    ) -> Turn
        requires { CanRun (map standing adapters.old.items) self.old }
        ensures next { result ≡ Turn.Next → (got ≢ Got.TooLong) × (number ≤ MOST_LINES) }
        ensures runs { RunsTurn L.Sink K.Sink number (asked self.old.model.now (heard number got line.now))
            (map standing adapters.old.items) (map standing adapters.new.items) self.old self.new result }
    {
        if let Some(refusal) = refusal_unread(number, got) {
            return Turn::Stop(refuse(number, refusal, self.pen.log));
        }
        // An empty line says nothing, and scripts have many.
        if line.is_empty() {
            return Turn::Next;
        }
        let read = read_line_ref(alloc, line);
        self.run_read(number, line, &read, adapters)
    }

    // Reads the next line, runs it, and draws and writes it.
    fn run_next<S: Source>(
        &mut self,
        alloc: Global,
        number: u64,
        adapters: &mut Adapters,
        lines: &mut LineReader,
        source: &mut S,
    ) -> Turn
        requires ready { CanRun (map standing adapters.old.items) self.old }
        requires found { lines.old.found ≡ true }
        requires going { lines.old.refused ≡ false }
        ensures ready { StaysReady self.old.model.now self.new.model.now
            (map standing adapters.new.items) (Some (bench_state self.new.bench.now)) }
        ensures draws { DrawsLine K.Sink number
            (spot_of L.Sink self.old (map standing adapters.old.items)) (input_of lines.old (S.left source.old))
            (spot_of L.Sink self.new (map standing adapters.new.items)) (input_of lines.new (S.left source.new))
            (S.left source.new) lines.new.ended self.old.pen.dump.now self.new.pen.dump.now result }
        ensures leaves { LeavesLines L.Sink (L.is_out self.new.pen.log.now) lines.old lines.new
            (S.faults source.old) (S.faults source.new) self.old.pen.log.now self.new.pen.log.now result }
        ensures same { IsSamePen self.old.pen self.new.pen }
    {
        let got = match take_line(lines, source, self.pen.log) {
            Ok(got) => got,
            Err(status) => return Turn::Stop(status),
        };
        if is_end(got) {
            let counts = self.pen.counts;
            return Turn::Stop(end(&counts, self.pen.log));
        }
        let line = lines.line();
        self.run_taken(alloc, number, got, line, adapters)
    }

    /// Runs the lines that are left, draws the events of each, and writes its log and the last line.
    pub(crate) fn run_script<S: Source>(
        &mut self,
        alloc: Global,
        adapters: &mut Adapters,
        lines: &mut LineReader,
        source: &mut S,
    ) -> Status
        requires ready { CanRun (map standing adapters.old.items) self.old }
        requires found { lines.old.found ≡ true }
        requires going { lines.old.refused ≡ false }
        ensures ready { IsReady self.new.model.now (map standing adapters.new.items) (Some (bench_state self.new.bench.now)) }
        ensures parts { IsSameChip self.old.model.now self.new.model.now }
        ensures draws { DrawsScript K.Sink
            (spot_of L.Sink self.old (map standing adapters.old.items))
            (input_of lines.old (S.left source.old)) (S.left source.new)
            (spot_of L.Sink self.new (map standing adapters.new.items))
            self.old.pen.dump.now self.new.pen.dump.now result }
        ensures leaves { LeavesLines L.Sink (L.is_out self.new.pen.log.now) lines.old lines.new
            (S.faults source.old) (S.faults source.new)
            self.old.pen.log.now self.new.pen.log.now (Turn.Stop result) }
        ensures same { IsSamePen self.old.pen self.new.pen }
    {
        let mut number = 1u64;
        loop {
            match self.run_next(alloc, number, adapters, lines, source) {
                Turn::Next => number += 1,
                Turn::Stop(status) => return status,
            }
        }
    }
}
