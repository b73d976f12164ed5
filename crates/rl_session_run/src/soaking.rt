// A session that is made from a number, run with nothing written but one line.
ghost use Rattle.std.specs.Prelude.{◌≡◌, ◌≤◌, ◌<◌, ◌^◌, ◌-◌, ◌++◌, false, true, Some, IfSome, map, length, min, take};
ghost use Rattle.std.specs.Prelude.{drop, vec_len};
ghost use Rattle.rl_session_run.specs.Prelude.{AwaitsScript, IsCaused, IsPlayed, IsReady, IsSameChip, Stays, Tells};
ghost use Rattle.rl_session_run.specs.Prelude.{WritesJudged, bench_state, coming, input_of, is_complete, kinds_of};
ghost use Rattle.rl_session_run.specs.Prelude.{output_of, soak_judged, soak_line_text, soak_script_judged};

use crate::opening::open_session;
use rl_access::{Event, Model};
use rl_bench::Bench;
use rl_bus::{Adapter, Adapters};
use rl_desc::Desc;
use rl_log::{Counts, Status};
use rl_play::{Log, play_lines};
use rl_report::{Failed, LineReader, Sink, Source};
use rl_session::{mirror_sum, open, put_soak_line, soak_session};
use std::alloc::Global;

// A session in memory, which never fails.
#[derive(Drop)]
struct Text {
    bytes: Vec<u8>,
    at: usize,
    ghost within: { at ≤ vec_len bytes },
}

// Copies as many bytes as both have. Answers how many.
fn copy_front(from: &[u8], to: &mut [u8]) -> usize
    ensures count { result ≡ min (length from.now) (length to.old) }
    ensures copied { to.new ≡ take result from.now ++ drop result to.old }
{
    let count = from.len().min(to.len());
    to[..count].copy_from_slice(&from[..count]);
    count
}

impl Source for Text {
    ghost use Rattle.std.specs.Prelude.{Some};

    ghost left = { λ s. Some (drop s.at s.bytes.items) };

    ghost faults = { λ _. 0 };

    fn read(&mut self, buf: &mut [u8]) -> Result<usize, Failed> {
        let count = copy_front(&self.bytes[self.at..], buf);
        self.at += count;
        Ok(count)
    }
}

// A sink that keeps nothing, and never fails.
#[derive(Drop)]
struct Quiet {}

impl Sink for Quiet {
    ghost use Rattle.std.specs.Prelude.{None};

    ghost written = { λ _. None };

    ghost faults = { λ _. 0 };

    // At its end, so that `finish` need count nothing.
    ghost ends = { λ _. 2 ^ 64 - 1 };

    fn write(&mut self, piece: &[u8]) -> Result<usize, Failed> {
        Ok(piece.len())
    }

    fn finish(&mut self) -> Result<(), Failed> {
        Ok(())
    }
}

impl Log for Quiet {
    ghost is_out = { λ _. Unit };

    fn event(&mut self, _model: &Model, _event: &Event) -> Result<(), Failed> {
        Ok(())
    }

    fn flush(&mut self) -> Result<(), Failed> {
        Ok(())
    }
}

// Runs a session with nothing written.
fn run_quietly(
    alloc: Global,
    model: &mut Model,
    bench: &mut Bench,
    adapters: &mut Adapters,
    lines: &mut LineReader,
    source: &mut Text,
    counts: &mut Counts,
) -> Status
    requires ready { IsReady model.old (map standing adapters.old.items) (Some (bench_state bench.old)) }
    requires found { lines.old.found ≡ true }
    requires going { lines.old.refused ≡ false }
    ensures ready { IsReady model.new (map standing adapters.new.items) (Some (bench_state bench.new)) }
    ensures parts { IsSameChip model.old model.new }
    ensures log { IfSome (coming 1 counts.old model.old (map standing adapters.old.items) (Some (bench_state bench.old))
        (input_of lines.old (Some (drop source.old.at source.old.bytes.items))))
        (λ e. is_complete result ≡ true
        → IsPlayed e result counts.new model.new (map standing adapters.new.items) (Some (bench_state bench.new))) }
    ensures cause { IsCaused result 0 0 0 0 }
{
    let mut quiet = Quiet {};
    play_lines(
        alloc, model, bench, adapters, lines, source, &mut quiet, counts,
    )
}

// Writes the line of a soak that came to its end.
fn put_line<L: Log>(status: Status, out: &mut L, n: u64, counts: &Counts, sum: u64) -> Status
    requires { is_complete status ≡ true }
    ensures tells { Tells result status
        (L.written out.old) (L.written out.new) (soak_line_text n counts.now sum) }
    ensures cause { IsCaused result 0 0 (L.faults out.old) (L.faults out.new) }
    ensures stays { Stays L.faults L.ends L.target out.old out.new }
{
    match put_soak_line(out, n, counts, sum) {
        Ok(()) => status,
        Err(Failed) => Status::SinkFault,
    }
}

// Runs the session of a description, and writes its line.
fn soak_desc<L: Log>(
    alloc: Global,
    n: u64,
    desc: Desc,
    lines: &mut LineReader,
    source: &mut Text,
    out: &mut L,
    adapters: &mut Adapters,
) -> Status
    requires awaits { AwaitsScript desc lines.old (kinds_of (map standing adapters.old.items)) }
    ensures kinds { kinds_of (map standing adapters.new.items) ≡ kinds_of (map standing adapters.old.items) }
    ensures tells { IfSome (input_of lines.old (Some (drop source.old.at source.old.bytes.items))) (λ bytes.
        WritesJudged (soak_script_judged n desc bytes) result
        (output_of L.written standing out.old adapters.old.items)
        (output_of L.written standing out.new adapters.new.items)) }
    ensures cause { IsCaused result 0 0 (L.faults out.old) (L.faults out.new) }
    ensures stays { Stays L.faults L.ends L.target out.old out.new }
{
    let Ok((mut model, mut bench)) = open(alloc, desc) else {
        return Status::Memory;
    };
    let mut counts = Counts::new();
    let status = run_quietly(
        alloc,
        &mut model,
        &mut bench,
        adapters,
        lines,
        source,
        &mut counts,
    );
    if !status.is_complete() {
        return status;
    }
    let sum = mirror_sum(model.mirror(), model.chip().regs());
    put_line(status, out, n, &counts, sum)
}

/// Makes the session of a number, runs it and writes one line: the counts of its events and the sum of its mirrored
/// values.
pub fn put_soak<L: Log>(alloc: Global, n: u64, out: &mut L, adapters: &mut Adapters) -> Status
    requires few { length (map standing adapters.old.items) < 2 ^ 32 }
    ensures kinds { kinds_of (map standing adapters.new.items) ≡ kinds_of (map standing adapters.old.items) }
    ensures tells { WritesJudged (soak_judged n) result
        (output_of L.written standing out.old adapters.old.items)
        (output_of L.written standing out.new adapters.new.items) }
    ensures cause { IsCaused result 0 0 (L.faults out.old) (L.faults out.new) }
    ensures stays { Stays L.faults L.ends L.target out.old out.new }
{
    let Ok(bytes) = soak_session(alloc, n) else {
        return Status::Memory;
    };
    let mut source = Text { bytes, at: 0 };
    match open_session(alloc, &mut source, out, adapters) {
        Ok((desc, mut lines)) => soak_desc(alloc, n, desc, &mut lines, &mut source, out, adapters),
        Err(status) => status,
    }
}
