// What a line does, and its log.
ghost use Rattle.std.specs.Prelude.{◌≡◌, ◌<◌, length, map as each, IfSome, MatchResult, None, Ok, Err};
ghost use Rattle.rl_play.specs.Prelude.{IsReady, line_said, plan_of, JobHasNumbers, asked};
ghost use Rattle.rl_play.specs.Prelude.{job_work, one_op, planned, spot, LogsInTurn, RunsOn, SinkStays};
ghost use Rattle.rl_play.specs.Prelude.{StaysReady};
ghost use Rattle.rl_play.specs.Stage.{CanRun, IsRecorded, StaysOn, recorded, spot_of};
ghost use Rattle.rl_script.specs.declared.line.Line.TheVariants as say;

use crate::log::Log;
use crate::recorder::{Writing, record};
use crate::resolve::{block_asked, map_asked, mem_at, op_of};
use crate::texts::{put_sequence_begin, put_sequence_end};
use rl_access::{Event, Model, Op, Tally, burst_read, burst_write, perform_into};
use rl_bus::{Adapter, Adapters, Device};
use rl_log::{Counts, LineRefusal};
use rl_report::Failed;
use rl_script::{IdentRef, Item, ItemLine, LineRef, PathRef, Sequence, Values};

// What a line is run on, and where its log goes.
#[derive(Drop)]
struct Stage<'a, D, K> {
    model: &'a mut Model,
    device: &'a mut D,
    adapters: &'a mut Adapters,
    out: &'a mut K,
    counts: &'a mut Counts,
}

// How a line went: none where it was run, or why it is refused.
type Ran = Result<Option<LineRefusal>, Failed>;

// What a line asks for that is more than one operation.
#[derive(Clone, Copy)]
enum Job<'a> {
    // A sequence, over a block or the whole chip.
    Sequence {
        which: Sequence,
        block: Option<u32>,
    },
    // Values to consecutive locations of a memory.
    BurstWrite {
        mem: u32,
        map: Option<u32>,
        first: u64,
        values: &'a [u64],
    },
    // So many consecutive locations of a memory.
    BurstRead {
        mem: u32,
        map: Option<u32>,
        first: u64,
        count: u64,
    },
}

// Runs a sequence: its events are recorded as they come.
fn run_sequence<D: Device, K: Log>(
    model: &mut Model,
    device: &mut D,
    adapters: &mut Adapters,
    which: Sequence,
    block: Option<u32>,
    rec: &mut Writing<'_, K>,
) -> Result<Tally, Failed>
    requires ready { IsReady model.old (each standing adapters.old.items) (D.state device.old) }
    requires block { IfSome block (λ b. b < model.old.chip.blocks) }
    ensures { IsRecorded K.Sink (planned (plan_of which model.old block))
        (recorded standing D.account D.state K.written model.old adapters.old.items device.old rec.old)
        (recorded standing D.account D.state K.written model.new adapters.new.items device.new rec.new)
        rec.old rec.new result }
{
    match which {
        Sequence::HwReset => rl_seq::hw_reset(model, device, adapters, block, rec),
        Sequence::BitBash => rl_seq::bit_bash(model, device, adapters, block, rec),
        Sequence::Access => rl_seq::access_test(model, device, adapters, block, rec),
        Sequence::Shared => rl_seq::shared_access(model, device, adapters, block, rec),
        Sequence::MemWalk => rl_seq::mem_walk(model, device, adapters, block, rec),
    }
}

// Does what is more than one operation: its events are recorded as they come.
fn record_job<D: Device, K: Log>(
    model: &mut Model,
    device: &mut D,
    adapters: &mut Adapters,
    job: Job<'_>,
    rec: &mut Writing<'_, K>,
) -> Result<Tally, Failed>
    requires ready { IsReady model.old (each standing adapters.old.items) (D.state device.old) }
    requires numbers { JobHasNumbers model.old.chip (length model.old.layout.maps) job }
    ensures { IsRecorded K.Sink (job_work job.entry model.old)
        (recorded standing D.account D.state K.written model.old adapters.old.items device.old rec.old)
        (recorded standing D.account D.state K.written model.new adapters.new.items device.new rec.new)
        rec.old rec.new result }
{
    match job {
        Job::Sequence { which, block } => run_sequence(model, device, adapters, which, block, rec),
        Job::BurstWrite {
            mem,
            map,
            first,
            values,
        } => burst_write(model, device, adapters, mem, map, first, values, rec),
        Job::BurstRead {
            mem,
            map,
            first,
            count,
        } => burst_read(model, device, adapters, mem, map, first, count, rec),
    }
}

// Runs what a line asks for, and writes each of its events to a sink before the next one.
#[tactic(auto, using(crate::proofs::ReadyLemmas::all_steady))]
fn log_job<D: Device, K: Log>(stage: &mut Stage<'_, D, K>, job: Job<'_>) -> Result<Tally, Failed>
    requires ready { CanRun D.Device (each standing stage.old.adapters.now.items) stage.old }
    requires numbers { JobHasNumbers stage.old.model.now.chip (length stage.old.model.now.layout.maps) job }
    ensures logs { LogsInTurn (job_work job.entry stage.old.model.now)
        (spot_of D.Device K.Sink (each standing stage.old.adapters.now.items) stage.old)
        (spot_of D.Device K.Sink (each standing stage.new.adapters.now.items) stage.new) result }
    ensures stays { StaysOn D.Device K.Sink (each standing stage.new.adapters.now.items) stage.old stage.new result }
{
    let mut rec = Writing {
        sink: stage.out,
        counts: *stage.counts,
    };
    let result = record_job(stage.model, stage.device, stage.adapters, job, &mut rec);
    *stage.counts = rec.counts;
    result
}

// How a line went whose names are there, by how its work went.
fn ran<T: Copy>(work: Result<T, Failed>) -> Ran
    ensures { MatchResult work (λ done. result ≡ Ok None) (λ failed. result ≡ Err failed) }
{
    match work {
        Ok(_) => Ok(None),
        Err(failed) => Err(failed),
    }
}

// Runs a line that is a burst of writes.
#[inline(never)]
fn write_burst<D: Device, K: Log>(
    stage: &mut Stage<'_, D, K>,
    mem: &PathRef<'_>,
    first: u64,
    values: &Values,
    name: &Option<IdentRef<'_>>,
) -> Ran
    requires ready { CanRun D.Device (each standing stage.old.adapters.now.items) stage.old }
    ensures run { RunsOn (asked stage.old.model.now (Ok (say.BurstWrite mem.now first values.now name.now)))
        (spot_of D.Device K.Sink (each standing stage.old.adapters.now.items) stage.old)
        (spot_of D.Device K.Sink (each standing stage.new.adapters.now.items) stage.new) result }
    ensures stays { StaysOn D.Device K.Sink (each standing stage.new.adapters.now.items) stage.old stage.new result }
{
    let Some(mem) = mem_at(stage.model, mem) else {
        return Ok(Some(LineRefusal::NoSuchName));
    };
    let Some(through) = map_asked(stage.model, name) else {
        return Ok(Some(LineRefusal::NoSuchName));
    };
    let job = Job::BurstWrite {
        mem,
        map: through,
        first,
        values: values.items(),
    };
    ran(log_job(stage, job))
}

// Runs a line that is a burst of reads.
#[inline(never)]
fn read_burst<D: Device, K: Log>(stage: &mut Stage<'_, D, K>, line: &ItemLine<'_>) -> Ran
    requires ready { CanRun D.Device (each standing stage.old.adapters.now.items) stage.old }
    ensures run { RunsOn
        (asked stage.old.model.now (Ok (say.BurstRead line.now.path line.now.first line.now.second line.now.map)))
        (spot_of D.Device K.Sink (each standing stage.old.adapters.now.items) stage.old)
        (spot_of D.Device K.Sink (each standing stage.new.adapters.now.items) stage.new) result }
    ensures stays { StaysOn D.Device K.Sink (each standing stage.new.adapters.now.items) stage.old stage.new result }
{
    let Some(mem) = mem_at(stage.model, &line.path) else {
        return Ok(Some(LineRefusal::NoSuchName));
    };
    let Some(through) = map_asked(stage.model, &line.map) else {
        return Ok(Some(LineRefusal::NoSuchName));
    };
    let job = Job::BurstRead {
        mem,
        map: through,
        first: line.first,
        count: line.second,
    };
    ran(log_job(stage, job))
}

// Runs a line that is a sequence, with the lines around its events.
#[inline(never)]
fn sequence<D: Device, K: Log>(
    stage: &mut Stage<'_, D, K>,
    which: Sequence,
    path: &Option<PathRef<'_>>,
) -> Ran
    requires ready { CanRun D.Device (each standing stage.old.adapters.now.items) stage.old }
    ensures run { RunsOn (asked stage.old.model.now (Ok (say.Seq which path.now)))
        (spot_of D.Device K.Sink (each standing stage.old.adapters.now.items) stage.old)
        (spot_of D.Device K.Sink (each standing stage.new.adapters.now.items) stage.new) result }
    ensures stays { StaysOn D.Device K.Sink (each standing stage.new.adapters.now.items) stage.old stage.new result }
{
    let Some(block) = block_asked(stage.model, path) else {
        return Ok(Some(LineRefusal::NoSuchName));
    };
    put_sequence_begin(stage.out, which, path)?;
    let tally = log_job(stage, Job::Sequence { which, block })?;
    ran(put_sequence_end(stage.out, which, path, &Counts::of(&tally)))
}

// Runs a line that is one operation: performs it, and writes its log.
#[inline(never)]
fn operation<D: Device, K: Log>(stage: &mut Stage<'_, D, K>, line: &LineRef<'_>) -> Ran
    requires ready { CanRun D.Device (each standing stage.old.adapters.now.items) stage.old }
    ensures run { RunsOn (one_op stage.old.model.now (line_said line.now))
        (spot_of D.Device K.Sink (each standing stage.old.adapters.now.items) stage.old)
        (spot_of D.Device K.Sink (each standing stage.new.adapters.now.items) stage.new) result }
    ensures stays { StaysOn D.Device K.Sink (each standing stage.new.adapters.now.items) stage.old stage.new result }
{
    let Some(op) = op_of(stage.model, line) else {
        return Ok(Some(LineRefusal::NoSuchName));
    };
    let mut event = Event::blank();
    perform_into(stage.model, stage.device, stage.adapters, op, &mut event);
    ran(record(&event, stage.model, stage.out, stage.counts))
}

// Runs a line, and writes its log. Answers why it is refused, if a name isn't there.
pub(crate) fn run_line<D: Device, K: Log>(
    model: &mut Model,
    device: &mut D,
    adapters: &mut Adapters,
    line: &LineRef<'_>,
    out: &mut K,
    counts: &mut Counts,
) -> Ran
    requires ready { IsReady model.old (each standing adapters.old.items) (D.state device.old) }
    ensures ready { StaysReady model.old model.new (each standing adapters.new.items) (D.state device.new) }
    ensures run { RunsOn (asked model.old (Ok (line_said line.now)))
        (spot standing D.account D.state K.written model.old adapters.old.items device.old out.old counts.old)
        (spot standing D.account D.state K.written model.new adapters.new.items device.new out.new counts.new) result }
    ensures stays { SinkStays K.Sink out.old out.new result }
{
    let mut stage = Stage {
        model,
        device,
        adapters,
        out,
        counts,
    };
    run_on(&mut stage, line)
}

// Runs a line on a stage.
fn run_on<D: Device, K: Log>(stage: &mut Stage<'_, D, K>, line: &LineRef<'_>) -> Ran
    requires ready { CanRun D.Device (each standing stage.old.adapters.now.items) stage.old }
    ensures run { RunsOn (asked stage.old.model.now (Ok (line_said line.now)))
        (spot_of D.Device K.Sink (each standing stage.old.adapters.now.items) stage.old)
        (spot_of D.Device K.Sink (each standing stage.new.adapters.now.items) stage.new) result }
    ensures stays { StaysOn D.Device K.Sink (each standing stage.new.adapters.now.items) stage.old stage.new result }
{
    match line {
        LineRef::Blank => Ok(None),
        LineRef::BurstWrite {
            mem,
            first,
            values,
            map,
        } => write_burst(stage, mem, *first, values, map),
        LineRef::OnItem(item) => match item.item {
            Item::BurstRead => read_burst(stage, item),
            _ => operation(stage, line),
        },
        LineRef::Reset { .. } => operation(stage, line),
        LineRef::Seq { which, block } => sequence(stage, *which, block),
    }
}
