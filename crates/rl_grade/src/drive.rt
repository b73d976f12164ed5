// The tasks of a script on the device model, with each event handed to a recorder.
ghost use Rattle.std.specs.Prelude.{◌≡◌, ◌<◌, true, map, length, Some, IfSome};
ghost use Rattle.rl_grade.specs.Prelude.{Drives, DrivesAll, HasNumbers, IsReady, IsSameChip, JobFits, TasksFit};
ghost use Rattle.rl_grade.specs.Prelude.{bench_state, course_of, heard_by, is_single, op_course, sequence_course};
ghost use Rattle.rl_grade.specs.Prelude.{world};

use crate::job::{Job, Task};
use rl_access::{Model, Op, Recorder, Tally, burst_read, burst_write, perform};
use rl_bench::Bench;
use rl_bus::{Adapter, Adapters, Failed};
use rl_script::Sequence;
use rl_seq::{access_test, bit_bash, hw_reset, mem_walk, shared_access};

// Does one operation. Answers what it counted, as the others do.
fn do_one<R: Recorder>(
    model: &mut Model,
    bench: &mut Bench,
    adapters: &mut Adapters,
    op: Op,
    recorder: &mut R,
) -> Result<Tally, Failed>
    requires ready { IsReady model.old (map standing adapters.old.items) (Some (bench_state bench.old)) }
    requires numbers { HasNumbers model.old.chip (length model.old.layout.maps) op }
    requires single { is_single op ≡ true }
    ensures ready { IsReady model.new (map standing adapters.new.items) (Some (bench_state bench.new)) }
    ensures parts { IsSameChip model.old model.new }
    ensures drives { Drives R.takes R.breaks recorder.old recorder.new
        (op_course op (world model.old (map standing adapters.old.items) (bench_state bench.old)))
        model.new (map standing adapters.new.items) (Some (bench_state bench.new)) result }
{
    let mut tally = Tally::new();
    let event = perform(model, bench, adapters, op);
    recorder.step(model, &event)?;
    tally.count(&event);
    Ok(tally)
}

// Does a sequence over a block or the whole chip.
fn do_sequence<R: Recorder>(
    model: &mut Model,
    bench: &mut Bench,
    adapters: &mut Adapters,
    which: Sequence,
    block: Option<u32>,
    recorder: &mut R,
) -> Result<Tally, Failed>
    requires ready { IsReady model.old (map standing adapters.old.items) (Some (bench_state bench.old)) }
    requires block { IfSome block (λ b. b < model.old.chip.blocks) }
    ensures ready { IsReady model.new (map standing adapters.new.items) (Some (bench_state bench.new)) }
    ensures parts { IsSameChip model.old model.new }
    ensures drives { Drives R.takes R.breaks recorder.old recorder.new
        (sequence_course which block (world model.old (map standing adapters.old.items) (bench_state bench.old)))
        model.new (map standing adapters.new.items) (Some (bench_state bench.new)) result }
{
    match which {
        Sequence::HwReset => hw_reset(model, bench, adapters, block, recorder),
        Sequence::BitBash => bit_bash(model, bench, adapters, block, recorder),
        Sequence::Access => access_test(model, bench, adapters, block, recorder),
        Sequence::Shared => shared_access(model, bench, adapters, block, recorder),
        Sequence::MemWalk => mem_walk(model, bench, adapters, block, recorder),
    }
}

/// Does what a line asks for.
pub(crate) fn do_job<R: Recorder>(
    model: &mut Model,
    bench: &mut Bench,
    adapters: &mut Adapters,
    job: &Job,
    recorder: &mut R,
) -> Result<Tally, Failed>
    requires ready { IsReady model.old (map standing adapters.old.items) (Some (bench_state bench.old)) }
    requires fits { JobFits model.old.chip (length model.old.layout.maps) job.now }
    ensures ready { IsReady model.new (map standing adapters.new.items) (Some (bench_state bench.new)) }
    ensures parts { IsSameChip model.old model.new }
    ensures drives { Drives R.takes R.breaks recorder.old recorder.new
        (course_of job.now (world model.old (map standing adapters.old.items) (bench_state bench.old)))
        model.new (map standing adapters.new.items) (Some (bench_state bench.new)) result }
{
    match job {
        Job::One { op } => do_one(model, bench, adapters, *op, recorder),
        Job::BurstWrite {
            mem,
            map,
            first,
            values,
        } => {
            let values = values.items();
            burst_write(model, bench, adapters, *mem, *map, *first, values, recorder)
        }
        Job::BurstRead {
            mem,
            map,
            first,
            count,
        } => burst_read(model, bench, adapters, *mem, *map, *first, *count, recorder),
        Job::Sequence { which, block } => {
            do_sequence(model, bench, adapters, *which, *block, recorder)
        }
    }
}

/// Does these tasks one after another, up to the event at which the recorder fails: then the answer is its line.
pub(crate) fn do_tasks<R: Recorder>(
    model: &mut Model,
    bench: &mut Bench,
    adapters: &mut Adapters,
    tasks: &[Task],
    recorder: &mut R,
) -> Result<(), u64>
    requires ready { IsReady model.old (map standing adapters.old.items) (Some (bench_state bench.old)) }
    requires fits { TasksFit model.old.chip (length model.old.layout.maps) tasks.now }
    ensures ready { IsReady model.new (map standing adapters.new.items) (Some (bench_state bench.new)) }
    ensures parts { IsSameChip model.old model.new }
    ensures drives { DrivesAll R.takes R.breaks recorder.old recorder.new
        (heard_by (world model.old (map standing adapters.old.items) (bench_state bench.old)) tasks.now) result }
{
    for task in tasks {
        if do_job(model, bench, adapters, &task.job, recorder).is_err() {
            return Err(task.line);
        }
    }
    Ok(())
}
