// A script on a device with flaws of several registers at once.
ghost use Rattle.std.specs.Prelude.{◌≡◌, All, map, length, Some, IfOk};
ghost use Rattle.rl_grade.specs.Prelude.{IsBuiltWith, IsFlawOf, IsReady, IsSameChip, TasksFit, bench_state};
ghost use Rattle.rl_grade.specs.Prelude.{first_world, fresh_standings, heard_by, kinds_of, world};
ghost use Rattle.rl_grade.specs.Sorted.{AreSorted, IsBlank, find_here};
ghost use Rattle.rl_grade.specs.Together.{IsSoundDesc, with_flaws};

use crate::drive::do_job;
use crate::job::Task;
use crate::recorders::{behind, front};
use crate::register::{blank, keep_find, register_of};
use crate::seen::{Find, Seen};
use crate::trial::begin;
use rl_access::{Event, Model, Recorder};
use rl_apb::fresh_adapters;
use rl_bench::{Bench, Flaw};
use rl_bus::{Adapter, Adapters, Failed};
use rl_desc::Desc;
use std::alloc::{AllocError, Global};

// Keeps the first event of each register that shows more than the one of its number without the flaws.
#[derive(Drop)]
struct Sort<'a> {
    // What the events that are still to come show without the flaws.
    base: &'a [Seen],
    // The number of the line that is done.
    line: u64,
    // By the register's number.
    found: Vec<Option<Find>>,
}

// The find that an event of a line is, if it shows more than the first of these.
fn find_here(line: u64, base: &[Seen], event: &Event) -> Option<Find>
    ensures { result ≡ find_here line base.now event.now }
{
    let new = Seen::of(event).beside(front(base));
    if new.shows() {
        Some(Find {
            line,
            op: event.op,
            new,
        })
    } else {
        None
    }
}

impl Recorder for Sort<'_> {
    ghost use Rattle.rl_grade.specs.Sorted.{Sorts};

    // It never fails.
    ghost faults = { λ s. 0 };

    ghost takes = { λ old model event new. Sorts model.chip old.line old.base.now old.found.items event
        new.line new.base.now new.found.items };

    ghost breaks = { λ old model event new. ⊥ };

    fn step(&mut self, model: &Model, event: &Event) -> Result<(), Failed> {
        let find = find_here(self.line, self.base, event);
        keep_find(&mut self.found, register_of(model, event.op), find);
        self.base = behind(self.base);
        Ok(())
    }
}

/// What a run with flaws of several registers found.
#[derive(Drop)]
pub(crate) struct Sorted {
    /// The description again.
    pub(crate) desc: Desc,
    /// By the register's number: the first event of it that shows more than without the flaws.
    pub(crate) found: Vec<Option<Find>>,
}

// Does tasks whole, and finds the first event of each register that shows more than the one of its number in `base`.
fn sort_tasks(
    model: &mut Model,
    bench: &mut Bench,
    adapters: &mut Adapters,
    tasks: &[Task],
    base: &[Seen],
    found: Vec<Option<Find>>,
) -> Result<Vec<Option<Find>>, AllocError>
    requires ready { IsReady model.old (map standing adapters.old.items) (Some (bench_state bench.old)) }
    requires fits { TasksFit model.old.chip (length model.old.layout.maps) tasks.now }
    requires blank { IsBlank (length model.old.chip.regs) found.items }
    ensures ready { IsReady model.new (map standing adapters.new.items) (Some (bench_state bench.new)) }
    ensures parts { IsSameChip model.old model.new }
    ensures found { IfOk result (λ found. AreSorted model.old.chip (length model.old.chip.regs) base.now
        (heard_by (world model.old (map standing adapters.old.items) (bench_state bench.old)) tasks.now) found.items) }
{
    let mut sort = Sort {
        base,
        line: 0,
        found,
    };
    for task in tasks {
        sort.line = task.line;
        if do_job(model, bench, adapters, &task.job, &mut sort).is_err() {
            return Err(AllocError);
        }
    }
    Ok(sort.found)
}

// Tries flaws at once: runs tasks from the first state of a description with these flaws and no others, and finds the
// first event of each register that shows more than the one of its number in `base`.
fn try_flaws(
    alloc: Global,
    desc: Desc,
    flaws: &[Flaw],
    adapters: &mut Adapters,
    tasks: &[Task],
    base: &[Seen],
) -> Result<Sorted, AllocError>
    requires built_with { IsBuiltWith desc.layout desc.chip }
    requires flaws { All (IsFlawOf desc.chip desc.layout) flaws.now }
    requires kinds { desc.layout.kinds ≡ kinds_of (map standing adapters.old.items) }
    requires fits { TasksFit desc.chip (length desc.layout.maps) tasks.now }
    ensures kinds { kinds_of (map standing adapters.new.items) ≡ kinds_of (map standing adapters.old.items) }
    ensures desc { IfOk result (λ sorted. sorted.desc ≡ desc) }
    ensures sound { IfOk result (λ sorted. IsSoundDesc desc) }
    ensures found { IfOk result (λ sorted. AreSorted desc.chip (length desc.chip.regs) base.now
        (heard_by (first_world (with_flaws desc flaws.now) (map standing adapters.old.items)) tasks.now)
        sorted.found.items) }
{
    let found = blank(alloc, desc.chip.regs() as usize)?;
    let mut trial = begin(alloc, desc, flaws)?;
    let found = sort_tasks(
        &mut trial.model,
        &mut trial.bench,
        adapters,
        tasks,
        base,
        found,
    )?;
    Ok(Sorted {
        desc: trial.end(),
        found,
    })
}

/// Tries flaws at once over a plain and an APB adapter that have sent nothing. They are made here, since an
/// adapter that is handed out has no proof.
///
/// # Errors
///
/// Want of memory.
pub(crate) fn try_flaws_afresh(
    alloc: Global,
    desc: Desc,
    flaws: &[Flaw],
    tasks: &[Task],
    base: &[Seen],
) -> Result<Sorted, AllocError>
    requires built_with { IsBuiltWith desc.layout desc.chip }
    requires flaws { All (IsFlawOf desc.chip desc.layout) flaws.now }
    requires kinds { desc.layout.kinds ≡ kinds_of fresh_standings }
    requires fits { TasksFit desc.chip (length desc.layout.maps) tasks.now }
    ensures desc { IfOk result (λ sorted. sorted.desc ≡ desc) }
    ensures sound { IfOk result (λ sorted. IsSoundDesc desc) }
    ensures found { IfOk result (λ sorted. AreSorted desc.chip (length desc.chip.regs) base.now
        (heard_by (first_world (with_flaws desc flaws.now) fresh_standings) tasks.now) sorted.found.items) }
{
    let (plain, apb) = fresh_adapters();
    let mut adapters: Adapters = Vec::new(alloc);
    adapters.push(Box::new(alloc, plain)?)?;
    adapters.push(Box::new(alloc, apb)?)?;
    try_flaws(alloc, desc, flaws, &mut adapters, tasks, base)
}
