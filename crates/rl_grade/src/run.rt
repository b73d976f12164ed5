// A script on the device without a flaw, and on one with a flaw.
ghost use Rattle.std.specs.Prelude.{◌≡◌, map, length, Some, IfOk};
ghost use Rattle.rl_grade.specs.Prelude.{IsBuiltWith, IsFlawOf, IsReady, IsSameChip, TasksFit, all_seen, bench_state};
ghost use Rattle.rl_grade.specs.Prelude.{first_find, first_world, heard_by, items_from, kinds_of, with_flaw, world};

use crate::drive::do_tasks;
use crate::job::Task;
use crate::recorders::{Keep, Watch};
use crate::seen::{Find, Seen};
use crate::trial::begin;
use rl_access::Model;
use rl_bench::{Bench, Flaw};
use rl_bus::{Adapter, Adapters};
use rl_desc::Desc;
use std::alloc::{AllocError, Global};

/// What a script shows without the flaw that is asked for.
#[derive(Drop)]
pub struct Shown {
    /// What each event shows, in order.
    pub seen: Vec<Seen>,
    /// How many bus items were sent.
    pub items: u64,
}

/// Runs tasks from the state of a model and its device, and keeps what each event shows.
///
/// # Errors
///
/// Want of memory.
pub fn show(
    alloc: Global,
    model: &mut Model,
    bench: &mut Bench,
    adapters: &mut Adapters,
    tasks: &[Task],
) -> Result<Shown, AllocError>
    requires ready { IsReady model.old (map standing adapters.old.items) (Some (bench_state bench.old)) }
    requires fits { TasksFit model.old.chip (length model.old.layout.maps) tasks.now }
    ensures ready { IsReady model.new (map standing adapters.new.items) (Some (bench_state bench.new)) }
    ensures parts { IsSameChip model.old model.new }
    ensures seen { IfOk result (λ shown. shown.seen.items ≡ all_seen
        (heard_by (world model.old (map standing adapters.old.items) (bench_state bench.old)) tasks.now)) }
    ensures items { IfOk result (λ shown. shown.items ≡ items_from 0
        (heard_by (world model.old (map standing adapters.old.items) (bench_state bench.old)) tasks.now)) }
{
    let mut keep = Keep {
        seen: Vec::new(alloc),
        items: 0,
        is_full: false,
    };
    match do_tasks(model, bench, adapters, tasks, &mut keep) {
        Ok(()) => Ok(Shown {
            seen: keep.seen,
            items: keep.items,
        }),
        Err(_) => Err(AllocError),
    }
}

// Runs tasks up to the first event that shows more than the one of its number in `base`.
fn watch_tasks(
    model: &mut Model,
    bench: &mut Bench,
    adapters: &mut Adapters,
    tasks: &[Task],
    base: &[Seen],
) -> Option<Find>
    requires ready { IsReady model.old (map standing adapters.old.items) (Some (bench_state bench.old)) }
    requires fits { TasksFit model.old.chip (length model.old.layout.maps) tasks.now }
    ensures ready { IsReady model.new (map standing adapters.new.items) (Some (bench_state bench.new)) }
    ensures parts { IsSameChip model.old model.new }
    ensures found { result ≡ first_find base.now
        (heard_by (world model.old (map standing adapters.old.items) (bench_state bench.old)) tasks.now) }
{
    let mut watch = Watch { base, found: None };
    match do_tasks(model, bench, adapters, tasks, &mut watch) {
        Ok(()) => None,
        Err(line) => match watch.found {
            Some((op, new)) => Some(Find { line, op, new }),
            None => None,
        },
    }
}

/// A flaw that was tried.
#[derive(Drop)]
pub struct Tried {
    /// The description again.
    pub desc: Desc,
    /// The first event that shows more with the flaw than without it.
    pub found: Option<Find>,
}

/// Tries one flaw. It runs tasks from the first state of a description with this flaw and no other, up to the first
/// event that shows more than the one of its number in `base`, which a run without the flaw showed.
///
/// # Errors
///
/// Want of memory.
pub fn try_flaw(
    alloc: Global,
    desc: Desc,
    flaw: Flaw,
    adapters: &mut Adapters,
    tasks: &[Task],
    base: &[Seen],
) -> Result<Tried, AllocError>
    requires built_with { IsBuiltWith desc.layout desc.chip }
    requires flaw { IsFlawOf desc.chip desc.layout flaw }
    requires kinds { desc.layout.kinds ≡ kinds_of (map standing adapters.old.items) }
    requires fits { TasksFit desc.chip (length desc.layout.maps) tasks.now }
    ensures kinds { kinds_of (map standing adapters.new.items) ≡ kinds_of (map standing adapters.old.items) }
    ensures desc { IfOk result (λ tried. tried.desc ≡ desc) }
    ensures found { IfOk result (λ tried. tried.found ≡ first_find base.now
        (heard_by (first_world (with_flaw desc flaw) (map standing adapters.old.items)) tasks.now)) }
{
    let mut trial = begin(alloc, desc, &[flaw])?;
    let found = watch_tasks(&mut trial.model, &mut trial.bench, adapters, tasks, base);
    Ok(Tried {
        desc: trial.end(),
        found,
    })
}
