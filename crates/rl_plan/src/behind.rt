// The lines of items as tasks behind those of a script, and what the device without a flaw shows by all of them.
ghost use Rattle.std.specs.Prelude.{◌≡◌, ◌++◌, [], All, IfOk, OnOk, flat_map, length, map};
ghost use Rattle.rl_model.specs.Chip.{HasItem};
ghost use Rattle.rl_grade.specs.Prelude.{IsBuiltWith, TasksFit, all_seen, fresh_standings, items_from};
ghost use Rattle.rl_plan.specs.Behind.{added_task, behind, lines_tasks, part_ops, part_tasks, walk_tasks};
ghost use Rattle.rl_plan.specs.Needed.{heard_of};
ghost use Rattle.rl_plan.specs.Run.{desc_of, model_of};
ghost use Rattle.rl_plan.specs.Trial.{CanTry};

use crate::asked::Asked;
use crate::lines::{Part, has_memory};
use crate::plan::{planned_for, planned_further, planned_in};
use rl_access::{Model, Op};
use rl_apb::fresh_adapters;
use rl_bus::{Adapter, Adapters};
use rl_desc::Desc;
use rl_grade::{Job, Shown, Task, show};
use rl_model::Item;
use rl_script::Sequence;
use rl_session::{model_of, open};
use std::alloc::{AllocError, Global};

// The number of a line that is none of the script's, which count from 1.
pub(crate) const ADDED: u64 = 0;

// What tasks show, and the description again.
#[derive(Drop)]
pub(crate) struct Showing {
    pub(crate) desc: Desc,
    pub(crate) shown: Shown,
}

// A model's chip and layout, without a flaw.
pub(crate) fn unflawed_desc(alloc: Global, model: Model) -> Desc
    ensures desc { result ≡ desc_of model }
    ensures built_with { IsBuiltWith result.layout result.chip }
{
    let (chip, layout) = model.into_parts();
    Desc {
        chip,
        layout,
        flaws: Vec::new(alloc),
    }
}

// Appends operations, each as a task.
fn push_ops(tasks: &mut Vec<Task>, ops: &[Op]) -> Result<(), AllocError>
    ensures { OnOk result (tasks.new.items ≡ tasks.old.items ++ map added_task ops.now) }
{
    for op in ops {
        tasks.push(Task {
            line: ADDED,
            job: Job::One { op: *op },
        })?;
    }
    Ok(())
}

// The operations of an item in a part of the lines.
fn part_ops(
    alloc: Global,
    model: &Model,
    asked: Asked,
    part: Part,
    item: Item,
) -> Result<Vec<Op>, AllocError>
    requires { HasItem model.now.chip item }
    ensures { IfOk result (λ ops. ops.items ≡ part_ops model.now asked part item) }
{
    match (part, item) {
        (Part::First, Item::Reg(reg)) => planned_for(alloc, model, asked, reg),
        (Part::Further, Item::Reg(reg)) => planned_further(alloc, model, asked, reg),
        (Part::Memory, Item::Mem(mem)) => planned_in(alloc, model, mem),
        _ => Ok(Vec::new(alloc)),
    }
}

// Appends what a part of the lines asks for.
fn push_part(
    alloc: Global,
    model: &Model,
    asked: Asked,
    part: Part,
    items: &[Item],
    tasks: &mut Vec<Task>,
) -> Result<(), AllocError>
    requires { All (HasItem model.now.chip) items.now }
    ensures { OnOk result (tasks.new.items ≡ tasks.old.items ++ flat_map (part_tasks model.now asked part) items.now) }
{
    for item in items {
        let ops = part_ops(alloc, model, asked, part, *item)?;
        push_ops(tasks, &ops)?;
    }
    Ok(())
}

// Appends the walk over all memories, where one of the items is a memory.
fn push_walk(tasks: &mut Vec<Task>, items: &[Item]) -> Result<(), AllocError>
    ensures { OnOk result (tasks.new.items ≡ tasks.old.items ++ walk_tasks items.now) }
{
    if has_memory(items) {
        tasks.push(Task {
            line: ADDED,
            job: Job::Sequence {
                which: Sequence::MemWalk,
                block: None,
            },
        })?;
    }
    Ok(())
}

// Appends what the lines for some items ask for, in the order of their text.
#[tactic(auto, unfolding(crate::specs::Behind::lines_tasks))]
fn push_tasks(
    alloc: Global,
    model: &Model,
    asked: Asked,
    items: &[Item],
    tasks: &mut Vec<Task>,
) -> Result<(), AllocError>
    requires { All (HasItem model.now.chip) items.now }
    ensures { OnOk result (tasks.new.items ≡ tasks.old.items ++ lines_tasks model.now asked items.now) }
{
    push_part(alloc, model, asked, Part::First, items, tasks)?;
    push_part(alloc, model, asked, Part::Further, items, tasks)?;
    push_walk(tasks, items)?;
    push_part(alloc, model, asked, Part::Memory, items, tasks)
}

// Appends the lines for some items of a description to the tasks of its script. The description comes back.
pub(crate) fn push_lines(
    alloc: Global,
    asked: Asked,
    desc: Desc,
    items: &[Item],
    tasks: &mut Vec<Task>,
) -> Result<Desc, AllocError>
    requires built_with { IsBuiltWith desc.layout desc.chip }
    requires none { desc.flaws ≡ [] }
    requires items { All (HasItem desc.chip) items.now }
    requires fits { TasksFit desc.chip (length desc.layout.maps) tasks.old.items }
    ensures desc { IfOk result (λ again. again ≡ desc) }
    ensures tasks { OnOk result (tasks.new.items ≡ behind desc asked tasks.old.items items.now) }
    ensures fits { OnOk result (TasksFit desc.chip (length desc.layout.maps) tasks.new.items) }
{
    let model = model_of(alloc, desc)?;
    push_tasks(alloc, &model, asked, items, tasks)?;
    Ok(unflawed_desc(alloc, model))
}

// What tasks show from the first state of a description without flaws, over adapters that have sent nothing.
fn show_over(
    alloc: Global,
    desc: Desc,
    tasks: &[Task],
    adapters: &mut Adapters,
) -> Result<Showing, AllocError>
    requires can_try { CanTry desc tasks.now }
    requires none { desc.flaws ≡ [] }
    requires fresh { map standing adapters.old.items ≡ fresh_standings }
    ensures desc { IfOk result (λ showing. showing.desc ≡ desc) }
    ensures seen { IfOk result (λ showing. showing.shown.seen.items ≡ all_seen (heard_of desc tasks.now)) }
    ensures items { IfOk result (λ showing. showing.shown.items ≡ items_from 0 (heard_of desc tasks.now)) }
{
    let (mut model, mut bench) = open(alloc, desc)?;
    let shown = show(alloc, &mut model, &mut bench, adapters, tasks)?;
    Ok(Showing {
        desc: unflawed_desc(alloc, model),
        shown,
    })
}

// What tasks show from the first state of a description without flaws, as by a program that was just started.
pub(crate) fn show_afresh(alloc: Global, desc: Desc, tasks: &[Task]) -> Result<Showing, AllocError>
    requires can_try { CanTry desc tasks.now }
    requires none { desc.flaws ≡ [] }
    ensures desc { IfOk result (λ showing. showing.desc ≡ desc) }
    ensures seen { IfOk result (λ showing. showing.shown.seen.items ≡ all_seen (heard_of desc tasks.now)) }
    ensures items { IfOk result (λ showing. showing.shown.items ≡ items_from 0 (heard_of desc tasks.now)) }
{
    let (plain, apb) = fresh_adapters();
    let mut adapters: Adapters = Vec::new(alloc);
    adapters.push(Box::new(alloc, plain)?)?;
    adapters.push(Box::new(alloc, apb)?)?;
    show_over(alloc, desc, tasks, &mut adapters)
}
