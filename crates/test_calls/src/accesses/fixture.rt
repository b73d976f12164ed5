// Adapters, what a description describes, and what is done with it.
ghost use Rattle.std.specs.Prelude.{◌<◌, ◌^◌, IfOk, Some, length, map};
ghost use Rattle.rl_access.specs.Model.{IsReady};
ghost use Rattle.rl_bench.specs.State.{bench_state};

use crate::accesses::each::all_made;
use crate::accesses::indexed::{Case, banks_built, items_seen, run};
use crate::accesses::regions::regions_accessed;
use crate::accesses::stand::Stand;
use rl_access::Model;
use rl_bench::Bench;
use rl_bus::{Adapter, Adapters, PlainAdapter};
use rl_session::{described, open};
use std::alloc::{AllocError, AllocGlobal, Global};
use std::process::Abort;
use std::test::Fail;

const PLAIN: PlainAdapter = PlainAdapter {
    next_tag: 0,
    trail: 0,
};

// One plain adapter.
fn plain_adapter(alloc: Global) -> Result<Adapters, AllocError>
    ensures { IfOk result (λ adapters. length (map standing adapters.items) < 2 ^ 32) }
{
    let mut adapters: Adapters = Vec::new(alloc);
    adapters.push(Box::new(alloc, PLAIN)?)?;
    Ok(adapters)
}

// The model and the device of a description.
fn opened(alloc: Global, adapters: &Adapters, text: &str) -> Result<(Model, Bench), Fail>
    requires { length (map standing adapters.now.items) < 2 ^ 32 }
    ensures { IfOk result (λ opened.
        IsReady opened.0 (map standing adapters.now.items) (Some (bench_state opened.1))) }
{
    let desc = described(alloc, text.as_bytes(), adapters)?;
    Ok(open(alloc, desc)?)
}

/// What is done over a chip.
#[derive(Drop)]
pub(crate) enum Task {
    /// Calls of one operation each.
    Call,
    /// Accesses by index.
    Index(&'static Case),
    /// An access by index, item by item.
    IndexItems,
    /// Banks are built.
    Banks,
    /// Regions are given out and accessed.
    Regions,
}

fn perform(
    rt: &(impl Abort + AllocGlobal),
    task: &Task,
    on: &mut Stand<'_, Bench>,
) -> Result<(), Fail>
    requires { IsReady on.old.model.now (map standing on.old.adapters.now.items)
        (Some (bench_state on.old.device.now)) }
{
    match task {
        Task::Call => all_made(rt, on),
        Task::Index(case) => run(rt, on, case),
        Task::IndexItems => items_seen(rt, on),
        Task::Banks => banks_built(rt, on.model, on.device),
        Task::Regions => regions_accessed(rt, on),
    }
}

fn performed_with(
    rt: &(impl Abort + AllocGlobal),
    text: &str,
    task: &Task,
    adapters: &mut Adapters,
) -> Result<(), Fail>
    requires { length (map standing adapters.old.items) < 2 ^ 32 }
{
    let (mut model, mut device) = opened(rt.alloc(), adapters, text)?;
    let mut on = Stand {
        model: &mut model,
        device: &mut device,
        adapters,
    };
    perform(rt, task, &mut on)
}

/// Does a task over the chip of a description and a plain adapter.
pub(crate) fn performed(
    rt: &(impl Abort + AllocGlobal),
    text: &str,
    task: &Task,
) -> Result<(), Fail> {
    let mut adapters = plain_adapter(rt.alloc())?;
    performed_with(rt, text, task, &mut adapters)
}
