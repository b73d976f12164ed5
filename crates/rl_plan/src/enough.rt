// Whether the lines of some items find after a script what those of all items find there.
ghost use Rattle.std.specs.Prelude.{◌≡◌, [], All, IfOk, OnOk, if◌then◌else◌, map};
ghost use Rattle.std.specs.List.{list_any, zip};
ghost use Rattle.rl_model.specs.Chip.{HasItem};
ghost use Rattle.rl_plan.specs.Behind.{behind};
ghost use Rattle.rl_plan.specs.Enough.{added_items, all_flaws, answer, is_lost, miss};
ghost use Rattle.rl_plan.specs.Text.{items_of};
ghost use Rattle.rl_plan.specs.Trial.{CanTry};

use crate::asked::Asked;
use crate::behind::{Showing, push_lines, show_afresh};
use crate::lines::items_of;
use crate::needed::{ALL_FLAWS, Answer, Needs, ask_items};
use crate::places::all_places;
use rl_desc::Desc;
use rl_grade::law::shares_have_each_flaw_once;
use rl_grade::{Graded, Meter, Task, Tries, grade_together};
use rl_model::Item;
use std::alloc::{AllocError, Global};

// Nobody is shown how far it is.
#[derive(Drop)]
struct Unwatched {}

impl Meter for Unwatched {
    fn show(&mut self, _flaws: u64) {}
}

// Each flaw of a register, a memory or a field, with its answer by these tasks.
fn try_each(alloc: Global, desc: Desc, tasks: &[Task]) -> Result<Tries, AllocError>
    requires can_try { CanTry desc tasks.now }
    requires none { desc.flaws ≡ [] }
    ensures desc { IfOk result (λ tries. tries.desc ≡ desc) }
    ensures graded { IfOk result (λ tries. tries.graded.items ≡ map (answer desc tasks.now) (all_flaws desc)) }
{
    shares_have_each_flaw_once();
    let places = all_places(alloc, &desc.chip)?;
    let Showing { desc, shown } = show_afresh(alloc, desc, tasks)?;
    grade_together(
        alloc,
        desc,
        tasks,
        &shown,
        &places,
        ALL_FLAWS,
        &mut Unwatched {},
    )
}

// Each such flaw, with its answer by a script and the lines of some items behind it. The script's tasks are as before,
// where memory doesn't run out.
fn try_behind(
    alloc: Global,
    asked: Asked,
    desc: Desc,
    script: &mut Vec<Task>,
    items: &[Item],
) -> Result<Tries, AllocError>
    requires can_try { CanTry desc script.old.items }
    requires none { desc.flaws ≡ [] }
    requires items { All (HasItem desc.chip) items.now }
    ensures script { OnOk result (script.new.items ≡ script.old.items) }
    ensures desc { IfOk result (λ tries. tries.desc ≡ desc) }
    ensures graded { IfOk result (λ tries.
        tries.graded.items ≡ map (answer desc (behind desc asked script.old.items items.now)) (all_flaws desc)) }
{
    let own = script.len();
    let desc = push_lines(alloc, asked, desc, items, script)?;
    let tries = try_each(alloc, desc, script)?;
    script.truncate(own);
    Ok(tries)
}

fn is_lost(by_few: &Graded, by_all: &Graded) -> bool
    ensures { result ≡ is_lost by_few.now by_all.now }
{
    by_all.found.is_some() && by_few.found.is_none()
}

// Whether one of these flaws is found by the second of its answers and not by the first.
fn is_one_lost(by_few: &[Graded], by_all: &[Graded]) -> bool
    ensures { result ≡ list_any (λ both. is_lost both.0 both.1) (zip by_few.now by_all.now) }
{
    by_few
        .iter()
        .zip(by_all)
        .any(|(few, all)| is_lost(few, all))
}

// Whether the lines of some items miss a flaw after a script which those of all items find there.
fn miss(
    alloc: Global,
    asked: Asked,
    desc: Desc,
    script: &mut Vec<Task>,
    few: &[Item],
    all: &[Item],
) -> Result<Answer, AllocError>
    requires can_try { CanTry desc script.old.items }
    requires none { desc.flaws ≡ [] }
    requires few { All (HasItem desc.chip) few.now }
    requires all { All (HasItem desc.chip) all.now }
    requires each { all.now ≡ items_of desc.chip }
    ensures desc { IfOk result (λ answer. answer.desc ≡ desc) }
    ensures missed { IfOk result (λ answer. answer.holds ≡ miss desc asked script.old.items few.now) }
{
    let by_few = try_behind(alloc, asked, desc, script, few)?;
    let by_all = try_behind(alloc, asked, by_few.desc, script, all)?;
    let holds = is_one_lost(&by_few.graded, &by_all.graded);
    Ok(Answer {
        desc: by_all.desc,
        holds,
    })
}

// All items where the lines of a few miss a flaw, else the few.
fn all_or_few(missed: bool, all: Vec<Item>, few: Vec<Item>) -> Vec<Item>
    ensures { result.items ≡ (if missed then all.items else few.items) }
{
    if missed { all } else { few }
}

// Those registers and memories of a description whose lines are added to a script of these tasks.
pub(crate) fn added_items(
    alloc: Global,
    asked: Asked,
    desc: Desc,
    mut script: Vec<Task>,
) -> Result<Needs, AllocError>
    requires can_try { CanTry desc script.items }
    requires none { desc.flaws ≡ [] }
    ensures desc { IfOk result (λ needs. needs.desc ≡ desc) }
    ensures items { IfOk result (λ needs. needs.items.items ≡ added_items desc asked script.items) }
    ensures each { IfOk result (λ needs. All (HasItem desc.chip) needs.items.items) }
{
    let all = items_of(alloc, &desc.chip)?;
    let Needs { desc, items: few } = ask_items(alloc, asked, desc, &mut script, &all)?;
    let Answer {
        desc,
        holds: missed,
    } = miss(alloc, asked, desc, &mut script, &few, &all)?;
    let items = all_or_few(missed, all, few);
    Ok(Needs { desc, items })
}
