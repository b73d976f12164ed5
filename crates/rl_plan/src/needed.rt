// Of which registers and memories a script needs the lines.
ghost use Rattle.std.specs.Prelude.{◌≡◌, ◌++◌, [], ◌∷◌, All, IfOk, OnOk, filter, if◌then◌else◌};
ghost use Rattle.std.specs.List.{list_any};
ghost use Rattle.rl_model.specs.Chip.{HasItem};
ghost use Rattle.rl_grade.specs.Prelude.{IsPlaceIn};
ghost use Rattle.rl_plan.specs.Needed.{finds_at, finds_in, is_first_in_added, is_needed};
ghost use Rattle.rl_plan.specs.Trial.{CanTry};

use crate::asked::Asked;
use crate::behind::{ADDED, Showing, push_lines, show_afresh};
use crate::places::places_of;
use rl_desc::Desc;
use rl_grade::{Graded, Place, Share, Shown, Task, grade_place};
use rl_model::Item;
use std::alloc::{AllocError, Global};

pub(crate) const ALL_FLAWS: Share = Share { first: 1, every: 1 };

// Whether what was asked of a description holds, and the description again.
#[derive(Drop)]
pub(crate) struct Answer {
    pub(crate) desc: Desc,
    pub(crate) holds: bool,
}

// Those items whose lines are needed, and the description again.
#[derive(Drop)]
pub(crate) struct Needs {
    pub(crate) desc: Desc,
    pub(crate) items: Vec<Item>,
}

// Whether the first event that shows the flaw is one of an added line.
fn is_first_in_added(graded: &Graded) -> bool
    ensures { result ≡ is_first_in_added graded.now }
{
    match graded.found {
        Some(find) => find.line == ADDED,
        None => false,
    }
}

fn has_first_in_added(graded: &[Graded]) -> bool
    ensures { result ≡ list_any is_first_in_added graded.now }
{
    graded.iter().any(|it| is_first_in_added(it))
}

// Whether added lines find a flaw of a place first.
fn ask_place(
    alloc: Global,
    desc: Desc,
    tasks: &[Task],
    shown: &Shown,
    place: Place,
) -> Result<Answer, AllocError>
    requires can_try { CanTry desc tasks.now }
    requires place { IsPlaceIn desc.chip place }
    ensures desc { IfOk result (λ answer. answer.desc ≡ desc) }
    ensures finds { IfOk result (λ answer.
        answer.holds ≡ finds_at desc tasks.now shown.now.seen.items shown.now.items place) }
{
    let grade = grade_place(alloc, desc, tasks, shown, place, 0, ALL_FLAWS)?;
    let holds = has_first_in_added(&grade.graded);
    Ok(Answer {
        desc: grade.desc,
        holds,
    })
}

// Whether added lines find a flaw of some of these places first.
fn ask_places(
    alloc: Global,
    mut desc: Desc,
    tasks: &[Task],
    shown: &Shown,
    places: &[Place],
) -> Result<Answer, AllocError>
    requires can_try { CanTry desc tasks.now }
    requires places { All (IsPlaceIn desc.chip) places.now }
    ensures desc { IfOk result (λ answer. answer.desc ≡ desc) }
    ensures finds { IfOk result (λ answer.
        answer.holds ≡ list_any (finds_at desc tasks.now shown.now.seen.items shown.now.items) places.now) }
{
    for place in places {
        let answer = ask_place(alloc, desc, tasks, shown, *place)?;
        if answer.holds {
            return Ok(answer);
        }
        desc = answer.desc;
    }
    Ok(Answer { desc, holds: false })
}

// Whether added lines find a flaw of some of these places first, among these tasks.
fn ask_tasks(
    alloc: Global,
    desc: Desc,
    tasks: &[Task],
    places: &[Place],
) -> Result<Answer, AllocError>
    requires can_try { CanTry desc tasks.now }
    requires none { desc.flaws ≡ [] }
    requires places { All (IsPlaceIn desc.chip) places.now }
    ensures desc { IfOk result (λ answer. answer.desc ≡ desc) }
    ensures finds { IfOk result (λ answer. answer.holds ≡ finds_in desc tasks.now places.now) }
{
    let Showing { desc, shown } = show_afresh(alloc, desc, tasks)?;
    ask_places(alloc, desc, tasks, &shown, places)
}

// Whether the lines of an item, put behind a script, find a flaw of it first. The script's tasks are as before, where
// memory doesn't run out.
fn ask_item(
    alloc: Global,
    asked: Asked,
    desc: Desc,
    script: &mut Vec<Task>,
    item: Item,
) -> Result<Answer, AllocError>
    requires can_try { CanTry desc script.old.items }
    requires none { desc.flaws ≡ [] }
    requires item { HasItem desc.chip item }
    ensures script { OnOk result (script.new.items ≡ script.old.items) }
    ensures desc { IfOk result (λ answer. answer.desc ≡ desc) }
    ensures finds { IfOk result (λ answer. answer.holds ≡ is_needed desc asked script.old.items item) }
{
    let own = script.len();
    let places = places_of(alloc, &desc.chip, item)?;
    let desc = push_lines(alloc, asked, desc, &[item], script)?;
    let answer = ask_tasks(alloc, desc, script, &places)?;
    script.truncate(own);
    Ok(answer)
}

// Appends an item where its lines are needed.
fn push_needed(items: &mut Vec<Item>, needed: bool, item: Item) -> Result<(), AllocError>
    ensures { OnOk result (items.new.items ≡ items.old.items ++ (if needed then item ∷ [] else [])) }
{
    if needed {
        items.push(item)?;
    }
    Ok(())
}

// Those of some items whose lines a script needs. The script's tasks are as before, where memory doesn't run out.
pub(crate) fn ask_items(
    alloc: Global,
    asked: Asked,
    mut desc: Desc,
    script: &mut Vec<Task>,
    items: &[Item],
) -> Result<Needs, AllocError>
    requires can_try { CanTry desc script.old.items }
    requires none { desc.flaws ≡ [] }
    requires items { All (HasItem desc.chip) items.now }
    ensures script { OnOk result (script.new.items ≡ script.old.items) }
    ensures desc { IfOk result (λ needs. needs.desc ≡ desc) }
    ensures items { IfOk result (λ needs.
        needs.items.items ≡ filter (is_needed desc asked script.old.items) items.now) }
{
    let mut needed = Vec::new(alloc);
    for item in items {
        let answer = ask_item(alloc, asked, desc, script, *item)?;
        push_needed(&mut needed, answer.holds, *item)?;
        desc = answer.desc;
    }
    Ok(Needs {
        desc,
        items: needed,
    })
}
