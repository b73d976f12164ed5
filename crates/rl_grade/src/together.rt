// The flaws of places, those of different registers tried at once.
ghost use Rattle.std.specs.Prelude.{◌≡◌, ◌<◌, ◌++◌, All, None, OnOk, IfOk, IfSome, length, map, slice_index_or};
ghost use Rattle.rl_grade.specs.Batch.{AreAnswers, AreKnown, IsShown, flaws_of_places};
ghost use Rattle.rl_grade.specs.Prelude.{IsBuiltWith, IsFlawOf, IsPlaceIn, TasksFit, flaws_at, fresh_standings};
ghost use Rattle.rl_grade.specs.Prelude.{graded_by, grades_of, kinds_of};
ghost use Rattle.rl_grade.specs.Share.{share_of};

use crate::batch::{batch_of, choose, keep_answers};
use crate::grade::{Graded, Share, Tries, push_answer};
use crate::job::Task;
use crate::meter::Meter;
use crate::place::{Place, flaws_at};
use crate::register::blank;
use crate::run::Shown;
use crate::sort::try_flaws_afresh;
use rl_bench::Flaw;
use rl_desc::Desc;
use std::alloc::{AllocError, Global};

// ---- the flaws

// Appends those flaws of a share that stand in a list, behind so many others.
fn push_share(
    all: &mut Vec<Flaw>,
    flaws: &[Flaw],
    before: u64,
    share: Share,
) -> Result<(), AllocError>
    requires { 0 < share.every }
    ensures { OnOk result (all.new.items ≡ all.old.items ++ share_of share before flaws.now) }
{
    let mut number = u128::from(before);
    for flaw in flaws {
        number += 1;
        if share.takes(number) {
            all.push(*flaw)?;
        }
    }
    Ok(())
}

// Appends the flaws of a place.
fn push_place(
    alloc: Global,
    all: &mut Vec<Flaw>,
    desc: &Desc,
    items: u64,
    place: Place,
) -> Result<(), AllocError>
    requires { IsPlaceIn desc.now.chip place }
    ensures flaws { OnOk result (all.new.items ≡ all.old.items ++ flaws_at desc.now items place) }
    ensures each { OnOk result (All (IsFlawOf desc.now.chip desc.now.layout) (flaws_at desc.now items place)) }
{
    let flaws = flaws_at(alloc, desc, items, place)?;
    all.extend_from_slice(&flaws)
}

// The flaws of places that are of a share.
fn flaws_in_share(
    alloc: Global,
    desc: &Desc,
    items: u64,
    places: &[Place],
    share: Share,
) -> Result<Vec<Flaw>, AllocError>
    requires places { All (IsPlaceIn desc.now.chip) places.now }
    requires every { 0 < share.every }
    ensures flaws { IfOk result (λ flaws. flaws.items ≡ share_of share 0 (flaws_of_places desc.now items places.now)) }
    ensures each { IfOk result (λ flaws. All (IsFlawOf desc.now.chip desc.now.layout) flaws.items) }
{
    let mut all = Vec::new(alloc);
    for place in places {
        push_place(alloc, &mut all, desc, items, *place)?;
    }
    let mut flaws = Vec::new(alloc);
    push_share(&mut flaws, &all, 0, share)?;
    Ok(flaws)
}

// ---- several at once

// Flaws with the answers that are known, and the description again.
#[derive(Drop)]
struct Rounds {
    desc: Desc,
    // By the flaws' numbers.
    known: Vec<Option<Graded>>,
    // How many were tried.
    tried: u64,
}

// Tries of each register one flaw that has no answer yet, all of them at once.
fn try_round(
    alloc: Global,
    rounds: Rounds,
    flaws: &[Flaw],
    tasks: &[Task],
    shown: &Shown,
) -> Result<Rounds, AllocError>
    requires built_with { IsBuiltWith rounds.desc.layout rounds.desc.chip }
    requires kinds { rounds.desc.layout.kinds ≡ kinds_of fresh_standings }
    requires fits { TasksFit rounds.desc.chip (length rounds.desc.layout.maps) tasks.now }
    requires flaws { All (IsFlawOf rounds.desc.chip rounds.desc.layout) flaws.now }
    requires shown { IsShown rounds.desc tasks.now shown.now.seen.items }
    requires known { AreKnown rounds.desc tasks.now shown.now.seen.items flaws.now rounds.known.items }
    ensures desc { IfOk result (λ more. more.desc ≡ rounds.desc) }
    ensures known { IfOk result (λ more.
        AreKnown rounds.desc tasks.now shown.now.seen.items flaws.now more.known.items) }
{
    let Rounds {
        desc,
        mut known,
        tried,
    } = rounds;
    let chosen = choose(alloc, &desc.chip, flaws, &known)?;
    let batch = batch_of(alloc, flaws, &chosen)?;
    let tried_now = batch.len();
    // A flaw that is left alone is tried by itself: this ends at its find.
    if tried_now < 2 {
        return Ok(Rounds { desc, known, tried });
    }
    let sorted = try_flaws_afresh(alloc, desc, &batch, tasks, &shown.seen)?;
    keep_answers(&mut known, flaws, &chosen, &sorted.found);
    Ok(Rounds {
        desc: sorted.desc,
        known,
        tried: tried.saturating_add(tried_now as u64),
    })
}

// Tries flaws of different registers at once, as long as there are several.
fn try_rounds<M: Meter>(
    alloc: Global,
    desc: Desc,
    flaws: &[Flaw],
    tasks: &[Task],
    shown: &Shown,
    meter: &mut M,
) -> Result<Rounds, AllocError>
    requires built_with { IsBuiltWith desc.layout desc.chip }
    requires kinds { desc.layout.kinds ≡ kinds_of fresh_standings }
    requires fits { TasksFit desc.chip (length desc.layout.maps) tasks.now }
    requires flaws { All (IsFlawOf desc.chip desc.layout) flaws.now }
    requires shown { IsShown desc tasks.now shown.now.seen.items }
    ensures desc { IfOk result (λ rounds. rounds.desc ≡ desc) }
    ensures known { IfOk result (λ rounds.
        AreKnown desc tasks.now shown.now.seen.items flaws.now rounds.known.items) }
{
    let known = blank(alloc, flaws.len())?;
    let mut rounds = Rounds {
        desc,
        known,
        tried: 0,
    };
    for _ in 0..flaws.len() {
        let before = rounds.tried;
        rounds = try_round(alloc, rounds, flaws, tasks, shown)?;
        if rounds.tried == before {
            return Ok(rounds);
        }
        meter.show(rounds.tried);
    }
    Ok(rounds)
}

// ---- the answers

// The answer of that number, where it is known.
fn known_at(known: &[Option<Graded>], number: usize) -> Option<Graded>
    ensures { result ≡ slice_index_or known.now number None }
{
    if number < known.len() {
        known[number]
    } else {
        None
    }
}

// How many were tried, with one more where its answer isn't known.
fn with_one(tried: u64, known: Option<Graded>) -> u64 {
    match known {
        Some(_) => tried,
        None => tried.saturating_add(1),
    }
}

// The answers of all flaws, of those that aren't known by runs with them alone.
fn answer_all<M: Meter>(
    alloc: Global,
    rounds: Rounds,
    flaws: &[Flaw],
    tasks: &[Task],
    shown: &Shown,
    meter: &mut M,
) -> Result<Tries, AllocError>
    requires built_with { IsBuiltWith rounds.desc.layout rounds.desc.chip }
    requires kinds { rounds.desc.layout.kinds ≡ kinds_of fresh_standings }
    requires fits { TasksFit rounds.desc.chip (length rounds.desc.layout.maps) tasks.now }
    requires flaws { All (IsFlawOf rounds.desc.chip rounds.desc.layout) flaws.now }
    requires known { AreKnown rounds.desc tasks.now shown.now.seen.items flaws.now rounds.known.items }
    ensures desc { IfOk result (λ tries. tries.desc ≡ rounds.desc) }
    ensures graded { IfOk result (λ tries.
        tries.graded.items ≡ map (graded_by rounds.desc tasks.now shown.now.seen.items) flaws.now) }
{
    let Rounds {
        desc,
        known,
        mut tried,
    } = rounds;
    let mut tries = Tries {
        desc,
        graded: Vec::new(alloc),
    };
    for number in 0..flaws.len() {
        let it = known_at(&known, number);
        tries = push_answer(alloc, tries, flaws[number], tasks, &shown.seen, it)?;
        tried = with_one(tried, it);
        meter.show(tried);
    }
    Ok(tries)
}

/// Tries the flaws of places that are of a share, each with the answer of `grade_place`. Flaws of different registers
/// are tried at once: in a run with one flaw each of several registers, each is found where it is found alone. So the
/// runs are about as many as one register has flaws, and not as many as all registers have.
///
/// `shown` is what the tasks show without a flaw.
///
/// # Errors
///
/// Want of memory.
pub fn grade_together<M: Meter>(
    alloc: Global,
    desc: Desc,
    tasks: &[Task],
    shown: &Shown,
    places: &[Place],
    share: Share,
    meter: &mut M,
) -> Result<Tries, AllocError>
    requires built_with { IsBuiltWith desc.layout desc.chip }
    requires kinds { desc.layout.kinds ≡ kinds_of fresh_standings }
    requires fits { TasksFit desc.chip (length desc.layout.maps) tasks.now }
    requires places { All (IsPlaceIn desc.chip) places.now }
    requires every { 0 < share.every }
    requires shown { IsShown desc tasks.now shown.now.seen.items }
    ensures desc { IfOk result (λ tries. tries.desc ≡ desc) }
    ensures graded { IfOk result (λ tries. tries.graded.items ≡ grades_of desc tasks.now shown.now.seen.items share 0
        (flaws_of_places desc shown.now.items places.now)) }
    ensures answers { IfOk result (λ tries. AreAnswers desc tasks.now shown.now.seen.items tries.graded.items) }
{
    let flaws = flaws_in_share(alloc, &desc, shown.items, places, share)?;
    let rounds = try_rounds(alloc, desc, &flaws, tasks, shown, meter)?;
    answer_all(alloc, rounds, &flaws, tasks, shown, meter)
}
