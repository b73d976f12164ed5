// The flaws of a share at a place, each with its answer.
ghost use Rattle.std.specs.Prelude.{◌≡◌, ◌<◌, [], ◌∷◌, ◌++◌, All, Contains, IfOk, IfSome, length};
ghost use Rattle.rl_grade.specs.Batch.{AreAnswers};
ghost use Rattle.rl_grade.specs.Prelude.{IsBuiltWith, IsFlawOf, IsPlaceIn, TasksFit, flaws_at, fresh_standings};
ghost use Rattle.rl_grade.specs.Prelude.{graded_by, grades_of, is_in_share, kinds_of};

use crate::fresh::try_afresh;
use crate::job::Task;
use crate::place::{Place, flaws_at};
use crate::run::Shown;
use crate::same::is_same_flaw;
use crate::seen::{Find, Seen};
use rl_bench::Flaw;
use rl_desc::Desc;
use std::alloc::{AllocError, Global};

/// A flaw that was tried.
#[derive(Clone, Copy, Debug, PartialEq, Eq)]
pub struct Graded {
    /// The flaw.
    pub flaw: Flaw,
    /// The first event that shows more with it than without it.
    pub found: Option<Find>,
}

/// Which flaws are tried: each `every`-th from the `first`-th on. They count from 1.
#[derive(Clone, Copy, Debug, PartialEq, Eq)]
pub struct Share {
    /// The number of the first one, from 1 to `every`.
    pub first: u64,
    /// Not 0.
    pub every: u64,
}

/// The flaws of a place that are of a share, each with its answer.
#[derive(Drop)]
pub struct PlaceGrade {
    /// The description again.
    pub desc: Desc,
    /// How many flaws the place has.
    pub flaws: u64,
    /// Those of the share, in order.
    pub graded: Vec<Graded>,
}

/// Flaws that were tried, each with its answer, and the description again.
#[derive(Drop)]
pub struct Tries {
    /// The description again.
    pub desc: Desc,
    /// The flaws with their answers, in order.
    pub graded: Vec<Graded>,
}

/// Answers that were found before, in the order in which they are asked for.
#[derive(Drop)]
pub struct Known {
    /// The flaws with their answers.
    pub graded: Vec<Graded>,
    /// Which of them is asked for next, counted from 0.
    pub next: usize,
}

// The answer of that number, if there are so many.
fn answer_at(graded: &[Graded], number: usize) -> Option<Graded>
    ensures { IfSome result (Contains graded.now) }
{
    if number < graded.len() {
        Some(graded[number])
    } else {
        None
    }
}

impl Known {
    // The next answer, if it is this flaw's.
    fn take(&mut self, flaw: Flaw) -> Option<Graded>
        ensures flaw { IfSome result (λ it. it.flaw ≡ flaw) }
        ensures known { IfSome result (Contains self.old.graded.items) }
        ensures kept { self.new.graded ≡ self.old.graded }
    {
        let it = answer_at(&self.graded, self.next)?;
        if !is_same_flaw(it.flaw, flaw) {
            return None;
        }
        self.next = self.next.saturating_add(1);
        Some(it)
    }
}

impl Share {
    // Whether the flaw of this number is of the share.
    pub(crate) fn takes(self, number: u128) -> bool
        requires { 0 < self.every }
        ensures { result ≡ is_in_share self number }
    {
        let first = u128::from(self.first);
        number >= first && (number - first) % u128::from(self.every) == 0
    }
}

/// Appends the answer of a flaw: the one that is known, or that of a run with it alone.
pub(crate) fn push_answer(
    alloc: Global,
    tries: Tries,
    flaw: Flaw,
    tasks: &[Task],
    shown: &[Seen],
    known: Option<Graded>,
) -> Result<Tries, AllocError>
    requires built_with { IsBuiltWith tries.desc.layout tries.desc.chip }
    requires kinds { tries.desc.layout.kinds ≡ kinds_of fresh_standings }
    requires fits { TasksFit tries.desc.chip (length tries.desc.layout.maps) tasks.now }
    requires flaw { IsFlawOf tries.desc.chip tries.desc.layout flaw }
    requires known { IfSome known (λ it. it ≡ graded_by tries.desc tasks.now shown.now flaw) }
    ensures desc { IfOk result (λ more. more.desc ≡ tries.desc) }
    ensures graded { IfOk result (λ more. more.graded.items ≡ tries.graded.items
        ++ graded_by tries.desc tasks.now shown.now flaw ∷ []) }
{
    let Tries { desc, mut graded } = tries;
    if let Some(it) = known {
        graded.push(it)?;
        return Ok(Tries { desc, graded });
    }
    let tried = try_afresh(alloc, desc, flaw, tasks, shown)?;
    graded.push(Graded {
        flaw,
        found: tried.found,
    })?;
    Ok(Tries {
        desc: tried.desc,
        graded,
    })
}

// Tries those flaws of a share that stand in a list, behind so many others.
fn grade_flaws(
    alloc: Global,
    desc: Desc,
    flaws: &[Flaw],
    tasks: &[Task],
    shown: &[Seen],
    number: u64,
    share: Share,
    known: &mut Known,
) -> Result<Tries, AllocError>
    requires built_with { IsBuiltWith desc.layout desc.chip }
    requires kinds { desc.layout.kinds ≡ kinds_of fresh_standings }
    requires fits { TasksFit desc.chip (length desc.layout.maps) tasks.now }
    requires flaws { All (IsFlawOf desc.chip desc.layout) flaws.now }
    requires every { 0 < share.every }
    requires known { AreAnswers desc tasks.now shown.now known.old.graded.items }
    ensures known { known.new.graded ≡ known.old.graded }
    ensures desc { IfOk result (λ tries. tries.desc ≡ desc) }
    ensures graded { IfOk result (λ tries.
        tries.graded.items ≡ grades_of desc tasks.now shown.now share number flaws.now) }
{
    let mut tries = Tries {
        desc,
        graded: Vec::new(alloc),
    };
    let mut reached = u128::from(number);
    for flaw in flaws {
        reached += 1;
        if share.takes(reached) {
            let it = known.take(*flaw);
            tries = push_answer(alloc, tries, *flaw, tasks, shown, it)?;
        }
    }
    Ok(tries)
}

/// The flaws of a place that are of a share, each with the answer of `grade_place`: the next of those that are known,
/// where it is this flaw's, or that of a run with it alone.
///
/// Before this place there are `number` flaws.
///
/// # Errors
///
/// Want of memory.
pub fn grade_place_known(
    alloc: Global,
    desc: Desc,
    tasks: &[Task],
    shown: &Shown,
    place: Place,
    number: u64,
    share: Share,
    known: &mut Known,
) -> Result<PlaceGrade, AllocError>
    requires built_with { IsBuiltWith desc.layout desc.chip }
    requires kinds { desc.layout.kinds ≡ kinds_of fresh_standings }
    requires fits { TasksFit desc.chip (length desc.layout.maps) tasks.now }
    requires place { IsPlaceIn desc.chip place }
    requires every { 0 < share.every }
    requires known { AreAnswers desc tasks.now shown.now.seen.items known.old.graded.items }
    ensures known { known.new.graded ≡ known.old.graded }
    ensures desc { IfOk result (λ grade. grade.desc ≡ desc) }
    ensures flaws { IfOk result (λ grade. grade.flaws ≡ length (flaws_at desc shown.now.items place)) }
    ensures graded { IfOk result (λ grade. grade.graded.items ≡ grades_of desc tasks.now shown.now.seen.items
        share number (flaws_at desc shown.now.items place)) }
    ensures listed { IfOk result (λ grade.
        All (λ it. Contains (flaws_at desc shown.now.items place) it.flaw) grade.graded.items) }
    ensures each { IfOk result (λ grade. All (λ it. IsFlawOf desc.chip desc.layout it.flaw) grade.graded.items) }
{
    let flaws = flaws_at(alloc, &desc, shown.items, place)?;
    let tries = grade_flaws(
        alloc,
        desc,
        &flaws,
        tasks,
        &shown.seen,
        number,
        share,
        known,
    )?;
    Ok(PlaceGrade {
        desc: tries.desc,
        flaws: flaws.len() as u64,
        graded: tries.graded,
    })
}

/// Tries the flaws of a place that are of a share. Each is tried by these tasks, from the first state of the
/// description with this flaw only and over adapters that have sent nothing, beside what the same tasks showed without
/// it.
///
/// Before this place there are `number` flaws.
///
/// # Errors
///
/// Want of memory.
pub fn grade_place(
    alloc: Global,
    desc: Desc,
    tasks: &[Task],
    shown: &Shown,
    place: Place,
    number: u64,
    share: Share,
) -> Result<PlaceGrade, AllocError>
    requires built_with { IsBuiltWith desc.layout desc.chip }
    requires kinds { desc.layout.kinds ≡ kinds_of fresh_standings }
    requires fits { TasksFit desc.chip (length desc.layout.maps) tasks.now }
    requires place { IsPlaceIn desc.chip place }
    requires every { 0 < share.every }
    ensures desc { IfOk result (λ grade. grade.desc ≡ desc) }
    ensures flaws { IfOk result (λ grade. grade.flaws ≡ length (flaws_at desc shown.now.items place)) }
    ensures graded { IfOk result (λ grade. grade.graded.items ≡ grades_of desc tasks.now shown.now.seen.items
        share number (flaws_at desc shown.now.items place)) }
    ensures listed { IfOk result (λ grade.
        All (λ it. Contains (flaws_at desc shown.now.items place) it.flaw) grade.graded.items) }
    ensures each { IfOk result (λ grade. All (λ it. IsFlawOf desc.chip desc.layout it.flaw) grade.graded.items) }
{
    let mut known = Known {
        graded: Vec::new(alloc),
        next: 0,
    };
    grade_place_known(alloc, desc, tasks, shown, place, number, share, &mut known)
}
