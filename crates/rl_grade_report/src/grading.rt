// A session that is graded.
ghost use Rattle.std.specs.Prelude.{◌≡◌, ◌<◌, [], Some, true, map, length, All, IfOk, IfSome};
ghost use Rattle.rl_grade_report.specs.Prelude.{AreAnswers, AreJudged, AwaitsScript, CanGrade, IsNext, IsPlaceIn, IsReady};
ghost use Rattle.rl_grade_report.specs.Prelude.{IsShown, LeavesEnded, LeavesLog, LeavesOpen, Puts, TasksFit, TellsGraded};
ghost use Rattle.rl_grade_report.specs.Prelude.{all_judged, base_shown, bench_state, desc_of, facts_of, graded_as, graded_over};
ghost use Rattle.rl_grade_report.specs.Prelude.{first_world, fresh_standings, grading_of, grading_with, heard_by, input_of};
ghost use Rattle.rl_grade_report.specs.Prelude.{is_complete, judged_at, judged_from, kinds_of, lines_of, mark_from, mark_of};
ghost use Rattle.rl_grade_report.specs.Prelude.{place_text, places_of, places_text, reported, rows_of, script_graded};
ghost use Rattle.rl_grade_report.specs.Prelude.{status_at, status_of, totals_of, world};

use crate::asked::Asked;
use crate::facts::Facts;
use crate::judging::judge;
use crate::mark::{mark_from, mark_of};
use crate::places::places_of;
use crate::refusal::{Unflawed, end_unread};
use crate::totals::Totals;
use crate::verdict::Judged;
use crate::waivers::{Row, rows_of};
use crate::waiving::{fault_in, put_unwaived};
use crate::whole::{Bytes, read_all};
use crate::writing::{put_head, put_last, put_place};
use rl_access::Model;
use rl_bench::Bench;
use rl_bus::{Adapter, Adapters};
use rl_desc::Desc;
use rl_grade::{
    Known, Meter, Place, Shown, Task, Tries, grade_place_known, grade_together, read_script, show,
};
use rl_log::Status;
use rl_report::{LineReader, Sink, Source};
use rl_session::open;
use rl_session_run::{end_log, open_checked};
use std::alloc::{AllocError, Global};

// How far the places are done.
#[derive(Drop)]
struct Progress {
    desc: Desc,
    // How many flaws stand before the next place.
    number: u64,
    // Those that were tried, each with what is said of it.
    judged: Vec<Judged>,
    // Answers that were found before.
    known: Known,
}

// A place whose flaws were tried.
#[derive(Drop)]
struct Tried {
    // Its flaws, each with what is said of it.
    here: Vec<Judged>,
    // How far the places are done behind it.
    next: Progress,
}

// Tries the flaws of a place, and says of each what there is to say.
fn try_place(
    alloc: Global,
    asked: Asked,
    waivers: &[Row],
    tasks: &[Task],
    shown: &Shown,
    place: Place,
    progress: Progress,
) -> Result<Tried, AllocError>
    requires can_grade { CanGrade asked progress.desc tasks.now }
    requires place { IsPlaceIn progress.desc.chip place }
    requires each { AreJudged progress.desc.chip progress.desc.layout progress.judged.items }
    requires known { AreAnswers progress.desc tasks.now shown.now.seen.items progress.known.graded.items }
    ensures here { IfOk result (λ tried. tried.here.items
        ≡ judged_at asked progress.desc (base_shown waivers.now tasks.now shown.now) progress.number place) }
    ensures next { IfOk result (λ tried.
        IsNext asked (base_shown waivers.now tasks.now shown.now) place progress tried.next) }
{
    let Progress {
        desc,
        number,
        mut judged,
        mut known,
    } = progress;
    let share = asked.share;
    let grade = grade_place_known(alloc, desc, tasks, shown, place, number, share, &mut known)?;
    let here = judge(alloc, &grade.desc, waivers, &grade.graded)?;
    judged.extend_from_slice(&here)?;
    let next = Progress {
        desc: grade.desc,
        number: number.saturating_add(grade.flaws),
        judged,
        known,
    };
    Ok(Tried { here, next })
}

// Tries the flaws of a place, and writes what was found.
fn grade_next<K: Sink>(
    alloc: Global,
    asked: Asked,
    waivers: &[Row],
    tasks: &[Task],
    shown: &Shown,
    place: Place,
    progress: Progress,
    log: &mut K,
) -> Result<Progress, Status>
    requires can_grade { CanGrade asked progress.desc tasks.now }
    requires place { IsPlaceIn progress.desc.chip place }
    requires each { AreJudged progress.desc.chip progress.desc.layout progress.judged.items }
    requires known { AreAnswers progress.desc tasks.now shown.now.seen.items progress.known.graded.items }
    ensures bytes { Puts (K.written log.old) (K.written log.new) (place_text asked.tell progress.desc place
        (judged_at asked progress.desc (base_shown waivers.now tasks.now shown.now) progress.number place)) result }
    ensures next { IfOk result (λ next.
        IsNext asked (base_shown waivers.now tasks.now shown.now) place progress next) }
    ensures leaves { LeavesLog K.Sink result log.old log.new }
{
    let Ok(tried) = try_place(alloc, asked, waivers, tasks, shown, place, progress) else {
        return Err(Status::Memory);
    };
    let Tried { here, next } = tried;
    put_place(alloc, asked.tell, &next.desc, place, &here, log)?;
    Ok(next)
}

// Tries the flaws of the places, where these answers are known, and writes what was found at each.
fn grade_places<K: Sink>(
    alloc: Global,
    asked: Asked,
    waivers: &[Row],
    tries: Tries,
    tasks: &[Task],
    shown: &Shown,
    places: &[Place],
    log: &mut K,
) -> Result<Progress, Status>
    requires can_grade { CanGrade asked tries.desc tasks.now }
    requires places { All (IsPlaceIn tries.desc.chip) places.now }
    requires known { AreAnswers tries.desc tasks.now shown.now.seen.items tries.graded.items }
    ensures bytes { Puts (K.written log.old) (K.written log.new)
        (places_text asked tries.desc (base_shown waivers.now tasks.now shown.now) 0 places.now) result }
    ensures desc { IfOk result (λ done. done.desc ≡ tries.desc) }
    ensures judged { IfOk result (λ done. done.judged.items
        ≡ judged_from asked tries.desc (base_shown waivers.now tasks.now shown.now) 0 places.now) }
    ensures each { IfOk result (λ done. AreJudged tries.desc.chip tries.desc.layout done.judged.items) }
    ensures leaves { LeavesLog K.Sink result log.old log.new }
{
    let mut progress = Progress {
        desc: tries.desc,
        number: 0,
        judged: Vec::new(alloc),
        known: Known {
            graded: tries.graded,
            next: 0,
        },
    };
    for place in places {
        progress = grade_next(alloc, asked, waivers, tasks, shown, *place, progress, log)?;
    }
    Ok(progress)
}

// What is told of the session of these tasks.
fn facts_of(mark: Option<u64>, tasks: &[Task], shown: &Shown) -> Facts
    ensures { result ≡ facts_of mark (base_shown [] tasks.now shown.now) }
{
    Facts {
        mark,
        lines: tasks.len() as u64,
        events: shown.seen.len() as u64,
        items: shown.items,
    }
}

// Tries the flaws of a description without flaws of its own, where this is what the tasks show, and where the waivers
// name flaws that are there.
fn grade_waived<K: Sink, M: Meter>(
    alloc: Global,
    asked: Asked,
    mark: Option<u64>,
    waivers: &[Row],
    desc: Desc,
    tasks: &[Task],
    shown: &Shown,
    log: &mut K,
    meter: &mut M,
) -> Result<Status, Status>
    requires can_grade { CanGrade asked desc tasks.now }
    requires shown { IsShown desc tasks.now shown.now.seen.items }
    ensures bytes { Puts (K.written log.old) (K.written log.new)
        (reported asked mark desc (base_shown waivers.now tasks.now shown.now)) result }
    ensures status { IfOk result (λ status.
        status ≡ status_at asked (totals_of (all_judged asked desc (base_shown waivers.now tasks.now shown.now)))) }
    ensures whole { IfOk result (λ status. is_complete status ≡ true) }
    ensures leaves { LeavesLog K.Sink result log.old log.new }
{
    let facts = facts_of(mark, tasks, shown);
    let Ok(places) = places_of(alloc, &desc.chip) else {
        return Err(Status::Memory);
    };
    let share = asked.share;
    let Ok(tries) = grade_together(alloc, desc, tasks, shown, &places, share, meter) else {
        return Err(Status::Memory);
    };
    put_head(alloc, asked, facts, log)?;
    let done = grade_places(alloc, asked, waivers, tries, tasks, shown, &places, log)?;
    put_last(alloc, asked, facts, &done.desc, tasks, &done.judged, log)?;
    Ok(asked.status(Totals::NONE.with(&done.judged)))
}

// Tries the flaws of a description without flaws of its own, where this is what the tasks show, unless the waivers name
// what isn't there.
fn grade_shown<K: Sink, M: Meter>(
    alloc: Global,
    asked: Asked,
    mark: Option<u64>,
    waivers: &[u8],
    desc: Desc,
    tasks: &[Task],
    shown: &Shown,
    log: &mut K,
    meter: &mut M,
) -> Result<Status, Status>
    requires can_grade { CanGrade asked desc tasks.now }
    requires shown { IsShown desc tasks.now shown.now.seen.items }
    ensures bytes { Puts (K.written log.old) (K.written log.new)
        (graded_over asked mark desc (base_shown (rows_of waivers.now) tasks.now shown.now)).text result }
    ensures status { IfOk result (λ status.
        status ≡ (graded_over asked mark desc (base_shown (rows_of waivers.now) tasks.now shown.now)).status) }
    ensures whole { IfOk result (λ status. is_complete status ≡ true) }
    ensures leaves { LeavesLog K.Sink result log.old log.new }
{
    let Ok(rows) = rows_of(alloc, waivers) else {
        return Err(Status::Memory);
    };
    match fault_in(alloc, &desc, shown.items, waivers, &rows) {
        Ok(None) => grade_waived(alloc, asked, mark, &rows, desc, tasks, shown, log, meter),
        Ok(Some(why)) => put_unwaived(alloc, why, log),
        Err(_) => Err(Status::Memory),
    }
}

// Does the tasks without a flaw, and then tries the flaws.
fn grade_tasks<K: Sink, M: Meter>(
    alloc: Global,
    asked: Asked,
    mark: Option<u64>,
    waivers: &[u8],
    model: Model,
    bench: Bench,
    adapters: &mut Adapters,
    tasks: &[Task],
    log: &mut K,
    meter: &mut M,
) -> Result<Status, Status>
    requires ready { IsReady model (map standing adapters.old.items) (Some (bench_state bench)) }
    requires kinds { model.layout.kinds ≡ kinds_of fresh_standings }
    requires fits { TasksFit model.chip (length model.layout.maps) tasks.now }
    requires every { 0 < asked.share.every }
    requires first { world model (map standing adapters.old.items) (bench_state bench)
        ≡ first_world (desc_of model) fresh_standings }
    ensures bytes { Puts (K.written log.old) (K.written log.new)
        (graded_as asked mark waivers.now (desc_of model) tasks.now
        (heard_by (world model (map standing adapters.old.items) (bench_state bench)) tasks.now)).text result }
    ensures status { IfOk result (λ status. status ≡ (graded_as asked mark waivers.now (desc_of model) tasks.now
        (heard_by (world model (map standing adapters.old.items) (bench_state bench)) tasks.now)).status) }
    ensures whole { IfOk result (λ status. is_complete status ≡ true) }
    ensures leaves { LeavesLog K.Sink result log.old log.new }
{
    let mut model = model;
    let mut bench = bench;
    let Ok(shown) = show(alloc, &mut model, &mut bench, adapters, tasks) else {
        return Err(Status::Memory);
    };
    let (chip, layout) = model.into_parts();
    let desc = Desc {
        chip,
        layout,
        flaws: Vec::new(alloc),
    };
    grade_shown(alloc, asked, mark, waivers, desc, tasks, &shown, log, meter)
}

// How a grading ends that wrote its text, or a front of it.
pub(crate) fn status_of(written: Result<Status, Status>) -> Status
    ensures { result ≡ status_of written }
{
    match written {
        Ok(status) => status,
        Err(status) => status,
    }
}

// Grades what is left of a session behind its head.
fn grade_script<S: Source, K: Sink, M: Meter>(
    alloc: Global,
    asked: Asked,
    mark: Option<u64>,
    waivers: &[u8],
    desc: Desc,
    lines: &mut LineReader,
    source: &mut S,
    log: &mut K,
    adapters: &mut Adapters,
    meter: &mut M,
) -> Status
    requires awaits { AwaitsScript desc lines.old (kinds_of (map standing adapters.old.items)) }
    requires none { desc.flaws ≡ [] }
    requires fresh { map standing adapters.old.items ≡ fresh_standings }
    requires every { 0 < asked.share.every }
    ensures tells { IfSome (input_of lines.old (S.left source.old)) (λ bytes.
        TellsGraded (script_graded asked mark waivers.now desc (lines_of bytes)) result
        (K.written log.old) (K.written log.new)) }
    ensures leaves { LeavesOpen K.Sink result (S.faults source.old) (S.faults source.new) log.old log.new }
{
    let Ok((model, bench)) = open(alloc, desc) else {
        return Status::Memory;
    };
    match read_script(alloc, &model, lines, source) {
        Ok(tasks) => status_of(grade_tasks(
            alloc, asked, mark, waivers, model, bench, adapters, &tasks, log, meter,
        )),
        Err(fault) => end_unread(fault, log),
    }
}

// Grades a session of this mark, or of none that is told.
fn grade_session<S: Source, K: Sink, M: Meter>(
    alloc: Global,
    asked: Asked,
    mark: Option<u64>,
    waivers: &[u8],
    source: &mut S,
    log: &mut K,
    adapters: &mut Adapters,
    meter: &mut M,
) -> Status
    requires fresh { map standing adapters.old.items ≡ fresh_standings }
    requires every { 0 < asked.share.every }
    ensures tells { IfSome (S.left source.old) (λ bytes.
        TellsGraded (grading_with asked mark waivers.now bytes) result (K.written log.old) (K.written log.new)) }
    ensures leaves { LeavesEnded K.Sink result (S.faults source.old) (S.faults source.new) log.old log.new }
{
    let (desc, mut lines) = match open_checked(alloc, source, log, adapters, &Unflawed {}) {
        Ok(opened) => opened,
        Err(status) => return end_log(status, log),
    };
    let graded = grade_script(
        alloc, asked, mark, waivers, desc, &mut lines, source, log, adapters, meter,
    );
    end_log(graded, log)
}

// Grades a session that is read whole first, for its mark.
fn grade_marked<S: Source, K: Sink, M: Meter>(
    alloc: Global,
    asked: Asked,
    waivers: &[u8],
    source: &mut S,
    log: &mut K,
    adapters: &mut Adapters,
    meter: &mut M,
) -> Status
    requires fresh { map standing adapters.old.items ≡ fresh_standings }
    requires every { 0 < asked.share.every }
    ensures tells { IfSome (S.left source.old) (λ bytes.
        TellsGraded (grading_with asked (Some (mark_from (mark_of bytes) waivers.now)) waivers.now bytes) result
        (K.written log.old) (K.written log.new)) }
    ensures leaves { LeavesEnded K.Sink result (S.faults source.old) (S.faults source.new) log.old log.new }
{
    let bytes = match read_all(alloc, source) {
        Ok(bytes) => bytes,
        Err(status) => return status,
    };
    let mark = mark_from(mark_of(&bytes), waivers);
    let mut whole = Bytes { left: &bytes };
    grade_session(
        alloc,
        asked,
        Some(mark),
        waivers,
        &mut whole,
        log,
        adapters,
        meter,
    )
}

/// Grades a session: tries which single flaws of its device its script finds, and writes what is asked for. The
/// adapters are a plain and an APB adapter that have sent nothing.
///
/// `waivers` is the text of a file of flaws that are known and accepted, each as the row that `Tell::Missed` writes,
/// and empty where there are none. A flaw that is waived and not found counts as such, and isn't among those that can
/// be found. Where a row comes twice, or is that of no flaw of the session, one line says so in place of the grading.
///
/// Nothing is written before the whole script was read. The log is finished once, where its last line was written.
/// Where a bound is asked for and fewer flaws were found, the status is `Found`.
///
/// # Examples
///
/// A register `ctrl` has an RW field `mode` of 4 bits that resets to 5, and the script is `write ctrl 0x3` and `check
/// ctrl`. `Tell::Run` writes:
///
/// ```text
/// ctrl: deaf 1 found 0 missed, address 1 found 0 missed
/// ctrl.mode: stuck 4 found 4 missed, reset 0 found 4 missed, policy 21 found 3 missed; missed: stuck at 0 bit 2-3, ..
/// session: item 2 found 0 missed
/// end: 40 flaws, 29 found, 11 missed, 72.5 % found
/// ```
pub fn run_grade<S: Source, K: Sink, M: Meter>(
    alloc: Global,
    asked: Asked,
    waivers: &[u8],
    source: &mut S,
    log: &mut K,
    adapters: &mut Adapters,
    meter: &mut M,
) -> Status
    requires fresh { map standing adapters.old.items ≡ fresh_standings }
    requires every { 0 < asked.share.every }

    // Which sessions are refused and in what words, what is written of the others, and the statuses.
    ensures tells { IfSome (S.left source.old) (λ bytes.
        TellsGraded (grading_of asked waivers.now bytes) result (K.written log.old) (K.written log.new)) }

    // However it ends, the log keeps the bytes that it had before, and is ended exactly where its last line was
    // written. No fault is made up, and the status is never that of other words.
    ensures leaves { LeavesEnded K.Sink result (S.faults source.old) (S.faults source.new) log.old log.new }
{
    if asked.is_marked() {
        return grade_marked(alloc, asked, waivers, source, log, adapters, meter);
    }
    grade_session(alloc, asked, None, waivers, source, log, adapters, meter)
}
