// What is written before the places, of a place, and at the end.
ghost use Rattle.std.specs.Prelude.{◌≡◌, ◌++◌, OnOk, IfOk};
ghost use Rattle.rl_grade_report.specs.Prelude.{AreJudged, IsPlaceIn, LeavesLog, Puts};
ghost use Rattle.rl_grade_report.specs.Prelude.{head_text, last_text, part_text, place_text, share_line};

use crate::asked::{Asked, Tell};
use crate::facts::Facts;
use crate::firsts::push_lines;
use crate::json::push_json;
use crate::line::push_line;
use crate::row::{push_found_rows, push_rows};
use crate::totals::{Totals, push_end};
use crate::verdict::{Judged, Verdict};
use itoa::Buffer;
use rl_desc::Desc;
use rl_grade::{Place, Share, Task};
use rl_log::Status;
use rl_policy::spell;
use rl_report::{Failed, Sink, put_all};
use rl_session::{front, push_pieces};
use std::alloc::{AllocError, Global};

// The line that says which share of which session a text is, as a comment.
pub(crate) fn share_line(alloc: Global, share: Share, mark: u64) -> Result<Vec<u8>, AllocError>
    ensures { IfOk result (λ text. text.items ≡ share_line share mark) }
{
    let mut first = Buffer::new();
    let mut every = Buffer::new();
    let mut digits = [0u8; 16];
    let len = spell(&mut digits, mark);
    let pieces: [&[u8]; 7] = [
        b"# share ",
        first.format(share.first).as_bytes(),
        b"/",
        every.format(share.every).as_bytes(),
        b" of session 0x",
        front(&digits, len),
        b"\n",
    ];
    let mut text = Vec::new(alloc);
    push_pieces(&mut text, &pieces)?;
    Ok(text)
}

// The text before the places.
fn head_text(alloc: Global, asked: Asked, facts: Facts) -> Result<Vec<u8>, AllocError>
    ensures { IfOk result (λ text. text.items ≡ head_text asked facts) }
{
    match facts.mark {
        Some(mark) if !asked.tell.is_json() => share_line(alloc, asked.share, mark),
        _ => Ok(Vec::new(alloc)),
    }
}

// The text of a place.
fn place_text(
    alloc: Global,
    tell: Tell,
    desc: &Desc,
    place: Place,
    judged: &[Judged],
) -> Result<Vec<u8>, AllocError>
    requires place { IsPlaceIn desc.now.chip place }
    requires flaws { AreJudged desc.now.chip desc.now.layout judged.now }
    ensures { IfOk result (λ text. text.items ≡ place_text tell desc.now place judged.now) }
{
    let mut text = Vec::new(alloc);
    match tell {
        Tell::Run => push_line(alloc, &mut text, &desc.chip, &desc.layout, place, judged)?,
        Tell::Missed => push_rows(&mut text, &desc.chip, &desc.layout, judged, Verdict::Missed)?,
        Tell::Hidden => push_rows(&mut text, &desc.chip, &desc.layout, judged, Verdict::Hidden)?,
        Tell::Found => push_found_rows(&mut text, &desc.chip, &desc.layout, judged)?,
        Tell::Waived => push_rows(&mut text, &desc.chip, &desc.layout, judged, Verdict::Waived)?,
        Tell::Lines | Tell::Json => {}
    }
    Ok(text)
}

// Appends the totals of a share of rows, as a comment.
fn push_part(text: &mut Vec<u8>, asked: Asked, totals: Totals) -> Result<(), AllocError>
    ensures { OnOk result (text.new.items ≡ text.old.items ++ part_text asked totals) }
{
    if !asked.is_part() {
        return Ok(());
    }
    text.extend_from_slice(b"# ")?;
    push_end(text, totals)
}

// The text of the end.
fn last_text(
    alloc: Global,
    asked: Asked,
    facts: Facts,
    desc: &Desc,
    tasks: &[Task],
    judged: &[Judged],
) -> Result<Vec<u8>, AllocError>
    requires { AreJudged desc.now.chip desc.now.layout judged.now }
    ensures { IfOk result (λ text. text.items ≡ last_text asked facts desc.now tasks.now judged.now) }
{
    let mut text = Vec::new(alloc);
    let totals = Totals::NONE.with(judged);
    match asked.tell {
        Tell::Run => push_end(&mut text, totals)?,
        Tell::Missed | Tell::Hidden | Tell::Found | Tell::Waived => {
            push_part(&mut text, asked, totals)?
        }
        Tell::Lines => {
            push_lines(&mut text, tasks, judged)?;
            push_end(&mut text, totals)?;
        }
        Tell::Json => push_json(&mut text, asked, facts, &desc.chip, &desc.layout, judged)?,
    }
    Ok(text)
}

// Writes a text.
pub(crate) fn put_text<K: Sink>(text: &[u8], log: &mut K) -> Result<(), Status>
    ensures bytes { Puts (K.written log.old) (K.written log.new) text.now result }
    ensures leaves { LeavesLog K.Sink result log.old log.new }
{
    match put_all(log, text) {
        Ok(()) => Ok(()),
        Err(Failed) => Err(Status::SinkFault),
    }
}

// Writes what stands before the places.
pub(crate) fn put_head<K: Sink>(
    alloc: Global,
    asked: Asked,
    facts: Facts,
    log: &mut K,
) -> Result<(), Status>
    ensures bytes { Puts (K.written log.old) (K.written log.new) (head_text asked facts) result }
    ensures leaves { LeavesLog K.Sink result log.old log.new }
{
    let Ok(text) = head_text(alloc, asked, facts) else {
        return Err(Status::Memory);
    };
    put_text(&text, log)
}

// Writes what is told of a place.
pub(crate) fn put_place<K: Sink>(
    alloc: Global,
    tell: Tell,
    desc: &Desc,
    place: Place,
    judged: &[Judged],
    log: &mut K,
) -> Result<(), Status>
    requires place { IsPlaceIn desc.now.chip place }
    requires flaws { AreJudged desc.now.chip desc.now.layout judged.now }
    ensures bytes { Puts (K.written log.old) (K.written log.new) (place_text tell desc.now place judged.now) result }
    ensures leaves { LeavesLog K.Sink result log.old log.new }
{
    let Ok(text) = place_text(alloc, tell, desc, place, judged) else {
        return Err(Status::Memory);
    };
    put_text(&text, log)
}

// Writes what is told at the end.
pub(crate) fn put_last<K: Sink>(
    alloc: Global,
    asked: Asked,
    facts: Facts,
    desc: &Desc,
    tasks: &[Task],
    judged: &[Judged],
    log: &mut K,
) -> Result<(), Status>
    requires { AreJudged desc.now.chip desc.now.layout judged.now }
    ensures bytes { Puts (K.written log.old) (K.written log.new)
        (last_text asked facts desc.now tasks.now judged.now) result }
    ensures leaves { LeavesLog K.Sink result log.old log.new }
{
    let Ok(text) = last_text(alloc, asked, facts, desc, tasks, judged) else {
        return Err(Status::Memory);
    };
    put_text(&text, log)
}
