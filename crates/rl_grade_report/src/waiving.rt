// Whether waivers name flaws that are there, and each once.
ghost use Rattle.std.specs.Prelude.{◌≡◌, true, All, IfOk};
ghost use Rattle.rl_flaw.specs.Flaws.{IsFlawOf};
ghost use Rattle.rl_grade_report.specs.Prelude.{IsPlaceIn, LeavesLog, Puts, is_complete};
ghost use Rattle.rl_grade_report.specs.Row.{flaw_row};
ghost use Rattle.rl_grade_report.specs.Waivers.{has_text, rows_of};
ghost use Rattle.rl_grade_report.specs.Waiving.{fault_in, first_line, left_at, twice_in, unknown_among, unwaived_at};
ghost use Rattle.rl_grade_report.specs.Waiving.{unwaived_text, without};

use crate::keys::{Form, push_flaw};
use crate::pieces::push_after;
use crate::places::places_of;
use crate::waivers::{Row, has_text, rows_of};
use crate::writing::put_text;
use rl_bench::Flaw;
use rl_desc::Desc;
use rl_grade::{Place, flaws_at};
use rl_log::Status;
use rl_report::Sink;
use std::alloc::{AllocError, Global};

/// Why waivers are refused.
#[derive(Clone, Copy)]
pub(crate) enum Unwaived {
    /// The row of this line came before.
    Twice(u64),
    /// The row of this line is that of no flaw.
    Unknown(u64),
}

// The number of a row's line.
fn line_of(row: &Row) -> u64
    ensures { result ≡ row.now.line }
{
    row.line
}

// Whether one of these rows has a row's text.
fn is_among(rows: &[Row], row: &Row) -> bool
    ensures { result ≡ has_text rows.now row.now.text }
{
    has_text(rows, &row.text)
}

// The line of the first row that came before.
fn twice_in(rows: &[Row]) -> Option<u64>
    ensures { result ≡ twice_in rows.now }
{
    for (place, row) in rows.iter().enumerate() {
        if is_among(&rows[..place], row) {
            return Some(line_of(row));
        }
    }
    None
}

/// The row of a flaw, as a description has it.
///
/// # Errors
///
/// Want of memory.
pub(crate) fn flaw_row(alloc: Global, desc: &Desc, flaw: Flaw) -> Result<Vec<u8>, AllocError>
    requires { IsFlawOf desc.now.chip desc.now.layout flaw }
    ensures { IfOk result (λ text. text.items ≡ flaw_row desc.now.chip desc.now.layout flaw) }
{
    let mut text = Vec::new(alloc);
    push_flaw(&mut text, Form::Row, &desc.chip, &desc.layout, flaw)?;
    Ok(text)
}

// Takes out the rows of this text.
fn take_out(rows: &mut Vec<Row>, text: &[u8])
    ensures { rows.new.items ≡ without text.now rows.old.items }
{
    rows.retain(|row| row.text.as_slice() != text);
}

// The rows that are of none of these flaws.
fn unknown_among(
    alloc: Global,
    desc: &Desc,
    flaws: &[Flaw],
    rows: Vec<Row>,
) -> Result<Vec<Row>, AllocError>
    requires { All (IsFlawOf desc.now.chip desc.now.layout) flaws.now }
    ensures { IfOk result (λ left. left.items ≡ unknown_among desc.now flaws.now rows.items) }
{
    let mut left = rows;
    for flaw in flaws {
        let text = flaw_row(alloc, desc, *flaw)?;
        take_out(&mut left, &text);
    }
    Ok(left)
}

// The rows that are of no flaw of these places.
fn left_at(
    alloc: Global,
    desc: &Desc,
    items: u64,
    places: &[Place],
    rows: Vec<Row>,
) -> Result<Vec<Row>, AllocError>
    requires { All (IsPlaceIn desc.now.chip) places.now }
    ensures { IfOk result (λ left. left.items ≡ left_at desc.now items places.now rows.items) }
{
    let mut left = rows;
    for place in places {
        let flaws = flaws_at(alloc, desc, items, *place)?;
        left = unknown_among(alloc, desc, &flaws, left)?;
    }
    Ok(left)
}

// The line of the first of these rows.
fn first_line(rows: &[Row]) -> Option<u64>
    ensures { result ≡ first_line rows.now }
{
    match rows {
        [] => None,
        [row, ..] => Some(line_of(row)),
    }
}

/// Why a file of waivers with these rows is refused, by a description and by how many bus items the session sends: for
/// the first row that came before; or else for the first that is of no flaw.
///
/// # Errors
///
/// Want of memory.
pub(crate) fn fault_in(
    alloc: Global,
    desc: &Desc,
    items: u64,
    text: &[u8],
    rows: &[Row],
) -> Result<Option<Unwaived>, AllocError>
    requires { rows.now ≡ rows_of text.now }
    ensures { IfOk result (λ fault. fault ≡ fault_in desc.now items rows.now) }
{
    if let Some(line) = twice_in(rows) {
        return Ok(Some(Unwaived::Twice(line)));
    }
    if rows.is_empty() {
        return Ok(None);
    }
    let places = places_of(alloc, &desc.chip)?;
    let left = left_at(alloc, desc, items, &places, rows_of(alloc, text)?)?;
    match first_line(&left) {
        Some(line) => Ok(Some(Unwaived::Unknown(line))),
        None => Ok(None),
    }
}

// The line that refuses waivers at a line of their file.
fn unwaived_at(alloc: Global, line: u64, reason: &[u8]) -> Result<Vec<u8>, AllocError>
    ensures { IfOk result (λ text. text.items ≡ unwaived_at line reason.now) }
{
    let mut text = Vec::new(alloc);
    push_after(&mut text, b"refused waivers: line ", line)?;
    text.extend_from_slice(reason)?;
    Ok(text)
}

// The line that refuses waivers.
fn unwaived_text(alloc: Global, why: Unwaived) -> Result<Vec<u8>, AllocError>
    ensures { IfOk result (λ text. text.items ≡ unwaived_text why) }
{
    match why {
        Unwaived::Twice(line) => unwaived_at(alloc, line, b": this flaw is waived before\n"),
        Unwaived::Unknown(line) => {
            unwaived_at(alloc, line, b": no flaw of this session is written so\n")
        }
    }
}

/// Writes why waivers are refused.
pub(crate) fn put_unwaived<K: Sink>(
    alloc: Global,
    why: Unwaived,
    log: &mut K,
) -> Result<Status, Status>
    ensures bytes { Puts (K.written log.old) (K.written log.new) (unwaived_text why) result }
    ensures status { IfOk result (λ status. status ≡ Status.Refused) }
    ensures whole { IfOk result (λ status. is_complete status ≡ true) }
    ensures leaves { LeavesLog K.Sink result log.old log.new }
{
    let Ok(text) = unwaived_text(alloc, why) else {
        return Err(Status::Memory);
    };
    match put_text(&text, log) {
        Ok(()) => Ok(Status::Refused),
        Err(status) => Err(status),
    }
}
