// The rows of a file of waivers.
ghost use Rattle.std.specs.Prelude.{◌≡◌, ◌++◌, IfOk, OnOk};
ghost use Rattle.rl_report.specs.Lines.{lines_of};
ghost use Rattle.rl_grade_report.specs.Waivers.{begins, begun, ended, goes_on, has_text, is_content, is_header};
ghost use Rattle.rl_grade_report.specs.Waivers.{row_at, row_text, rows_of};

use crate::shares::next_line;
use std::alloc::{AllocError, Global};
use std::marker::Model;

/// A row of a file of waivers.
#[derive(Drop)]
pub(crate) struct Row {
    /// The number of its first line.
    pub(crate) line: u64,
    /// Its lines, each with its end.
    pub(crate) text: Vec<u8>,
}

impl Model for Row {
    ghost use Rattle.rl_grade_report.specs.Waivers.{RowData};

    ghost Value = { RowData };

    ghost view = { λ r. record { line = r.line; text = r.text.items } };
}

// Whether a line is neither empty nor a comment.
fn is_content(line: &[u8]) -> bool
    ensures { result ≡ is_content line.now }
{
    match line {
        [] => false,
        [first, ..] => *first != b'#',
    }
}

// Whether a line begins a row of a description.
fn is_header(line: &[u8]) -> bool
    ensures { result ≡ is_header line.now }
{
    line == b"[[flaw]]".as_slice()
}

// Whether a line is of the row of the line before it.
fn goes_on(line: &[u8]) -> bool
    ensures { result ≡ goes_on line.now }
{
    is_content(line) && !is_header(line)
}

// Whether a line begins a row, behind this one.
fn begins(before: &[u8], line: &[u8]) -> bool
    ensures { result ≡ begins before.now line.now }
{
    is_content(line) && (is_header(line) || !is_content(before))
}

// Appends a line with its end.
fn push_ended(text: &mut Vec<u8>, line: &[u8]) -> Result<(), AllocError>
    ensures { OnOk result (text.new.items ≡ text.old.items ++ ended line.now) }
{
    text.extend_from_slice(line)?;
    text.extend_from_slice(b"\n")
}

// Appends the lines at the head of a text that go on with a row.
fn push_row_text(row: &mut Vec<u8>, text: &[u8]) -> Result<(), AllocError>
    ensures { OnOk result (row.new.items ≡ row.old.items ++ row_text (lines_of text.now)) }
{
    let mut rest = text;
    while let Some((line, behind)) = next_line(rest) {
        if !goes_on(line) {
            return Ok(());
        }
        push_ended(row, line)?;
        rest = behind;
    }
    Ok(())
}

// The row that begins with a line of this number, before such a text.
fn row_at(alloc: Global, number: u64, line: &[u8], behind: &[u8]) -> Result<Row, AllocError>
    ensures { IfOk result (λ row. row ≡ row_at number line.now (lines_of behind.now)) }
{
    let mut text = Vec::new(alloc);
    push_ended(&mut text, line)?;
    push_row_text(&mut text, behind)?;
    Ok(Row { line: number, text })
}

// With the row that a line of this number begins, if it does, behind one line and before such a text.
fn with_line(
    alloc: Global,
    rows: Vec<Row>,
    before: &[u8],
    number: u64,
    line: &[u8],
    behind: &[u8],
) -> Result<Vec<Row>, AllocError>
    ensures { IfOk result (λ next. next.items ≡ rows.items ++ begun before.now number line.now (lines_of behind.now)) }
{
    let mut rows = rows;
    if begins(before, line) {
        rows.push(row_at(alloc, number, line, behind)?)?;
    }
    Ok(rows)
}

/// The rows of a file of waivers, in order. A row begins with a line `[[flaw]]`, or with another line after one that is
/// of no row, and ends before the next row, an empty line or a comment.
///
/// # Errors
///
/// Want of memory.
pub(crate) fn rows_of(alloc: Global, text: &[u8]) -> Result<Vec<Row>, AllocError>
    ensures { IfOk result (λ rows. rows.items ≡ rows_of text.now) }
{
    let mut rows = Vec::new(alloc);
    let mut rest = text;
    let mut number = 0u64;
    let mut before: &[u8] = &[];
    while let Some((line, behind)) = next_line(rest) {
        number += 1;
        rows = with_line(alloc, rows, before, number, line, behind)?;
        before = line;
        rest = behind;
    }
    Ok(rows)
}

/// Whether one of these rows is this text.
pub(crate) fn has_text(rows: &[Row], text: &[u8]) -> bool
    ensures { result ≡ has_text rows.now text.now }
{
    rows.iter().any(|row| row.text.as_slice() == text)
}
