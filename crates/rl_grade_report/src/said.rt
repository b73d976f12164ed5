// What a line of a share says.
ghost use Rattle.std.specs.Prelude.{◌≡◌, IfOk, nat_eq, option_map, position, slice_get};
ghost use Rattle.std.specs.Io.BufRead.{strip_last};
ghost use Rattle.std.specs.List.{starts_with};
ghost use Rattle.rl_grade_report.specs.Said.{count_of, end_said, head_if, head_in, head_said, is_line, mark_in};
ghost use Rattle.rl_grade_report.specs.Said.{other_said, said_by, totals_in, word_at, words_of};

use crate::asked::{decimal_of, share_named, value_of};
use crate::totals::{Totals, push_end};
use crate::writing::share_line;
use rl_grade::Share;
use rl_policy::read_number;
use std::alloc::{AllocError, Global};

/// Which share a text is, and of which session.
#[derive(Clone, Copy)]
pub(crate) struct Head {
    pub(crate) share: Share,
    /// The mark of the session.
    pub(crate) mark: u64,
}

/// What a line says.
#[derive(Clone, Copy)]
pub(crate) enum Said {
    /// That a share begins.
    Head(Head),
    /// That a share ends, with these totals.
    End(Totals),
    /// What a share has between these: it is without `#`.
    Place,
    /// What no share has: a line with `#` that begins none.
    Stray,
}

// The word behind so many others, with a space between each two.
fn nth_word(line: &[u8], place: usize) -> Option<&[u8]>
    ensures { option_map (λ word. word.now) result ≡ slice_get (words_of line.now) place }
{
    line.split(|byte| *byte == b' ').nth(place)
}

// That word, empty where there is none.
fn word_at(line: &[u8], place: usize) -> &[u8]
    ensures { result.now ≡ word_at place line.now }
{
    match nth_word(line, place) {
        Some(word) => word,
        None => &[],
    }
}

// The mark that a word writes.
fn mark_in(word: &[u8]) -> Option<u64>
    ensures { result ≡ mark_in word.now }
{
    value_of(read_number(word))
}

fn head_if(share: Option<Share>, mark: Option<u64>) -> Option<Head>
    ensures { result ≡ head_if share mark }
{
    let (Some(share), Some(mark)) = (share, mark) else {
        return None;
    };
    Some(Head { share, mark })
}

// The share that its words name.
fn head_in(line: &[u8]) -> Option<Head>
    ensures { result ≡ head_in line.now }
{
    head_if(share_named(word_at(line, 2)), mark_in(word_at(line, 5)))
}

// Whether a word begins so.
fn begins_with(word: &[u8], name: &[u8]) -> bool
    ensures { result ≡ starts_with nat_eq word.now name.now }
{
    word.starts_with(name)
}

// How many words stand before the first that begins so.
fn place_of(line: &[u8], name: &[u8]) -> Option<usize>
    ensures { result ≡ position (λ word. starts_with nat_eq word name.now) (words_of line.now) }
{
    line.split(|byte| *byte == b' ')
        .position(|word| begins_with(word, name))
}

// The number before the first word that begins so; 0 where there is none.
fn count_of(line: &[u8], name: &[u8]) -> u64
    ensures { result ≡ count_of name.now line.now }
{
    match place_of(line, name) {
        Some(place) => decimal_of(word_at(line, place.saturating_sub(1))).unwrap_or(0),
        None => 0,
    }
}

// The totals that its words name.
fn totals_in(line: &[u8]) -> Totals
    ensures { result ≡ totals_in line.now }
{
    Totals {
        flaws: count_of(line, b"flaws"),
        found: count_of(line, b"found"),
        hidden: count_of(line, b"hidden"),
        waived: count_of(line, b"waived"),
        needless: count_of(line, b"needless"),
    }
}

// A text without the end of its last line.
fn without_end(text: &[u8]) -> &[u8]
    ensures { result.now ≡ strip_last 10 text.now }
{
    match text {
        [front @ .., b'\n'] => front,
        _ => text,
    }
}

// Whether a text is this line.
fn is_line(text: &[u8], line: &[u8]) -> bool
    ensures { result ≡ is_line text.now line.now }
{
    without_end(text) == line
}

// The share that a line begins.
fn head_said(alloc: Global, line: &[u8]) -> Result<Option<Head>, AllocError>
    ensures { IfOk result (λ head. head ≡ head_said line.now) }
{
    let Some(head) = head_in(line) else {
        return Ok(None);
    };
    let text = share_line(alloc, head.share, head.mark)?;
    if !is_line(&text, line) {
        return Ok(None);
    }
    Ok(Some(head))
}

// The totals with which a line ends a share.
fn end_said(alloc: Global, line: &[u8]) -> Result<Option<Totals>, AllocError>
    ensures { IfOk result (λ totals. totals ≡ end_said line.now) }
{
    let totals = totals_in(line);
    let mut text = Vec::new(alloc);
    push_end(&mut text, totals)?;
    if !is_line(&text, line) {
        return Ok(None);
    }
    Ok(Some(totals))
}

// What a line says that neither begins nor ends a share.
fn other_said(line: &[u8]) -> Said
    ensures { result ≡ other_said line.now }
{
    if line.contains(&b'#') {
        Said::Stray
    } else {
        Said::Place
    }
}

/// What a line says. It begins or ends a share only where it is, byte for byte, the line that a grading writes.
///
/// # Errors
///
/// Want of memory.
pub(crate) fn said_by(alloc: Global, line: &[u8]) -> Result<Said, AllocError>
    ensures { IfOk result (λ said. said ≡ said_by line.now) }
{
    if let Some(head) = head_said(alloc, line)? {
        return Ok(Said::Head(head));
    }
    if let Some(totals) = end_said(alloc, line)? {
        return Ok(Said::End(totals));
    }
    Ok(other_said(line))
}
