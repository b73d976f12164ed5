// The bytes before the separator, piece by piece.
ghost use Rattle.std.specs.Prelude.{◌≡◌, ◌+◌, ◌-◌, ◌<◌, ◌≤◌, ◌&&◌, true, false, length};
ghost use Rattle.rl_report.specs.Opening.{is_separator, IsPart};
ghost use Rattle.rl_report.specs.Lines.{first_line};

use crate::lines::without_return;

/// What a call of `read_head` found.
#[derive(Clone, Copy, Debug, PartialEq, Eq)]
pub enum Head {
    /// The separator, and the bytes before it.
    Found,
    /// The input ended, with no separator.
    Missing,
    /// No separator begins within the bytes that a description may have, and the input has more.
    TooLong,
}

/// Why a call of `read_head` gave up.
#[derive(Clone, Copy, Debug, PartialEq, Eq)]
pub enum HeadFault {
    /// A read of the source failed.
    Source,
    /// There was no memory for the bytes before the separator.
    Memory,
}

// What stands at the front of the bytes that are held.
#[derive(Clone, Copy)]
pub(crate) enum Part {
    // The line of the separator, of so many bytes with its end.
    Separator { size: usize },
    // So many bytes before the separator. They end a line, or not.
    Text { size: usize, ends: bool },
    // The end of the input, with no separator.
    End,
    // More bytes will tell.
    Unclear,
}

// The line is the separator, where `starts` says that it is a whole one.
fn is_separator(line: &[u8], starts: bool) -> bool
    ensures { result ≡ (starts && is_separator line.now) }
{
    starts && without_return(line) == b"---".as_slice()
}

// So few bytes of a line don't tell whether it is the separator: `---` and a carriage return, at most.
fn is_too_few(size: usize, starts: bool) -> bool
    ensures few { result ≡ true → size ≤ 4 }
    ensures some { result ≡ false → 0 < size }
    ensures many { result ≡ false → starts ≡ true → 4 < size }
{
    size == 0 || (starts && size <= 4)
}

// The part at the front of these bytes, whose first line has so many. `starts` says that a line begins there, and
// `ended` that they are the last.
pub(crate) fn next_part(held: &[u8], size: usize, starts: bool, ended: bool) -> Part
    requires { size ≡ length (first_line held.now) }
    ensures { IsPart held.now starts ended result }
{
    let separator = is_separator(&held[..size], starts);
    if size < held.len() {
        return whole_line(size + 1, separator);
    }
    if ended {
        return last_line(size, separator);
    }
    if is_too_few(size, starts) {
        return Part::Unclear;
    }
    Part::Text { size, ends: false }
}

// A line of so many bytes with its end.
fn whole_line(size: usize, separator: bool) -> Part
    ensures separator { separator ≡ true → result ≡ Part.Separator size }
    ensures text { separator ≡ false → result ≡ Part.Text size true }
{
    if separator {
        Part::Separator { size }
    } else {
        Part::Text { size, ends: true }
    }
}

// What the input ends with, where that has no line end.
fn last_line(size: usize, separator: bool) -> Part
    ensures separator { separator ≡ true → result ≡ Part.Separator size }
    ensures end { separator ≡ false → result ≡ Part.End }
{
    if separator {
        Part::Separator { size }
    } else {
        Part::End
    }
}
