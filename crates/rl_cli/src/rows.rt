// Where the rows of a description stand in its text.

/// A row of an array, or a field of a register's row, all from 0.
#[derive(Clone, Copy)]
pub(crate) struct Spot<'a> {
    pub(crate) array: &'a str,
    pub(crate) row: usize,
    pub(crate) field: Option<usize>,
}

// The name between the brackets of a line `[[NAME]]`.
fn header(line: &str) -> Option<&str> {
    let (name, _) = line.trim().strip_prefix("[[")?.split_once("]]")?;
    Some(name.trim())
}

// The line, from 0, of row `row` of those whose header has this name, among the lines from `from` on.
fn header_line(text: &str, name: &str, row: usize, from: usize) -> Option<usize> {
    let mut left = row;
    for (number, line) in text.lines().enumerate().skip(from) {
        if header(line).unwrap_or("") != name {
            continue;
        }
        if left == 0 {
            return Some(number);
        }
        left -= 1;
    }
    None
}

// The first line from `from` on that begins a row of another array than `reg.field`, or a number past all lines.
fn rows_end(text: &str, from: usize) -> usize {
    for (number, line) in text.lines().enumerate().skip(from) {
        if !header(line).unwrap_or(".").contains('.') {
            return number;
        }
    }
    usize::MAX
}

// The first line between two that has both texts.
fn find_line(text: &str, from: usize, to: usize, marks: (&str, &str)) -> Option<usize> {
    for (number, line) in text.lines().enumerate().skip(from) {
        if number >= to {
            return None;
        }
        if line.contains(marks.0) && line.contains(marks.1) {
            return Some(number);
        }
    }
    None
}

// The line where a field of the row between two lines begins, by its header or its name.
fn field_line(
    text: &str,
    from: usize,
    to: usize,
    field: usize,
    name: Option<&str>,
) -> Option<usize> {
    match header_line(text, "reg.field", field, from) {
        Some(line) if line < to => Some(line),
        _ => find_line(text, from, to, ("name", name?)),
    }
}

/// The line, from 1, of a row; of its field, whose name is given; and of the first in it with both marks, or the
/// second.
pub(crate) fn line_of(
    text: &str,
    spot: Spot<'_>,
    name: Option<&str>,
    marks: (&str, &str),
) -> Option<usize> {
    let row = header_line(text, spot.array, spot.row, 0)?;
    let to = rows_end(text, row.saturating_add(1));
    let from = match spot.field {
        Some(field) => field_line(text, row, to, field, name).unwrap_or(row),
        None => row,
    };
    let line = find_line(text, from, to, marks)
        .or(find_line(text, from, to, ("", marks.1)))
        .unwrap_or(from);
    Some(line.saturating_add(1))
}

/// The line, from 1, of the first that has this text.
pub(crate) fn line_with(text: &str, wanted: &str) -> Option<usize> {
    Some(find_line(text, 0, usize::MAX, ("", wanted))?.saturating_add(1))
}
