// The lines of a text in bytes.
use memchr::memchr_iter;

/// Whether a byte ends a line.
pub(crate) fn is_line_end(byte: &u8) -> bool {
    *byte == b'\n'
}

/// A line without the carriage return at its end.
pub(crate) fn without_return(line: &[u8]) -> &[u8] {
    line.strip_suffix(b"\r").unwrap_or(line)
}

/// The line, from 1, of a place in a text.
pub(crate) fn line_number(text: &[u8], place: usize) -> usize {
    let before = text.get(..place).unwrap_or(text);
    memchr_iter(b'\n', before).count().saturating_add(1)
}
