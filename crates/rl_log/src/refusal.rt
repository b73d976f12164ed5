// Why a line is refused.

/// Why a line of a script is refused: this project's own, as its last line says it.
#[derive(Clone, Copy, Debug, PartialEq, Eq)]
pub enum LineRefusal {
    /// More than 4,096 bytes.
    TooLong,
    /// A byte past ASCII.
    NotAscii,
    /// Its first word is no command.
    NoSuchCommand,
    /// Another count of words than the command takes.
    WrongCount,
    /// A word is no name, path or kind.
    BadName,
    /// A word is no number.
    BadNumber,
    /// A number past 64 bits.
    NumberTooLarge,
    /// A burst of none, or of more than 256.
    CountOutOfRange,
    /// A path, map or kind of that name isn't there.
    NoSuchName,
    /// The script has more than 1,000,000 lines.
    TooManyLines,
}
