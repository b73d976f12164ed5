//! Why a line is refused.
ghost use Rattle.std.specs.Prelude.{◌≡◌};
ghost use Rattle.rl_script.specs.declared.fault.LineFault.TheVariants.{Memory};

use std::alloc::AllocError;
use thiserror::Error;

/// Why a line is refused: the first condition that it fails, in the order of these variants, or want
/// of memory, which may come at any point. A word's own conditions are tested from the left.
///
/// The message of a variant is its name.
#[derive(Clone, Copy, Debug, PartialEq, Eq, Error)]
pub enum LineFault {
    /// More than 4,096 bytes.
    #[error("TooLong")]
    TooLong,
    /// A byte that is no tab and not from space to tilde, in a comment too.
    #[error("NotAscii")]
    NotAscii,
    /// The first word is no command; for `seq` also, the second is no sequence.
    #[error("NoSuchCommand")]
    NoSuchCommand,
    /// Fewer or more operands than the command has.
    #[error("WrongCount")]
    WrongCount,
    /// An operand is no path, or no name, where it should be one.
    #[error("BadName")]
    BadName,
    /// An operand is no number where it should be one.
    #[error("BadNumber")]
    BadNumber,
    /// A number above `2^64-1`.
    #[error("NumberTooLarge")]
    NumberTooLarge,
    /// A burst of no location or of more than 256.
    #[error("CountOutOfRange")]
    CountOutOfRange,
    /// Want of memory.
    #[error("Memory")]
    Memory,
}

/// An allocation that failed, whether or not it hands its value back.
impl<E: Into<AllocError> + Drop> From<E> for LineFault {
    ghost from_gives = { λ _ e. e ≡ Memory };

    fn from(_e: E) -> LineFault {
        LineFault::Memory
    }
}
