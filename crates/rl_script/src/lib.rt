//! The lines of a register script: read into what they say, and written in their canonical spelling.
//!
//! A line is a command and its operands, separated by spaces or tabs; a word that begins with `#`
//! and all after it is a comment. The commands are those of a register model (IEEE 1800.2), their
//! spelling is this project's own.
#![tactic(auto)]

mod command;
mod fault;
mod law;
mod line;
mod line_ref;
mod names;
mod operands;
mod read;
mod values;
mod words;
mod write;

pub use command::{Command, Item, Kind, Row};
pub use fault::LineFault;
pub use law::{spelling_is_short, spelling_reads};
pub use line::{Line, Sequence};
pub use line_ref::{ItemLine, LineRef};
pub use names::{Ident, IdentRef, Path, PathRef};
pub use read::{read_line, read_line_ref};
pub use values::Values;
pub use write::write_line;
