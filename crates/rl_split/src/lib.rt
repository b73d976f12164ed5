//! The bus operations of a register or memory access: which words it sends, what each carries, and what
//! their answers bring.
//!
//! An access goes to a place of a layout. It sends the words of the place that have a chosen byte, in their
//! order in time. The narrow form of a field access chooses the bytes of the field alone, as byte enables
//! allow it.
//!
//! That a wide item goes over a narrow bus in several operations, by the endian kinds, follows IEEE 1800.2.
//! This project's own are the order of the words in time, what is in lanes that aren't chosen, the
//! conditions of a narrow access, and the laws.
#![tactic(auto)]

mod access;
mod answers;
mod fields;
mod lanes;
pub mod law;
mod words;

pub use access::{Outgoing, OutgoingWord, join, join_whole, split, whole_op};
pub use answers::Answers;
pub use fields::narrow;
pub use words::Words;
