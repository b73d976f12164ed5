//! The register sequences of a register model: hardware reset, bit bash, access, shared access and memory walk.
//!
//! Each stands for a predefined sequence of the UVM library, which its function names. Its exact steps are this
//! project's own.
//!
//! Each goes over the registers or memories within a block, or of the whole chip, in description order, and
//! hands each event to a recorder. A sequence goes on after a bus error.
#![tactic(auto)]

mod choice;
pub mod law;
mod running;
mod sequence;
mod sequences;
mod step;
mod visit;
mod walk;

pub use sequence::Sequence;
pub use sequences::{access_test, bit_bash, hw_reset, mem_walk, shared_access};
