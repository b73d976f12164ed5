//! The model of a chip: registers with their fields, memories, blocks and register files, and reset
//! kinds.
//!
//! `Chip::build` makes a chip of the parts of a description, or names the first condition that they
//! fail. Registers, fields, memories and blocks are then numbers, counted from 0 in description order.
//!
//! Registers, fields, policies, resets by kind and the names of test exclusions are those of IEEE 1800.2.
//! This project's own are the form of names and paths, the numbering, the limits, the conditions and
//! their order.
#![tactic(auto)]

mod backdoor;
mod build;
mod check;
mod chip;
mod effects;
mod fault;
mod limits;
mod name;
mod parts;
mod paths;
mod rows;
mod sets;

pub use check::is_name;
pub use chip::Chip;
pub use fault::{Array, ModelCause, ModelFault, Spot};
pub use name::Name;
pub use parts::{FieldPart, MemPart, Parts, RegPart, ResetPart, ScopePart};
pub use rows::{Field, Item, Reset};
pub use sets::{Rights, Skip};
