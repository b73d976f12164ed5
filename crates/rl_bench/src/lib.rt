//! The device model: a device that obeys a description bit by bit, except where it has a flaw.
//!
//! The access policies are those of IEEE 1800.2; the device model with its beats and flaws is this
//! project's own. A register is kept in two words, its bits and its spent marks, and an item is applied
//! by lane masks and one mask for each effect of a policy.
#![tactic(auto)]

mod access;
mod backdoor;
mod beats;
mod bench;
mod board;
mod build;
mod cells;
mod find;
mod hints;
mod reset;
mod rows;
mod seat;
mod shape;
mod tables;

pub use bench::Bench;
pub use rl_flaw::Flaw;
