//! The flaws of a device: what it may do otherwise than its description says. They are this project's own.
#![tactic(auto)]

mod flaw;

pub use flaw::Flaw;
