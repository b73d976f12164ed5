//! What the five sequences find.
//!
//! The functions of this crate do nothing; their contracts are laws of the events that a sequence hands over. Over a
//! device and a model that agree none names a field, and over a device with a flaw one of them shows it. So a session
//! whose script has a line with that sequence finds the flaw.
#![tactic(auto)]

pub mod law;
pub mod session_law;
