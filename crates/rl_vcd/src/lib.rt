//! The pins of APB transfers by clock as a Value Change Dump (IEEE 1364).
//!
//! A transfer and an event as text in memory; a dump behind a sink of its own; and a whole session, with its log and
//! the dump of its APB items.
#![tactic(auto)]

mod dump;
mod header;
mod item;
mod label;
pub mod law;
mod pins;
mod recorder;
mod run;
mod script;
mod sequence;
mod session;
mod text;
mod wave;

pub use dump::{Dump, Fault};
pub use header::NamedBus;
pub use pins::Bus;
pub use run::{Ran, run_waves};
pub use wave::{DrawFault, Wave};
