//! Runs a session of the register layer: reads a description and a script, drives the bus and writes the log.
#![tactic(auto)]

mod running;
mod showing;
mod tasks;
mod top;
mod weaving;
mod words;

pub use rl_log::{Counts, Status};
pub use rl_play::play;
pub use rl_session::soak_session;
pub use top::regrun;
