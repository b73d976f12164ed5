//! Accesses to the registers and memories of a chip.
//!
//! The operations are those of a register model of IEEE 1800.2: frontdoor accesses over a bus, mirror with
//! check, desired values and updates, the backdoor, memories and bursts, and the predictor that watches the
//! bus. Each call answers an event: the operation, how it ended, the bus items that it sent, and what is then
//! believed of the register.
//!
//! This project's own are the order in which an access sends its words, when an access to a field is narrow, and the
//! value after `set`. So are the word of an update and when one is sent, the neutral word beside a field that is
//! written, and how a predictor gathers words. So are the exact effects of a backdoor read or write, another master's
//! accesses, and every refusal, as that of an access whose place lacks the right.
#![tactic(auto)]

mod access;
mod asking;
mod backdoor;
mod burst;
mod calls;
mod ending;
mod engine;
mod event;
pub mod law;
mod location;
mod model;
mod operation;
mod predictor;
mod recorder;
mod refusal;
mod send;
mod tally;
mod trace;
mod wishes;
mod word;

pub use backdoor::adopt;
pub use burst::{burst_read, burst_write};
pub use calls::{
    back_read, back_write, field_read, field_write, front_read, front_write, hw, mem_check,
    mem_peek, mem_poke, mem_read, mem_write, mirror, other_read, other_write, peek, poke, reset,
    set, show, update,
};
pub use event::{End, Event, Op, Refused, Tally};
pub use model::Model;
pub use operation::{perform, perform_into};
pub use predictor::Predictor;
pub use recorder::Recorder;
pub use trace::{Trace, TraceItem};
pub use word::send_word;
