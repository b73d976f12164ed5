//! Input and output of a report: sources and sinks that count their faults, and lines over a source.
#![tactic(auto)]

mod event;
mod item;
pub mod law;
mod lines;
mod macros;
mod memory;
mod numbers;
mod opening;
mod operation;
mod outcome;
mod pieces;
mod sink;
mod source;
mod standard;
mod telling;
mod text;
mod window;

pub use event::{write_event, write_event_line};
pub use item::write_item;
pub use lines::{Got, LineReader};
pub use memory::{MemSink, MemSource};
pub use opening::{Head, HeadFault};
pub use pieces::{put_all, put_pieces};
pub use rl_bus::Failed;
pub use sink::Sink;
pub use source::Source;
pub use standard::{StdSink, StdSource};
pub use text::Text;
pub use window::{copy_front, refill};
