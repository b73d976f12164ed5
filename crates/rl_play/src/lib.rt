//! Plays a script: reads its lines, runs each on a device, and writes and counts what happens.
#![tactic(auto)]

mod buffered;
mod line;
mod log;
mod playing;
mod recorder;
mod resolve;
mod texts;
mod unbuffered;

pub use buffered::{Buffered, Earlier};
pub use log::Log;
pub use playing::{MOST_LINES, Turn, end, is_end, is_too_long, play, play_lines, take_line};
pub use resolve::{block_asked, map_asked, mem_at, op_of};
pub use texts::{put_line_refused, put_refused_so, refusal_of};
pub use unbuffered::Unbuffered;
