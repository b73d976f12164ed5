//! A device behind two streams: each transfer goes out as a line, and the line that comes back answers it.
//!
//! What is at the other end, as the bench of an RTL simulator, is the peer. The lines of both directions are this
//! project's own.
//!
//! Runs a session on a device over a link: refuses a flaw, plays the script as if nothing had a backdoor, and says how
//! the link broke.
#![tactic(auto)]

mod answer;
mod by_line;
mod held;
mod host;
mod link;
mod message;
mod names;
mod ran;
mod request;
mod session;
mod talk;

pub use answer::{Cause, Said};
pub use by_line::ByLine;
pub use held::Held;
pub use link::{Break, Link, Streams};
pub use names::Names;
pub use ran::Ran;
pub use session::run_linked;
pub use talk::Talk;
