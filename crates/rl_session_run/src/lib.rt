//! A session up to its script, and its end: its head and its description are read, or it is refused and says why; its
//! log is ended.
//!
//! The script of a session that was opened: it is played on the device model or on a device that reports nothing, and
//! what is kept back of its log is written. A whole session on such a device is one call.
//!
//! The session that a number makes, run with nothing written but one line.
#![tactic(auto)]

mod buffered;
mod checking;
mod ending;
mod host;
mod opening;
mod playing;
mod running;
mod soaking;

pub use buffered::end_buffered;
pub use checking::{Check, open_checked};
pub use ending::end_log;
pub use host::{Host, Hosted, run_on};
pub use opening::{open_session, refused};
pub use playing::play_described;
pub use running::run_session;
pub use soaking::put_soak;
