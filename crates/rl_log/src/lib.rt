//! What a log says: the definitions of the judged log of a script, and the counts, statuses and refusals that it has.
#![tactic(auto)]

mod counts;
pub mod law;
mod refusal;
mod status;

pub use counts::Counts;
pub use refusal::LineRefusal;
pub use status::Status;
