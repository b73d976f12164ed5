//! A session before it runs: its description, how that is refused, where its items are, and the session of a number.
#![tactic(auto)]

mod digits;
mod layout_text;
mod opening;
mod pieces;
mod refusals;
mod soak;

pub use digits::front;
pub use layout_text::put_layout;
pub use opening::{described, kinds_of, model_of, open};
pub use pieces::push_pieces;
pub use refusals::put_description_refused;
pub use soak::{mirror_sum, put_soak_line, soak_session};
