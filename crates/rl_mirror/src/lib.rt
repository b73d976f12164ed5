//! What a register model believes of a chip: the mirrored and the desired value of each register, and
//! which write-once fields took their write.
//!
//! Mirrored and desired values, prediction from a write or a read, and updates are notions of IEEE 1800.2, and what a
//! write and a read leave in a field is by its policies. This project's own are the desired value after a `set` and
//! after each prediction, that a read shows nothing of a write-only field, and the spent marks. So are the words that
//! an update and a write of one field among its neighbours send.
#![tactic(auto)]

mod effect;
mod fields;
pub mod law;
mod mirror;
mod resets;

pub use fields::{field_at, field_count, field_number, left_by_read, owned, shown};
pub use mirror::Mirror;
