//! What a session's text and its log are.
//!
//! The functions of this crate do nothing; their contracts are the laws, of the definitions alone: they hold of each
//! session, whether it was run or not.
//!
//! What a description without a fault describes is sound, and so the judged log of every session is, without its
//! items, that of the plain machine, which steps whole registers. The session that `regrun::soak_session` makes from
//! a number has the registers, maps, places and operations that are meant.
#![tactic(auto)]

pub mod plain_law;
pub mod soak_law;
pub mod sound_law;
