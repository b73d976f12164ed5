//! Plays a script whose lines are accesses of several masters, group by group, with the words of a group woven.
//!
//! A group ends at a blank line or at the end of the input. A generator draws, for each word, the access that sends
//! it. Groups, the further reasons of a refused line and the draws are this project's own.
#![tactic(auto)]

mod adding;
mod draws;
mod group;
mod refusal;
mod script;
mod taking;
mod weaving;

pub use refusal::WovenRefusal;
pub use weaving::weave_lines;
