//! The text of a grading. It has a line for each register, field, memory and the session, which counts the flaws found,
//! missed, hidden and waived and names those that aren't found. Or it has each flaw that is missed, hidden, waived or
//! found as a row of a description, or how many flaws each line of the script finds first. Or it is all of it as one
//! object in JSON.
//!
//! The grading of a session: refuses what can't be graded, tries the flaws place by place, and writes what was found.
//! A file of waivers names flaws that are known and accepted.
//!
//! The shares of a grading, added to the last line of the whole.
#![tactic(auto)]

mod add;
mod asked;
mod call;
mod counts;
mod ending;
mod facts;
mod firsts;
mod grading;
mod groups;
mod json;
mod judging;
mod keys;
mod kind;
pub mod law;
mod line;
mod mark;
mod members;
mod pieces;
mod places;
mod refusal;
mod row;
pub mod row_law;
mod said;
mod shares;
mod sums;
mod totals;
mod verdict;
mod waivers;
mod waiving;
mod whole;
mod writing;

pub use add::run_add;
pub use asked::{Asked, Tell, asked_by};
pub use call::{Call, call_by};
pub use ending::exit_code;
pub use facts::Facts;
pub use firsts::push_lines;
pub use grading::run_grade;
pub use json::push_json;
pub use line::push_line;
pub use mark::mark_of;
pub use rl_grade::Meter;
pub use row::{push_found_rows, push_rows};
pub use totals::{Totals, push_end};
pub use verdict::{Judged, Verdict};
pub use whole::read_all;
