//! A plan: a script for a description, which finds each single flaw of its device that a check can show.
//!
//! For each register a word of resets, checks, writes and deposits is chosen by how it can be reached; the word tells
//! apart any two access policies, bit by bit. Which words and which texts these are is this project's own.
//!
//! Of a session with a script those lines are found that the script needs: of each register and memory, where its lines
//! after the script find a flaw first; or of all, where those lines miss one that the lines of all find.
#![tactic(auto)]

mod adding;
mod asked;
mod behind;
mod enough;
pub mod law;
mod lines;
mod memory;
mod needed;
mod places;
mod plan;
mod refusal;
mod register;
mod run;
mod step;
mod target;
mod text;
mod visit;
mod way;

pub use adding::run_added;
pub use asked::{Asked, Wanted, asked_by};
pub use lines::{items_of, lines_text, plan_text};
pub use memory::mem_ops;
pub use plan::{push_further, push_mem, push_reg};
pub use register::{further_ops, reg_ops, sort_of};
pub use run::run_plan;
pub use step::{Sort, Step};
pub use target::{Target, target_of};
pub use text::push_op;
pub use way::{Way, ways_of};
