//! The description of a chip, its maps and the device's flaws, read from TOML.
//!
//! A description that is wrong is refused by the first condition that fails, named by array, row,
//! field and key. The keys and their defaults are this project's own.
#![tactic(auto)]

mod desc;
mod document;
mod fault;
mod flaw;
mod key;
mod read;
mod row;
mod rows;
mod value;
mod words;

pub use desc::{Desc, read_description};
pub use fault::{DescCause, DescFault};
pub use key::Key;
