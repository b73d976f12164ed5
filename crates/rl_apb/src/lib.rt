//! The adapter for APB, and the pins of a transfer by cycle, after ARM IHI 0024 with the signals of
//! APB4. Where the standard leaves a choice open, each item says which one is this project's own.
//!
//! Beside these are the two adapters that a program begins with.
#![tactic(auto)]

mod adapter;
mod fresh;
mod pins;

pub use adapter::ApbAdapter;
pub use fresh::fresh_adapters;
pub use pins::{Pins, cycles};
