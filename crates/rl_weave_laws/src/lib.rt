//! Laws of weaves: on a device without flaws, accesses of several masters whose words go over the bus in any
//! order are each one step of its register.
//!
//! The crate has no code that runs. That a plain machine, which steps whole registers, tells all that such
//! masters see is this project's own.
//!
//! Laws of the log of woven groups: on a device that does as described, a group writes the event lines that the plain
//! machine has for its accesses, in some order.
//!
//! The crate has no code that runs. That the order in which words go over the bus is told by nothing but the order of
//! the lines is this project's own.
#![tactic(auto)]

pub mod log_law;
pub mod word_law;
