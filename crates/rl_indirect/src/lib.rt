//! Indirect registers: an index register and a data register give access to an array of entries.
//!
//! They stand for the indirect registers of IEEE 1800.2 (`uvm_reg_indirect_data`), where an access first writes
//! the index and then goes to the data register. Which registers make a window, what a device and a model keep of
//! the entries, when the data register follows the index, and every refusal are this project's own.
#![tactic(auto)]

mod access;
mod bank;
mod entries;
mod indexed;
mod window;

pub use access::{indexed_read, indexed_write};
pub use bank::Bank;
pub use indexed::Indexed;
pub use window::{Window, WindowFault};
