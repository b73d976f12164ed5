//! Registers as wholes.
//!
//! An access over the bus goes through maps, widths, byte orders and words, and the device takes it item by
//! item. On a device without flaws all this is one step of the whole register, or in a narrow access of its
//! one field. The functions of this crate do nothing; their contracts say so of what each call performs.
#![tactic(auto)]

pub mod law;
