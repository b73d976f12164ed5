//! Accesses of several masters that are open at once, and whose words go over the bus in any order.
//!
//! Each access goes to another register, through a root map that a predictor watches, as a passive
//! `uvm_reg_predictor` of IEEE 1800.2 does. What a weave is, its refusals and their order, and that a master
//! gives up after a failed word are this project's own.
#![tactic(auto)]

mod access;
mod ending;
mod granting;
mod weave;
mod woven;

pub use access::{Access, WeaveFault};
pub use weave::{Sent, Step, Weave};
