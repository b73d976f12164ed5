//! The memory allocation manager: regions of a memory for callers, and accesses that stay inside them.
//!
//! It stands for `uvm_mem_mam` and `uvm_mem_region` of IEEE 1800.2. The order of the refusals and that a
//! request takes the lowest place are this project's own.
#![tactic(auto)]

mod mam;
mod region;
mod search;
mod through;

pub use mam::Mam;
pub use region::{MamFault, Region, RegionFault};
