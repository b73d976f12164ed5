//! Why the accesses are not made.
use rl_indirect::WindowFault;
use rl_map::MapFault;
use rl_model::ModelFault;
use std::alloc::AllocError;
use std::io;
use std::num::ParseIntError;
use thiserror::Error;

#[derive(Debug, Drop, Error)]
pub(crate) enum Fault {
    #[error("[ACCESSES [ENTRIES]] are asked for: {0}")]
    Words(#[from] ParseIntError),
    #[error("no chip: {0:?}")]
    Chip(#[from] ModelFault),
    #[error("no layout: {0:?}")]
    Layout(#[from] MapFault),
    #[error("the chip has no such register")]
    NoRegister,
    #[error("no bank: {0:?}")]
    Bank(#[from] WindowFault),
    #[error(transparent)]
    Memory(#[from(alloc)] AllocError),
    #[error(transparent)]
    Io(#[from] io::Error),
}
