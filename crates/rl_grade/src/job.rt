// What a line asks for, by the numbers that the chip and the layout give its names.
use rl_access::Op;
use rl_script::{Sequence, Values};

/// What a line of a script asks for.
#[derive(Drop)]
pub enum Job {
    /// One operation.
    One {
        op: Op,
    },
    /// Values to consecutive locations of a memory.
    BurstWrite {
        mem: u32,
        map: Option<u32>,
        first: u64,
        values: Values,
    },
    /// So many consecutive locations of a memory.
    BurstRead {
        mem: u32,
        map: Option<u32>,
        first: u64,
        count: u64,
    },
    /// A sequence, over a block or the whole chip.
    Sequence {
        which: Sequence,
        block: Option<u32>,
    },
}

/// A line of a script that asks for something, by its number, which counts from 1.
#[derive(Drop)]
pub struct Task {
    /// The number of the line.
    pub line: u64,
    /// What it asks for.
    pub job: Job,
}
