//! Tests of what no clause says and no session of a command shows, apart from the crates that they test, since a crate
//! with tests is proved twice. What a session shows is in `crates/test_rows/data`.
//!
//! - `units`: worked values of definitions: the policies, the trail of an operation, the pins of APB, the spelling of a
//!   line, the texts of faults.
//! - `parts`: whole sessions: sources and sinks that fail at each call, the order in which a source, a device and a sink
//!   are used, descriptions of too many rows, and the soak session beside a plain loop.
//! - `accesses`: calls that no command makes: those of one operation, accesses by index, and accesses through regions of
//!   a memory.
#![tactic(auto)]

#[cfg(test)]
mod accesses;
#[cfg(test)]
mod parts;
#[cfg(test)]
mod units;
