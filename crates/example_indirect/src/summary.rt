//! What the accesses came to.
use rl_access::{End, Event};
use rl_indirect::Indexed;
use std::fmt;

/// Counts of accesses by index, each of which stays at `u64::MAX`, and a sum of the values that were read.
#[derive(Clone, Copy, Debug, Default, PartialEq, Eq)]
pub(crate) struct Summary {
    /// The accesses that were done.
    done: u64,
    /// The reads of another value than the one that was written last.
    differing: u64,
    /// Sum modulo 2 to the power of 64, where each value is added to 31 times the sum before it.
    checksum: u64,
}

impl Summary {
    fn count_read(&mut self, value: u64, differ: u64) {
        self.done = self.done.saturating_add(1);
        if differ != 0 {
            self.differing = self.differing.saturating_add(1);
        }
        self.checksum = self.checksum.wrapping_mul(31).wrapping_add(value);
    }

    fn count_event(&mut self, access: &Event) {
        match access.end {
            End::Done => self.done = self.done.saturating_add(1),
            End::Value { value } => self.count_read(value, access.differ),
            _ => {}
        }
    }

    /// Counts an access.
    pub(crate) fn count(&mut self, indexed: &Indexed) {
        match indexed {
            Indexed::At { index: _, access } => self.count_event(access),
            _ => {}
        }
    }
}

impl fmt::Display for Summary {
    fn fmt<W: fmt::Write>(&self, f: &mut fmt::Formatter<W>) -> fmt::Result {
        writeln!(f, "done: {}", self.done)?;
        writeln!(f, "differing: {}", self.differing)?;
        write!(f, "checksum: {:#018x}", self.checksum)
    }
}
