//! The accesses that are made: writes and checks in turn, to entries that are far apart.

/// An access by index.
#[derive(Clone, Copy, Debug, PartialEq, Eq)]
pub(crate) enum Access {
    /// Writes an entry.
    Write { entry: u32, value: u64 },
    /// Reads an entry, and compares it with what was written last.
    Check { entry: u32 },
}

// A power of two of entries, at most 65,536, is gone through whole before the first one comes again.
fn entry(number: u32, entries: u32) -> u32 {
    number
        .wrapping_mul(40_503)
        .checked_rem(entries)
        .unwrap_or(0)
}

/// The access of a number. A check reads an entry that was written before, half of the way back to the first one.
pub(crate) fn access_of(number: u32, entries: u32) -> Access {
    let pair = number / 2;
    if number % 2 == 0 {
        let value = u64::from(pair.wrapping_mul(2_654_435_761));
        Access::Write {
            entry: entry(pair, entries),
            value,
        }
    } else {
        Access::Check {
            entry: entry(pair / 2, entries),
        }
    }
}
