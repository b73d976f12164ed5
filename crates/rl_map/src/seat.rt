//! The seat of one byte.
ghost use Rattle.std.specs.Prelude.{◌≡◌};
ghost use Rattle.std.specs.List.{list_any};

use crate::path::Level;

/// A register, or one location of a memory, in its own map.
#[derive(Clone, Copy)]
pub(crate) struct Location {
    /// The size in bytes, from 1 to 8.
    pub(crate) bytes: u64,
    /// Where location 0 is in the item's own map.
    pub(crate) offset: u64,
    /// The location; 0 for a register.
    pub(crate) index: u32,
}

/// Where one byte of a register or of a location of a memory is on the bus.
///
/// The order of words in time and the lanes of narrower maps are this project's own.
#[derive(Clone, Copy, Debug, PartialEq, Eq)]
pub struct Seat {
    /// The number in time of the byte's word among those of its item; bytes with one order share a word.
    pub order: u32,
    /// The address on the root's bus.
    pub address: u64,
    /// The byte of the bus word, counted from the lowest.
    pub lane: u32,
}

/// One byte of an access of `bytes` bytes, on its way up a path.
#[derive(Clone, Copy)]
pub(crate) struct Access {
    /// The width of the access.
    pub(crate) bytes: u64,
    /// `address` counts words of the access's width, and not bytes.
    pub(crate) word: bool,
    /// What the next map adds, in its unit of addresses.
    pub(crate) offset: u64,
    pub(crate) address: u128,
    /// The byte of the access.
    pub(crate) byte: u64,
    /// The time order of the access among those of its item.
    pub(crate) order: u32,
}

impl Seat {
    /// A seat for a place of an array that has none yet.
    pub(crate) const NONE: Seat = Seat {
        order: 0,
        address: 0,
        lane: 0,
    };
}

impl Access {
    ghost use Rattle.std.specs.Prelude.{◌≡◌, ℕ, ◌<◌, ◌≤◌, ◌^◌};
    ghost use Rattle.rl_bus.specs.Lanes.{IsWidth};
    ghost use Rattle.rl_map.specs.Access.{IsAccess, carried, through};

    /// Where the access starts in the map above, before the offset.
    fn carried(self, level: &Level) -> u128
        requires access { IsAccess self }
        requires width { IsWidth level.now.bytes }
        requires address_fits { self.address < 2 ^ 100 }
        ensures { result ≡ carried self level.now }
    {
        let count = u128::from(self.bytes.div_ceil(level.bytes));
        if self.word {
            self.address * count * u128::from(level.stride())
        } else if level.word {
            self.address / u128::from(self.bytes) * count
        } else {
            self.address
        }
    }

    /// The byte of the map above that this byte is.
    pub(crate) fn through(self, level: &Level) -> Access
        requires access { IsAccess self }
        requires width { IsWidth level.now.bytes }
        requires address_fits { self.address < 2 ^ 100 }
        requires order_fits { self.order < 2 ^ 24 }
        ensures value { result ≡ through self level.now }
        ensures offset_fits { result.offset < 2 ^ 64 }
    {
        let count = self.bytes.div_ceil(level.bytes);
        let chunk = self.byte / level.bytes;
        let start = u128::from(self.offset) + self.carried(level);
        Access {
            bytes: level.bytes,
            word: level.word,
            offset: level.offset,
            address: level.kind.address(start, level.stride(), count, chunk),
            byte: self.byte % level.bytes,
            order: self.order * count as u32 + level.kind.place_in_time(count, chunk) as u32,
        }
    }
}

/// Whether a map of the path is word-addressed.
fn has_word_map(path: &[Level]) -> bool
    ensures { result ≡ list_any (λ level. level.word) path.now }
{
    path.iter().any(|level| level.word)
}

impl Location {
    ghost use Rattle.std.specs.Prelude.{◌≡◌, ◌↔◌, ℕ, ◌<◌, ◌≤◌, ◌^◌, IsTrue};
    ghost use Rattle.rl_map.specs.Level.{IsPath};
    ghost use Rattle.rl_map.specs.Access.{climb};
    ghost use Rattle.rl_map.specs.Faults.{is_askew};
    ghost use Rattle.rl_map.specs.Seat.{access_of, seat_of, AddressesFit};

    /// Another location of the same item.
    pub(crate) fn at(&self, index: u32) -> Location
        ensures { result ≡ record self.now { index = index } }
    {
        Location {
            bytes: self.bytes,
            offset: self.offset,
            index,
        }
    }

    /// A byte of the item, as one of the access that the item's own map gets.
    fn access(&self, byte: u64) -> Access
        ensures { result ≡ access_of self.now byte }
    {
        Access {
            bytes: self.bytes,
            word: true,
            offset: self.offset,
            address: u128::from(self.index),
            byte,
            order: 0,
        }
    }

    /// The byte of the root's access that a byte of the item is, by a path.
    pub(crate) fn climb(&self, path: &[Level], byte: u64) -> Access
        requires path { IsPath path.now }
        requires byte_in { byte < self.now.bytes }
        requires size { self.now.bytes ≤ 8 }
        ensures value { result ≡ climb (access_of self.now byte) path.now }
        ensures address_fits { result.address < 2 ^ 100 }
        ensures lane_in { result.byte < 8 }
    {
        let mut access = self.access(byte);
        for level in path {
            access = access.through(level);
        }
        access
    }

    /// Whether a byte-addressed map on the way is in a word-addressed one off a multiple of its width.
    pub(crate) fn is_askew(&self, path: &[Level], byte: u64) -> bool
        requires path { IsPath path.now }
        requires byte_in { byte < self.now.bytes }
        requires size { self.now.bytes ≤ 8 }
        ensures { result ≡ is_askew (access_of self.now byte) path.now }
    {
        has_word_map(path) && self.meets_askew(path, byte)
    }

    // Whether some level stands so on the way, level by level.
    fn meets_askew(&self, path: &[Level], byte: u64) -> bool
        requires path { IsPath path.now }
        requires byte_in { byte < self.now.bytes }
        requires size { self.now.bytes ≤ 8 }
        ensures { result ≡ is_askew (access_of self.now byte) path.now }
    {
        let mut access = self.access(byte);
        for level in path {
            if !access.word && level.word && access.address % u128::from(access.bytes) != 0 {
                return true;
            }
            access = access.through(level);
        }
        false
    }

    /// Where a byte of the item is on the bus, by a path whose root begins at `base`.
    pub(crate) fn seat(&self, path: &[Level], base: u64, byte: u64) -> Seat
        requires path { IsPath path.now }
        requires byte_in { byte < self.now.bytes }
        requires size { self.now.bytes ≤ 8 }
        requires fits { (seat_of path.now base self.now byte).address < 2 ^ 64 }
        ensures { result ≡ seat_of path.now base self.now byte }
    {
        let access = self.climb(path, byte);
        Seat {
            order: access.order,
            address: (u128::from(base) + access.address) as u64,
            lane: access.byte as u32,
        }
    }
}
