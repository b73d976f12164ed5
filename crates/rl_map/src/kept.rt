//! The words that a layout keeps of a place.
ghost use Rattle.std.specs.Prelude.{◌≡◌, ℕ, ◌+◌, ◌-◌, ◌*◌, ◌^◌, ◌<◌, ◌≤◌, length, slice_get, slice_index_or, Some, All};
ghost use Rattle.rl_map.specs.Level.{IsPath};
ghost use Rattle.rl_map.specs.Seat.{AddressesFit};
ghost use Rattle.rl_map.specs.Words.{no_word};
ghost use Rattle.rl_map.specs.Locations.{address_of, kept_at, AreStraight, AreLocations};

use crate::path::Level;
use crate::seat::Location;
use crate::word::{Word, Words};

/// The words of a place's first location, and how far apart two neighbouring locations are.
#[derive(Drop)]
pub(crate) struct PlaceWords {
    pub(crate) words: Words,
    pub(crate) step: u64,
}

/// How far location 1 is after location 0.
fn step_of(item: &Location, path: &[Level], base: u64) -> u64
    requires path { IsPath path.now }
    requires some { 0 < item.now.bytes }
    requires most { item.now.bytes ≤ 8 }
    requires behind { address_of path.now base item.now 0 ≤ address_of path.now base item.now 1 }
    requires fits { address_of path.now base item.now 1 < 2 ^ 64 }
    ensures { result ≡ address_of path.now base item.now 1 - address_of path.now base item.now 0 }
{
    let first = item.at(0).seat(path, base, 0);
    let second = item.at(1).seat(path, base, 0);
    second.address - first.address
}

impl PlaceWords {
    /// The words of an item of so many locations.
    pub(crate) fn of(item: &Location, size: u32, path: &[Level], base: u64) -> PlaceWords
        requires path { IsPath path.now }
        requires some { 0 < item.now.bytes }
        requires most { item.now.bytes ≤ 8 }
        requires size { 1 ≤ size }
        requires fits { (index : ℕ) → index < size → AddressesFit path.now base (record item.now { index = index }) }
        requires straight { AreStraight path.now item.now size }
        ensures { AreLocations path.now base item.now size result }
    {
        let words = item.at(0).words(path, base);
        if size == 1 {
            return PlaceWords { words, step: 0 };
        }
        PlaceWords {
            words,
            step: step_of(item, path, base),
        }
    }

    /// How many words each location has.
    pub(crate) fn count(&self) -> u32
        ensures { result ≡ length self.now.words }
    {
        self.words.len() as u32
    }

    /// The `k`-th word of a location.
    pub(crate) fn word(&self, index: u32, k: u32) -> Word
        requires number { k < length self.now.words }
        requires low { (slice_index_or (kept_at self.now index) k no_word).address < 2 ^ 64 }
        ensures { slice_get (kept_at self.now index) k ≡ Some result }
    {
        self.words.get(k as usize).further(index, self.step)
    }

    /// The words of a location.
    pub(crate) fn location(&self, index: u32) -> Words
        requires { All (λ w. w.address + index * self.now.step < 2 ^ 64) self.now.words }
        ensures { result ≡ kept_at self.now index }
    {
        self.words.further(index, self.step)
    }
}
