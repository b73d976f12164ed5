//! The words of an item: the bytes that one bus item carries.
ghost use Rattle.std.specs.Prelude.{◌≡◌, ℕ, ◌+◌, ◌^◌, ◌<◌, ◌≤◌, ◌==◌, List, [], ◌∷◌};
ghost use Rattle.std.specs.Prelude.{◌++◌, ◌*◌, length, take, slice_get, Some, IsTrue, ◌↔◌, All};
ghost use Rattle.std.specs.List.{list_any};
ghost use Rattle.rl_map.specs.Words.{byte_at, address_at, word_of, words_below, seats_of, item_words, words_with};
ghost use Rattle.rl_map.specs.Locations.{all_further};
ghost use Rattle.rl_map.specs.Level.{IsPath};
ghost use Rattle.rl_map.specs.Seat.{AddressesFit, slots};

use crate::find::one_if;
use crate::path::Level;
use crate::seat::{Location, Seat};
use std::marker::Model;

/// The bytes of an item that one bus operation carries.
#[derive(Clone, Copy, Debug, PartialEq, Eq)]
pub struct Word {
    /// The number of the word in time among those of its item; not each number has a word.
    pub order: u32,
    /// The address on the root's bus.
    pub address: u64,
    /// Bit `l` is set where lane `l` has a byte of the item.
    pub lanes: u8,
    /// For each such lane the number of its byte in the item, counted from the lowest, and 0 elsewhere.
    pub bytes: [u8; 8],
}

impl Word {
    ghost use Rattle.rl_map.specs.Locations.{further};

    /// The word of another location of its item: this one, so many steps further.
    pub(crate) fn further(&self, index: u32, step: u64) -> Word
        requires { self.now.address + index * step < 2 ^ 64 }
        ensures { result ≡ further (index * step) self.now }
    {
        Word {
            order: self.order,
            address: self.address + u64::from(index) * step,
            lanes: self.lanes,
            bytes: self.bytes,
        }
    }
}

/// The byte at a lane of the word with an order.
fn byte_at(seats: &[Seat], order: u32, lane: u32) -> Option<u8>
    requires { length seats.now ≤ 8 }
    ensures { result ≡ byte_at seats.now order lane }
{
    for (byte, seat) in seats.iter().enumerate() {
        if seat.order == order && seat.lane == lane {
            return Some(byte as u8);
        }
    }
    None
}

/// The address of the first byte with an order.
fn address_at(seats: &[Seat], order: u32) -> u64
    ensures { result ≡ address_at seats.now order }
{
    for seat in seats {
        if seat.order == order {
            return seat.address;
        }
    }
    0
}

/// Whether a byte has an order.
fn has_order(seats: &[Seat], order: u32) -> bool
    ensures { result ≡ list_any (λ seat. seat.order == order) seats.now }
{
    seats.iter().any(|seat| seat.order == order)
}

/// The word of the bytes with an order.
fn gather(seats: &[Seat], order: u32) -> Word
    requires { length seats.now ≤ 8 }
    ensures { result ≡ word_of seats.now order }
{
    let mut lanes = 0;
    let mut bytes = [0; 8];
    for lane in 0..8 {
        if let Some(byte) = byte_at(seats, order, lane) {
            lanes |= 1 << lane;
            bytes[lane as usize] = byte;
        }
    }
    Word {
        order,
        address: address_at(seats, order),
        lanes,
        bytes,
    }
}

/// The words of an item, in the order in which they are sent.
#[derive(Drop)]
pub(crate) struct Words {
    len: usize,
    words: [Word; 8],
}

impl Model for Words {
    ghost use Rattle.std.specs.Prelude.{◌≡◌, List, length, take, ◌≤◌};
    ghost use Rattle.rl_map.specs.declared.word.Word.{Word};

    ghost Value = { List Word };

    ghost view = { λ words. take words.len words.words };

    ghost invariant = { λ words. (words.len ≤ 8) × (length words.words ≡ 8) };
}

impl Words {
    const NONE: Word = Word {
        order: 0,
        address: 0,
        lanes: 0,
        bytes: [0; 8],
    };

    fn new() -> Words
        ensures { result ≡ [] }
    {
        Words {
            len: 0,
            words: [Words::NONE; 8],
        }
    }

    pub(crate) fn len(&self) -> usize
        ensures count { result ≡ length self.now }
        ensures few { result ≤ 8 }
    {
        self.len
    }

    pub(crate) fn as_slice(&self) -> &[Word]
        ensures words { result.now ≡ self.now }
        ensures few { length result.now ≤ 8 }
    {
        &self.words[..self.len]
    }

    pub(crate) fn get(&self, k: usize) -> Word
        requires { k < length self.now }
        ensures { slice_get self.now k ≡ Some result }
    {
        self.as_slice()[k]
    }

    /// The `beat`-th of the words that are at an address.
    pub(crate) fn nth_at(&self, address: u64, beat: u32) -> Word
        requires { beat < length (words_with address self.now) }
        ensures { slice_get (words_with address self.now) beat ≡ Some result }
    {
        let mut left = beat;
        for word in self.as_slice() {
            if word.address == address {
                if left == 0 {
                    return *word;
                }
                left -= 1;
            }
        }
        unreachable!()
    }

    /// These words so many steps further.
    pub(crate) fn further(&self, index: u32, step: u64) -> Words
        requires { All (λ w. w.address + index * step < 2 ^ 64) self.now }
        ensures { result ≡ all_further (index * step) self.now }
    {
        let mut words = Words::new();
        for word in self.as_slice() {
            words.push(word.further(index, step));
        }
        words
    }

    fn push(&mut self, word: Word)
        requires { length self.old < 8 }
        ensures { self.new ≡ self.old ++ word ∷ [] }
    {
        self.words[self.len] = word;
        self.len += 1;
    }
}

/// The words of the bytes that are at these seats, whose orders are below `slots`.
fn collect(seats: &[Seat], slots: u32) -> Words
    requires { length seats.now ≤ 8 }
    ensures { result ≡ words_below seats.now slots }
{
    let mut words = Words::new();
    for order in 0..slots {
        if has_order(seats, order) {
            words.push(gather(seats, order));
        }
    }
    words
}

impl Location {
    /// How many orders the item's bytes may have by a path.
    fn slots(&self, path: &[Level]) -> u32
        requires path { IsPath path.now }
        requires size { self.now.bytes ≤ 8 }
        ensures { result ≡ slots self.now.bytes path.now }
    {
        let mut slots = 1;
        let mut bytes = self.bytes;
        for map in path {
            slots *= bytes.div_ceil(map.bytes) as u32;
            bytes = map.bytes;
        }
        slots
    }

    /// Whether a byte of the item has an order.
    fn has_order(&self, path: &[Level], order: u32) -> bool
        requires path { IsPath path.now }
        requires size { self.now.bytes ≤ 8 }
        ensures { (base : ℕ) → result ≡ list_any (λ seat. seat.order == order) (seats_of path.now base self.now) }
    {
        for byte in 0..self.bytes {
            if self.climb(path, byte).order == order {
                return true;
            }
        }
        false
    }

    /// How many words the item has.
    pub(crate) fn count(&self, path: &[Level]) -> u32
        requires path { IsPath path.now }
        requires size { self.now.bytes ≤ 8 }
        ensures { (base : ℕ) → result ≡ length (item_words path.now base self.now) }
    {
        let mut count = 0;
        for order in 0..self.slots(path) {
            count += one_if(self.has_order(path, order));
        }
        count
    }

    /// The words of the item, in the order in which they are sent.
    pub(crate) fn words(&self, path: &[Level], base: u64) -> Words
        requires path { IsPath path.now }
        requires size { self.now.bytes ≤ 8 }
        requires fits { AddressesFit path.now base self.now }
        ensures { result ≡ item_words path.now base self.now }
    {
        let mut seats = [Seat::NONE; 8];
        for byte in 0..self.bytes {
            seats[byte as usize] = self.seat(path, base, byte);
        }
        collect(&seats[..self.bytes as usize], self.slots(path))
    }
}
