//! The operations of an access, and the value that their answers bring.
ghost use Rattle.std.specs.Prelude.{◌≡◌, ◌==◌, ℕ, ◌^◌, ◌<◌, ◌≤◌, false, length, slice_get, Some, IfSome, All};
ghost use Rattle.rl_split.specs.Prelude.{AreInCell, Fits, IsChoice, IsLocation, IsOutgoingOn, all_bytes, all_lanes};
ghost use Rattle.rl_split.specs.Prelude.{bus_bytes_of, joined, kind_of, lanes_for, lanes_of, op_for, ops_in, ops_of};
ghost use Rattle.rl_split.specs.Prelude.{orders_in, orders_of, place_at, sent_as, whole_ops, word_in, words_in};
ghost use Rattle.rl_split.specs.Prelude.{words_of};

use crate::answers::Answers;
use crate::fields::carries_lanes;
use crate::lanes::{lanes_for, lanes_of, lanes_sent};
use crate::words::Words;
use rl_bus::{AdapterKind, BusOp, Lanes};
use rl_map::{Layout, Word};

/// The operation for a word of an access, whose chosen bytes are in these lanes.
fn operation(
    kind: &AdapterKind,
    bus_bytes: u8,
    lanes: &Lanes,
    word: &Word,
    value: u64,
    write: bool,
) -> BusOp
    requires bytes { bus_bytes ≤ 8 }
    requires lanes { AreInCell lanes.now }
    ensures { (chosen : ℕ) → lanes.now ≡ lanes_for chosen word.now
        → result ≡ op_for kind.now bus_bytes chosen value write word.now }
{
    BusOp {
        write,
        address: word.address,
        word: if write { lanes.gather(value) } else { 0 },
        lanes: if carries_lanes(kind, write) {
            lanes.enabled
        } else {
            all_lanes(bus_bytes)
        },
        bytes: bus_bytes,
    }
}

fn all_lanes(bytes: u8) -> u8
    requires { bytes ≤ 8 }
    ensures { result ≡ all_lanes bytes }
{
    ((1u16 << bytes) - 1) as u8
}

/// Whether all bytes of the item at a place are chosen.
fn is_whole(layout: &Layout, place: u32, chosen: u8) -> bool
    requires { place < length layout.now.places }
    ensures { result ≡ (chosen == all_bytes (place_at layout.now place).bytes) }
{
    u16::from(chosen) == (1 << layout.bytes(place)) - 1
}

/// An access to a location of a place, which is sent word by word.
///
/// A word without a chosen byte isn't sent. A write carries each chosen byte of the value in its lane, and 0
/// elsewhere; a read carries 0. The lanes are those of the chosen bytes, or all where the adapter carries no
/// byte enables in the direction.
#[derive(Clone, Copy)]
pub struct Outgoing {
    /// The place that it goes to.
    pub place: u32,
    /// The number of the location; 0 for a register.
    pub index: u32,
    /// Bit `j` says that byte `j` of the item takes part.
    pub chosen: u8,
    /// What a write puts there.
    pub value: u64,
    /// Whether it is a write.
    pub write: bool,
}

/// A word of an access that is sent.
#[derive(Clone, Copy)]
pub struct OutgoingWord {
    /// Its operation.
    pub op: BusOp,
    /// The lanes of its chosen bytes.
    pub lanes: Lanes,
    /// Its place in time among all words of the item.
    pub order: u32,
}

impl Outgoing {
    /// The `k`-th word of the place, counted from 0, as this access sends it; none where it has no chosen byte.
    ///
    /// It is inlined so that neither the word nor its lanes are put down in memory.
    #[inline(always)]
    pub fn word(&self, layout: &Layout, k: u32) -> Option<OutgoingWord>
        requires outgoing { IsOutgoingOn layout.now self.now }
        requires number { k < length (words_in layout.now self.now) }
        ensures word { result ≡ sent_as layout.now self.now (word_in layout.now self.now k) }
        ensures lanes { IfSome result (λ w. AreInCell w.lanes) }
    {
        let port = layout.port_of(self.place);
        prove!(port < layout.ports());
        let kind = layout.port_kind(port);
        let bus_bytes = layout.port_bytes(port) as u8;
        let word = layout.word(self.place, self.index, k);
        let whole = is_whole(layout, self.place, self.chosen);
        let lanes = lanes_sent(&word, self.chosen, whole);
        if lanes.enabled == 0 {
            return None;
        }
        let op = operation(&kind, bus_bytes, &lanes, &word, self.value, self.write);
        Some(OutgoingWord {
            op,
            lanes,
            order: word.order,
        })
    }
}

/// The operations of an access to a location of a place, in the order in which they are sent.
///
/// Each is that of a word which [`Outgoing::word`] gives, in a list.
///
/// # Examples
///
/// A register of 3 bytes is at 0x0 of a little-endian root of 2 bytes, whose adapter carries byte enables.
///
/// ```text
/// let words = split(&layout, 0, 0, 0b111, 0x332211, true);
/// words.len() == 2
/// words.op(0) == BusOp { write: true, address: 0x0, word: 0x2211, lanes: 0b11, bytes: 2 }
/// words.op(1) == BusOp { write: true, address: 0x2, word: 0x0033, lanes: 0b01, bytes: 2 }
/// ```
pub fn split(layout: &Layout, place: u32, index: u32, chosen: u8, value: u64, write: bool) -> Words
    requires location { IsLocation layout.now place index }
    requires chosen { IsChoice (place_at layout.now place).bytes chosen }
    requires value { value < 256 ^ (place_at layout.now place).bytes }
    ensures ops { ops_in result ≡ ops_of layout.now place index chosen value write }
    ensures orders { orders_in result ≡ orders_of layout.now place index chosen }
    ensures some { 0 < length result }
    ensures few { length result ≤ 8 }
    ensures fits { All (Fits (kind_of layout.now place)) (ops_in result) }
{
    prove!(place < layout.places());
    let outgoing = Outgoing {
        place,
        index,
        chosen,
        value,
        write,
    };
    let mut words = Words::new();
    for k in 0..layout.words(place) {
        if let Some(word) = outgoing.word(layout, k) {
            words.push(word.op, word.order);
        }
    }
    words
}

/// The operation of one word of a whole access to a register at a place. `k` is the word's number, counted
/// from 0.
///
/// It is the `k`-th one that `split` gives where all bytes are chosen: each word is sent then, with all its
/// lanes.
pub fn whole_op(layout: &Layout, place: u32, k: u32, value: u64, write: bool) -> BusOp
    requires location { IsLocation layout.now place 0 }
    requires word { k < length (words_of layout.now place 0) }
    ensures op { slice_get (whole_ops layout.now place value write) k ≡ Some result }
    ensures fits { Fits (kind_of layout.now place) result }
    ensures bytes { result.bytes ≡ bus_bytes_of layout.now place }
{
    let port = layout.port_of(place);
    prove!(port < layout.ports());
    let kind = layout.port_kind(port);
    let bus_bytes = layout.port_bytes(port) as u8;
    let word = layout.word(place, 0, k);
    operation(&kind, bus_bytes, &lanes_of(&word), &word, value, write)
}

/// The value that the answers to a read bring: each chosen byte is that of the answer to its word, at its
/// lane there, and every other byte is 0.
///
/// `words` is what `split` gives for a read of this place, `index` and `chosen`, and `answers` has one word
/// for each.
pub fn join(
    layout: &Layout,
    place: u32,
    index: u32,
    chosen: u8,
    words: &Words,
    answers: &Answers,
) -> u64
    requires location { IsLocation layout.now place index }
    requires chosen { IsChoice (place_at layout.now place).bytes chosen }
    requires words { ops_in words.now ≡ ops_of layout.now place index chosen 0 false }
    requires answers { length answers.now ≡ length words.now }
    ensures value { result ≡ joined layout.now place index chosen answers.now }
    ensures fits { result < 256 ^ (place_at layout.now place).bytes }
{
    prove!(place < layout.places());
    let mut value = 0;
    let mut k = 0;
    let mut sent = 0;
    while sent < words.len() {
        let word = layout.word(place, index, k);
        let lanes = lanes_for(&word, chosen);
        if lanes.enabled != 0 {
            value |= lanes.spread(answers.word(sent));
            sent += 1;
        }
        k += 1;
    }
    value
}

/// The value that the answers to a whole read of a register at a place bring: what `join` gives where all
/// bytes are chosen.
///
/// `answers` has one word for each word of the place.
pub fn join_whole(layout: &Layout, place: u32, answers: &Answers) -> u64
    requires location { IsLocation layout.now place 0 }
    requires answers { length answers.now ≡ length (words_of layout.now place 0) }
    ensures value { result ≡ joined layout.now place 0 (all_bytes (place_at layout.now place).bytes) answers.now }
    ensures fits { result < 256 ^ (place_at layout.now place).bytes }
{
    prove!(place < layout.places());
    let mut value = 0;
    for k in 0..answers.len() {
        let word = layout.word(place, 0, k);
        value |= lanes_of(&word).spread(answers.word(k));
    }
    value
}
