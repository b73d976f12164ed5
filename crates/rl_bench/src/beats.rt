//! The beats of a device, with the first word of each address.
ghost use Rattle.std.specs.Prelude.{◌≡◌, ℕ, ◌<◌, ◌≤◌, ◌^◌, ◌==◌, nat_lt, length, false};
ghost use Rattle.std.specs.Prelude.{slice_index, slice_set, if◌then◌else◌, IfOk, replicate, List, Bool};
ghost use Rattle.rl_bus.specs.declared.table.WordRow.{WordRow as Words};
ghost use Rattle.rl_bus.specs.Setup.{stands_at};
ghost use Rattle.rl_bench.specs.Beats.{AreQueuesOf, SendsBack, beats_of, count_for};
ghost use Rattle.rl_bench.specs.Stretch.{IsStretch, AreOrdered};

use crate::find::{Stretch, find_word, words_beside};
use rl_bus::WordRow;
use std::alloc::{AllocError, Global};

/// An address where words queue, by its first word, and a place that has a word there.
///
/// Words queue at an address where more than one has the same direction.
#[derive(Clone, Copy)]
pub struct Queue {
    /// The number of the first word at the address.
    pub first: u32,
    /// The number of the place.
    pub place: u32,
}

/// The beat of the address where these words are.
pub fn beat_at(beats: &[u32], at: Stretch) -> u32
    ensures { result ≡ (if nat_lt at.first at.end then slice_index beats.now at.first else 0) }
{
    if at.first < at.end {
        beats.get(at.first).copied().unwrap_or(0)
    } else {
        0
    }
}

/// Sets the beat at a row, where the list reaches that far.
fn set_at(beats: &mut [u32], row: usize, value: u32)
    ensures { beats.new ≡ slice_set beats.old row value }
{
    if row < beats.len() {
        beats[row] = value;
    }
}

/// Sets the beat of the address where these words are.
pub fn set_beat(beats: &mut [u32], at: Stretch, value: u32)
    ensures { beats.new ≡ (if nat_lt at.first at.end then slice_set beats.old at.first value else beats.old) }
{
    if at.first < at.end {
        set_at(beats, at.first, value);
    }
}

/// Sets the beats of a place to 0. Only where words queue there is another beat.
pub fn send_back(queues: &[Queue], beats: &mut [u32], place: u32)
    ensures { SendsBack queues.now place beats.old beats.new }
{
    for queue in queues {
        if queue.place == place {
            set_at(beats, queue.first as usize, 0);
        }
    }
}

/// Sets all beats to 0.
pub fn clear_beats(beats: &mut [u32])
    ensures { (words : List Words) (p a : ℕ) → beats_of words beats.new p a ≡ 0 }
{
    beats.fill(0);
}

/// A beat of 0 for each word, or none at all where no words queue.
pub fn first_beats(alloc: Global, words: usize, queues: &[Queue]) -> Result<Vec<u32>, AllocError>
    ensures { IfOk result (λ beats. beats.items ≡ replicate (if length queues.now == 0 then 0 else words) 0) }
{
    let count = if queues.is_empty() { 0 } else { words };
    vec![in alloc; 0; count]
}

/// Whether words queue at the address of a word.
fn is_queued(words: &[WordRow], at: Stretch, word: &WordRow) -> bool
    requires { IsStretch (stands_at word.now.port word.now.address) words.now at.first at.end }
    ensures { result ≡ false → (write : Bool) → count_for words.now word.now.port word.now.address write ≤ 1 }
{
    if at.end - at.first <= 1 {
        return false;
    }
    let reads = find_word(words, at, word.port, word.address, false, 0);
    let writes = find_word(words, at, word.port, word.address, true, 0);
    reads.count > 1 || writes.count > 1
}

/// The addresses where words queue.
pub fn queues_of(alloc: Global, words: &[WordRow]) -> Result<Vec<Queue>, AllocError>
    requires rise { AreOrdered words.now }
    requires few { length words.now < 2 ^ 32 }
    ensures { IfOk result (λ queues. AreQueuesOf words.now queues.items) }
{
    let mut queues = Vec::new(alloc);
    for k in 0..words.len() {
        let word = words[k];
        let at = words_beside(words, k);
        if is_queued(words, at, &word) {
            queues.push(Queue {
                first: at.first as u32,
                place: word.place,
            })?;
        }
    }
    Ok(queues)
}
