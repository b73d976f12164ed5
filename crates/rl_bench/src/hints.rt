//! The words that were found last, each in the slot of their address.
ghost use Rattle.std.specs.Prelude.{◌≡◌, ◌<◌, List, length, slice_index_or, IfSome, IfOk, All};
ghost use Rattle.rl_bus.specs.declared.table.WordRow.{WordRow as Words};
ghost use Rattle.rl_bus.specs.Setup.{stands_at};
ghost use Rattle.rl_bench.specs.Stretch.{IsStretch, IsHint, StayHints};

use crate::find::{Stretch, stands_at};
use rl_bus::WordRow;
use std::alloc::{AllocError, Global};

const SLOTS: usize = 4096;

/// The words of the addresses that were found last. Addresses that share a slot drive each other out.
#[derive(Drop)]
pub struct Hints {
    /// 4,096 slots.
    pub slots: Vec<Stretch>,
    ghost full: { length slots.items ≡ 4096 },
}

// The slot of an address: the top 12 bits of a product, which addresses near each other rarely share.
fn slot_of(port: u32, address: u64) -> usize
    ensures { result < 4096 }
{
    let product = address
        .wrapping_add(u64::from(port))
        .wrapping_mul(0x9e37_79b9_7f4a_7c15);
    (product >> 52) as usize
}

// Whether the word at `k` stands at an address of a port.
fn has_address(words: &[WordRow], k: usize, port: u32, address: u64) -> bool
    requires { k < length words.now }
    ensures { (d : Words) → result ≡ stands_at port address (slice_index_or words.now k d) }
{
    stands_at(&words[k], port, address)
}

impl Hints {
    /// Slots that hold nothing.
    pub fn new(alloc: Global) -> Result<Hints, AllocError>
        ensures { (words : List Words) → IfOk result (λ h. All (IsHint words) h.slots.items) }
    {
        let nothing = Stretch { first: 0, end: 0 };
        Ok(Hints {
            slots: vec![in alloc; nothing; SLOTS]?,
        })
    }

    /// The words at an address of a port, where its slot holds them.
    pub fn find(&self, words: &[WordRow], port: u32, address: u64) -> Option<Stretch>
        requires { All (IsHint words.now) self.now.slots.items }
        ensures { IfSome result (λ at. IsStretch (stands_at port address) words.now at.first at.end) }
    {
        let at = self.slots[slot_of(port, address)];
        if at.first < at.end && has_address(words, at.first, port, address) {
            Some(at)
        } else {
            None
        }
    }

    /// Keeps the words at an address of a port in its slot.
    pub fn keep(&mut self, port: u32, address: u64, at: Stretch)
        ensures { StayHints self.old.slots.items self.new.slots.items port address at }
    {
        self.slots[slot_of(port, address)] = at;
    }
}
