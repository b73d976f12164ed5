//! The operations of an access.
ghost use Rattle.std.specs.Prelude.{◌≡◌, ◌<◌, ◌++◌, ◌∷◌, [], length, slice_get, Some};
ghost use Rattle.rl_split.specs.Lists.{ops_in, orders_in};

use rl_bus::BusOp;
use std::marker::Model;

/// An operation with the order of its word, its fields by falling size, which takes the least room.
#[derive(Clone, Copy)]
struct Kept {
    address: u64,
    word: u64,
    order: u32,
    lanes: u8,
    bytes: u8,
    write: bool,
}

impl Model for Kept {
    ghost use Rattle.std.specs.Prelude.{ℕ};
    ghost use Rattle.rl_bus.specs.declared.op.BusOp.{BusOp};

    ghost Value = { BusOp × ℕ };

    ghost view = { λ k.
        (record { write = k.write; address = k.address; word = k.word; lanes = k.lanes; bytes = k.bytes }, k.order) };

    ghost inverse = { λ p.
        record {
          address = p.0.address;
          word = p.0.word;
          order = p.1;
          lanes = p.0.lanes;
          bytes = p.0.bytes;
          write = p.0.write;
        } };
}

impl Kept {
    const NOTHING: Kept = Kept {
        address: 0,
        word: 0,
        order: 0,
        lanes: 0,
        bytes: 0,
        write: false,
    };

    fn of(op: BusOp, order: u32) -> Kept
        ensures { result ≡ (op, order) }
    {
        Kept {
            address: op.address,
            word: op.word,
            order,
            lanes: op.lanes,
            bytes: op.bytes,
            write: op.write,
        }
    }

    fn op(&self) -> BusOp
        ensures { result ≡ self.now.0 }
    {
        BusOp {
            write: self.write,
            address: self.address,
            word: self.word,
            lanes: self.lanes,
            bytes: self.bytes,
        }
    }

    fn order(&self) -> u32
        ensures { result ≡ self.now.1 }
    {
        self.order
    }
}

/// The operations of an access, each with the order of its word: at most 8, in the order in which they
/// are sent.
#[derive(Drop)]
pub struct Words {
    len: u32,
    items: [Kept; 8],
}

impl Model for Words {
    ghost use Rattle.std.specs.Prelude.{◌≡◌, ◌≤◌, ℕ, List, length, take};
    ghost use Rattle.rl_bus.specs.declared.op.BusOp.{BusOp};

    ghost Value = { List (BusOp × ℕ) };

    ghost view = { λ w. take w.len w.items };

    ghost invariant = { λ w. (w.len ≤ 8) × (length w.items ≡ 8) };
}

impl Words {
    // No operation so far.
    pub(crate) fn new() -> Words
        ensures { result ≡ [] }
    {
        Words {
            len: 0,
            items: [Kept::NOTHING; 8],
        }
    }

    pub(crate) fn push(&mut self, op: BusOp, order: u32)
        requires { length self.old < 8 }
        ensures { self.new ≡ self.old ++ (op, order) ∷ [] }
    {
        self.items[self.len as usize] = Kept::of(op, order);
        self.len += 1;
    }

    /// How many operations there are.
    pub fn len(&self) -> u32
        ensures { result ≡ length self.now }
    {
        self.len
    }

    /// The `k`-th operation, counted from 0.
    pub fn op(&self, k: u32) -> BusOp
        requires { k < length self.now }
        ensures { slice_get (ops_in self.now) k ≡ Some result }
    {
        self.items[k as usize].op()
    }

    /// The order of the word of the `k`-th operation: its place in time among all words of the item.
    pub fn order(&self, k: u32) -> u32
        requires { k < length self.now }
        ensures { slice_get (orders_in self.now) k ≡ Some result }
    {
        self.items[k as usize].order()
    }
}
