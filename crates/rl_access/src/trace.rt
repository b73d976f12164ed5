//! The items that an access sent, and what was answered.
ghost use Rattle.std.specs.Prelude.{◌≡◌, ◌<◌, ◌≤◌, ◌∷◌, ◌++◌, [], length, slice_get, Some};

use rl_bus::{Answer, BusOp};
use std::marker::Model;

/// One bus item of an access: the port it went to, the operation, the tag that the adapter gave it, and
/// the answer.
#[derive(Clone, Copy, Debug, PartialEq, Eq)]
pub struct TraceItem {
    /// The port that it went to.
    pub port: u32,
    /// What was asked.
    pub op: BusOp,
    /// The adapter's count when it went out.
    pub tag: u64,
    /// What came back.
    pub answer: Answer,
}

/// An item with its fields by falling size, which takes the least room.
#[derive(Clone, Copy)]
struct Kept {
    address: u64,
    word: u64,
    tag: u64,
    answer: u64,
    port: u32,
    lanes: u8,
    bytes: u8,
    write: bool,
    failed: bool,
}

impl Model for Kept {
    ghost use Rattle.rl_access.specs.declared.trace.TraceItem.{TraceItem};

    ghost Value = { TraceItem };

    ghost view = { λ k. record {
      port = k.port;
      op = record { write = k.write; address = k.address; word = k.word; lanes = k.lanes; bytes = k.bytes };
      tag = k.tag;
      answer = record { word = k.answer; failed = k.failed };
    } };

    ghost inverse = { λ t. record {
      address = t.op.address;
      word = t.op.word;
      tag = t.tag;
      answer = t.answer.word;
      port = t.port;
      lanes = t.op.lanes;
      bytes = t.op.bytes;
      write = t.op.write;
      failed = t.answer.failed;
    } };
}

impl Kept {
    const NOTHING: Kept = Kept {
        address: 0,
        word: 0,
        tag: 0,
        answer: 0,
        port: 0,
        lanes: 0,
        bytes: 0,
        write: false,
        failed: false,
    };

    fn of(item: TraceItem) -> Kept
        ensures { result ≡ item }
    {
        Kept {
            address: item.op.address,
            word: item.op.word,
            tag: item.tag,
            answer: item.answer.word,
            port: item.port,
            lanes: item.op.lanes,
            bytes: item.op.bytes,
            write: item.op.write,
            failed: item.answer.failed,
        }
    }

    fn item(&self) -> TraceItem
        ensures { result ≡ self.now }
    {
        TraceItem {
            port: self.port,
            op: BusOp {
                write: self.write,
                address: self.address,
                word: self.word,
                lanes: self.lanes,
                bytes: self.bytes,
            },
            tag: self.tag,
            answer: Answer {
                word: self.answer,
                failed: self.failed,
            },
        }
    }

    fn has_failed(&self) -> bool
        ensures { result ≡ self.now.answer.failed }
    {
        self.failed
    }
}

/// The items of an access in the order in which they were sent, at most 8.
#[derive(Drop)]
pub struct Trace {
    len: u32,
    items: [Kept; 8],
}

impl Model for Trace {
    ghost use Rattle.std.specs.Prelude.{List, take, ◌≡◌, ◌≤◌, length};
    ghost use Rattle.rl_access.specs.declared.trace.TraceItem.{TraceItem};

    ghost Value = { List TraceItem };

    ghost view = { λ t. take t.len t.items };

    ghost invariant = { λ t. (t.len ≤ 8) × (length t.items ≡ 8) };
}

impl Trace {
    ghost use Rattle.rl_access.specs.Items.{failed_at};

    /// No item.
    pub fn new() -> Trace
        ensures { result ≡ [] }
    {
        Trace {
            len: 0,
            items: [Kept::NOTHING; 8],
        }
    }

    /// Lets its items go.
    pub fn clear(&mut self)
        ensures { self.new ≡ [] }
    {
        self.len = 0;
    }

    /// Takes the items of another trace in place of its own.
    pub fn copy_from(&mut self, other: &Trace)
        ensures { self.new ≡ other.now }
    {
        let len = other.len as usize;
        self.items[..len].copy_from_slice(&other.items[..len]);
        self.len = other.len;
    }

    /// Appends an item.
    pub fn push(&mut self, item: TraceItem)
        requires { length self.old < 8 }
        ensures { self.new ≡ self.old ++ item ∷ [] }
    {
        self.items[self.len as usize] = Kept::of(item);
        self.len += 1;
    }

    /// How many items there are.
    pub fn len(&self) -> u32
        ensures len { result ≡ length self.now }
        ensures few { result ≤ 8 }
    {
        self.len
    }

    /// The item of a number, counted from 0.
    pub fn item(&self, k: u32) -> TraceItem
        requires { k < length self.now }
        ensures { slice_get self.now k ≡ Some result }
    {
        self.items[k as usize].item()
    }

    fn as_slice(&self) -> &[Kept]
        ensures { result.now ≡ self.now }
    {
        &self.items[..self.len as usize]
    }

    fn failed_place(&self) -> Option<usize>
        ensures { result ≡ failed_at self.now }
    {
        self.as_slice().iter().position(|kept| kept.has_failed())
    }

    /// The number of the failed item.
    pub(crate) fn failed_at(&self) -> Option<u32>
        ensures { result ≡ failed_at self.now }
    {
        // A trace that is opened is known to have at most 8 items.
        let _ = &self.len;
        match self.failed_place() {
            Some(word) => Some(word as u32),
            None => None,
        }
    }
}
