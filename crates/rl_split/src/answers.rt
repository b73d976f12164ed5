//! The words that came back for the operations of an access.
ghost use Rattle.std.specs.Prelude.{◌≡◌, ◌<◌, ◌++◌, ◌∷◌, [], length, slice_get, Some};

use std::marker::Model;

/// The words of the answers to the operations of an access: at most 8, in the order in which they came.
#[derive(Drop)]
pub struct Answers {
    len: u32,
    words: [u64; 8],
}

impl Model for Answers {
    ghost use Rattle.std.specs.Prelude.{◌≡◌, ◌≤◌, ℕ, List, length, take};

    ghost Value = { List ℕ };

    ghost view = { λ a. take a.len a.words };

    ghost invariant = { λ a. (a.len ≤ 8) × (length a.words ≡ 8) };
}

impl Answers {
    /// No answer so far.
    pub fn new() -> Answers
        ensures { result ≡ [] }
    {
        Answers {
            len: 0,
            words: [0; 8],
        }
    }

    /// Appends the word of one more answer.
    pub fn push(&mut self, word: u64)
        requires { length self.old < 8 }
        ensures { self.new ≡ self.old ++ word ∷ [] }
    {
        self.words[self.len as usize] = word;
        self.len += 1;
    }

    /// How many words there are.
    pub fn len(&self) -> u32
        ensures { result ≡ length self.now }
    {
        self.len
    }

    pub(crate) fn word(&self, k: u32) -> u64
        requires { k < length self.now }
        ensures { slice_get self.now k ≡ Some result }
    {
        self.words[k as usize]
    }
}
