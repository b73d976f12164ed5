//! Texts, each with the number of its place.
use indexmap::IndexSet;
use std::alloc::{AllocError, Global};
use std::marker::Model;

/// Texts that differ, in the order in which they came.
#[derive(Drop)]
pub struct Paths {
    index: IndexSet<Vec<u8>>,
}

impl Model for Paths {
    ghost use Rattle.std.specs.Prelude.{List, ℕ};
    ghost use Rattle.rl_model.specs.Paths.{texts, AreDistinct};

    ghost Value = { List (List ℕ) };

    ghost view = { λ p. texts p.index.keys };

    ghost invariant = { λ p. AreDistinct (texts p.index.keys) };
}

impl Paths {
    ghost use Rattle.std.specs.Prelude.{◌≡◌, ◌↔◌, ◌<◌, ◌^◌, ◌+◌, ◌++◌, ◌∷◌, ℕ, Some, [], not, length, position};
    ghost use Rattle.std.specs.Prelude.{slice_get, take, IfOk, OnErr, bytes_eq};
    ghost use Rattle.rl_model.specs.Paths.{is_among, with_text, number_in};

    /// No texts.
    pub fn new(alloc: Global) -> Paths
        ensures { result ≡ [] }
    {
        Paths {
            index: IndexSet::new(alloc),
        }
    }

    /// How many texts there are.
    pub fn len(&self) -> usize
        ensures len { result ≡ length self.now }
        ensures small { result < 2 ^ 63 }
    {
        self.index.len()
    }

    /// Adds a text at the end, if it is new, and says which number it has.
    pub fn add(&mut self, text: Vec<u8>) -> Result<usize, AllocError>
        ensures number { IfOk result (λ i. i ≡ number_in self.old text.items) }
        ensures added { IfOk result (λ _. self.new ≡ with_text self.old text.items) }
    {
        let (number, _) = self.index.insert_full(text)?;
        Ok(number)
    }

    /// The number of a text, which goes to the end if it is new. Only a new one is copied.
    pub fn find_or_add(&mut self, alloc: Global, text: &[u8]) -> Result<usize, AllocError>
        ensures number { IfOk result (λ i. i ≡ number_in self.old text.now) }
        ensures added { IfOk result (λ _. self.new ≡ with_text self.old text.now) }
    {
        match self.number(text) {
            Some(number) => Ok(number),
            None => self.add(Vec::from_slice(alloc, text)?),
        }
    }

    /// The number of a text.
    pub fn number(&self, text: &[u8]) -> Option<usize>
        ensures exact { (i : ℕ) → (result ≡ Some i) ↔ (slice_get self.now i ≡ Some text.now) }
        ensures first { result ≡ position (bytes_eq text.now) self.now }
    {
        self.index.get_index_of(text)
    }

    /// Whether a text is one of the first `count`.
    pub fn is_below(&self, text: &[u8], count: usize) -> bool
        ensures { result ≡ is_among text.now (take count self.now) }
    {
        match self.number(text) {
            None => false,
            Some(number) => number < count,
        }
    }

    /// Whether a text is one of them.
    pub fn has(&self, text: &[u8]) -> bool
        ensures { result ≡ is_among text.now self.now }
    {
        self.number(text).is_some()
    }

    /// The text with a number.
    pub fn text(&self, number: usize) -> &[u8]
        requires { number < length self.now }
        ensures { slice_get self.now number ≡ Some result.now }
    {
        self.index[number].as_slice()
    }
}
