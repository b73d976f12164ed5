//! A name, as the bytes that it was made of.
use std::marker::Model;

/// A name or a path, as the bytes that a description has for it, whatever they are. `Chip::build`
/// tests them.
#[derive(Debug, Drop)]
pub struct Name {
    text: Vec<u8>,
}

impl Model for Name {
    ghost use Rattle.std.specs.Prelude.{List, ℕ};

    ghost Value = { List ℕ };

    ghost view = { λ n. n.text.items };
}

impl Name {
    ghost use Rattle.std.specs.Prelude.{◌≡◌};

    /// Keeps the bytes.
    pub fn of(text: Vec<u8>) -> Name
        ensures { result ≡ text.items }
    {
        Name { text }
    }

    /// The bytes.
    pub fn text(&self) -> &[u8]
        ensures { result.now ≡ self.now }
    {
        self.text.as_slice()
    }
}
