// A short name.
ghost use Rattle.std.specs.Prelude.{◌≡◌, ◌≤◌, ◌<◌, ◌⊎◌, ◌↔◌, length, IsNone, IfSome};

use std::marker::Model;

/// A name of 1 to 16 bytes.
#[derive(Clone, Copy, Debug, PartialEq, Eq)]
pub struct ShortName {
    len: u8,
    bytes: [u8; 16],
}

impl Model for ShortName {
    ghost use Rattle.std.specs.Prelude.{List, ℕ};

    ghost Value = { List ℕ };

    ghost use Rattle.rl_bus.specs.Name.{text_of, IsName, name_of, name_of-text_of};

    ghost view = { text_of };

    ghost invariant = { IsName };

    ghost inverse = { name_of };

    ghost inverse_ok = { name_of-text_of };
}

impl ShortName {
    /// The name with this text, where it has 1 to 16 bytes.
    pub fn of(text: &[u8]) -> Option<ShortName>
        ensures none { IsNone result ↔ ((length text.now ≡ 0) ⊎ (16 < length text.now)) }
        ensures some { IfSome result (λ name. name ≡ text.now) }
    {
        if text.is_empty() || text.len() > 16 {
            return None;
        }
        let mut bytes = [0; 16];
        bytes[..text.len()].copy_from_slice(text);
        Some(ShortName {
            len: text.len() as u8,
            bytes,
        })
    }

    /// Its bytes.
    pub fn text(&self) -> &[u8]
        ensures { result.now ≡ self.now }
    {
        &self.bytes[..self.len as usize]
    }
}
