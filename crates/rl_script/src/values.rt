//! The values of a burst.
use std::marker::Model;

/// The values of a burst, 1 to 256 numbers, one for each location.
#[derive(Debug, Drop)]
pub struct Values {
    items: Vec<u64>,
}

impl Model for Values {
    ghost use Rattle.std.specs.Prelude.{List, ℕ, IsTrue};
    ghost use Rattle.rl_script.specs.Names.{is_values};

    ghost Value = { List ℕ };

    ghost view = { λ v. v.items.items };

    ghost invariant = { λ v. IsTrue (is_values v.items.items) };
}

impl Values {
    ghost use Rattle.std.specs.Prelude.{◌≡◌, if◌then◌else◌, Some, None, IsTrue};
    ghost use Rattle.rl_script.specs.Names.{is_values};

    /// The values, where they are so many.
    pub fn of(items: Vec<u64>) -> Option<Values>
        ensures { result ≡ (if is_values items.items then Some items.items else None) }
    {
        if matches!(items.len(), 1..=256) {
            Some(Values { items })
        } else {
            None
        }
    }

    /// The values in order.
    pub fn items(&self) -> &[u64]
        ensures items { result.now ≡ self.now }
        ensures count { IsTrue (is_values result.now) }
    {
        self.items.as_slice()
    }
}
