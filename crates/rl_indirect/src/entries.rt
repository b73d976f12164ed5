//! The entries of one side of a window.
ghost use Rattle.std.specs.Prelude.{◌≡◌, ◌<◌, ◌≤◌, ◌==◌, IfOk, length, slice_index};
ghost use Rattle.rl_indirect.specs.Bank.{all_entries, settled, moved};

use std::alloc::{AllocError, Global};
use std::marker::Model;

/// The entries of the device, or those of the model. The data register holds the selected one, and what is kept of
/// that one here is of no meaning.
#[derive(Drop)]
pub(crate) struct Entries {
    kept: Vec<u64>,
    selected: u32,
}

impl Model for Entries {
    ghost use Rattle.rl_indirect.specs.Bank.{EntryData, AreEntries};

    ghost Value = { EntryData };

    ghost view = { λ e. record { kept = e.kept.items; selected = e.selected } };

    ghost invariant = { λ e. AreEntries (record { kept = e.kept.items; selected = e.selected }) };
}

impl Entries {
    /// So many entries that are all alike.
    pub(crate) fn new(
        alloc: Global,
        value: u64,
        size: u32,
        selected: u32,
    ) -> Result<Entries, AllocError>
        requires size { size ≤ 65536 }
        requires selected { selected < size }
        ensures { IfOk result (λ e. e ≡ all_entries value size selected) }
    {
        Ok(Entries {
            kept: vec![in alloc; value; size as usize]?,
            selected,
        })
    }

    /// Whether an entry is the one that the data register holds.
    pub(crate) fn is_selected(&self, k: u32) -> bool
        ensures { result ≡ (k == self.now.selected) }
    {
        k == self.selected
    }

    /// An entry that the data register doesn't hold.
    pub(crate) fn kept(&self, k: u32) -> u64
        requires { k < length self.now.kept }
        ensures { result ≡ slice_index self.now.kept k }
    {
        self.kept[k as usize]
    }

    /// Follows an index. Where it is that of another entry, what the data register holds is kept, and the entry that is
    /// to go there is answered.
    pub(crate) fn follow(&mut self, held: u64, index: u64) -> Option<u64>
        ensures entries { self.new ≡ settled self.old held index }
        ensures entry { result ≡ moved self.old index }
    {
        if index >= self.kept.len() as u64 || index == u64::from(self.selected) {
            return None;
        }
        let value = self.kept[index as usize];
        self.kept[self.selected as usize] = held;
        self.selected = index as u32;
        Some(value)
    }
}
