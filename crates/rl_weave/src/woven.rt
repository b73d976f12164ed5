//! An access of a weave under way.
ghost use Rattle.std.specs.Prelude.{◌≡◌, ◌<◌, ◌++◌, ◌∷◌, [], length};
ghost use Rattle.rl_weave.specs.Weave.{is_over};

use crate::access::Access;
use rl_access::{Trace, TraceItem};

/// An access with its place, how many words it has, and the items that were sent so far.
#[derive(Drop)]
pub(crate) struct Woven {
    pub(crate) access: Access,
    pub(crate) place: u32,
    pub(crate) words: u32,
    pub(crate) items: Trace,
}

impl Woven {
    /// Whether an item is the last one: it failed, or no word is left.
    pub(crate) fn is_over(&self, item: &TraceItem) -> bool
        requires { length self.now.items < self.now.words }
        ensures { result ≡ is_over self.now item.now }
    {
        item.answer.failed || self.items.len() + 1 == self.words
    }

    /// Gives its items away, with a last one.
    pub(crate) fn give_items(&mut self, item: TraceItem, trace: &mut Trace)
        requires { length self.old.items < 8 }
        ensures items { trace.new ≡ self.old.items ++ item ∷ [] }
        ensures left { self.new ≡ record self.old { items = [] } }
    {
        trace.copy_from(&self.items);
        trace.push(item);
        self.items.clear();
    }
}
