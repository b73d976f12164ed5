//! What an access by index answers.
ghost use Rattle.std.specs.Prelude.{◌≡◌};
ghost use Rattle.rl_indirect.specs.Indexed.{is_done};

use rl_access::{End, Event};

/// How far an access by index came. The names are this project's own.
#[derive(Drop)]
pub enum Indexed {
    /// There is no such entry, and nothing was sent.
    NoSuchEntry,
    /// The index register wasn't written, and the data register wasn't accessed.
    AtIndex { index: Event },
    /// Both registers were accessed, the index register first.
    At { index: Event, access: Event },
}

/// Whether an access was done.
pub(crate) fn is_done(event: &Event) -> bool
    ensures { result ≡ is_done event.now.end }
{
    matches!(event.end, End::Done)
}
