// What an event shows of a flaw.
ghost use Rattle.std.specs.Prelude.{◌≡◌};
ghost use Rattle.rl_access.specs.Tally.{is_bus_error};
ghost use Rattle.rl_grade.specs.Find.{seen_of, beside, shows};

use rl_access::{End, Event, Op};

/// What an event shows that is wrong, as its line in the log says it.
#[derive(Clone, Copy, Debug, PartialEq, Eq)]
pub struct Seen {
    /// Bit `i` stands for the `i`-th field of its register; of a memory's location it is 1.
    pub differ: u64,
    /// It ended by a bus error.
    pub error: bool,
}

/// The first event that shows more with a flaw than without it.
#[derive(Clone, Copy, Debug, PartialEq, Eq)]
pub struct Find {
    /// The number of its line.
    pub line: u64,
    /// Its operation.
    pub op: Op,
    /// What it shows that it doesn't show without the flaw.
    pub new: Seen,
}

fn is_bus_error(end: End) -> bool
    ensures { result ≡ is_bus_error end }
{
    matches!(end, End::BusError { .. })
}

impl Seen {
    /// Nothing is wrong.
    pub(crate) const NOTHING: Seen = Seen {
        differ: 0,
        error: false,
    };

    /// What an event shows.
    pub fn of(event: &Event) -> Seen
        ensures { result ≡ seen_of event.now }
    {
        Seen {
            differ: event.differ,
            error: is_bus_error(event.end),
        }
    }

    /// What this shows and the other doesn't.
    pub fn beside(self, other: Seen) -> Seen
        ensures { result ≡ beside self other }
    {
        Seen {
            differ: self.differ & (self.differ ^ other.differ),
            error: self.error && !other.error,
        }
    }

    /// Whether something is wrong.
    pub fn shows(self) -> bool
        ensures { result ≡ shows self }
    {
        self.differ != 0 || self.error
    }
}
