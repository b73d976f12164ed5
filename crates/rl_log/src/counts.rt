// What a log counts.
use rl_access::{End, Event, Tally};

/// What happened in a session. Each count stays at the end of `u64`.
#[derive(Clone, Copy, Debug, PartialEq, Eq)]
pub struct Counts {
    /// Each operation, each step of a sequence and each location of a burst that was begun.
    pub events: u64,
    /// Each differing field of a check, and each check of a memory that differs.
    pub differences: u64,
    /// Each access that ended by a bus error.
    pub errors: u64,
}

impl Counts {
    ghost use Rattle.std.specs.Prelude.{◌≡◌};
    ghost use Rattle.rl_log.specs.Endings.{added};
    ghost use Rattle.rl_log.specs.Recording.{no_counts, with_event};

    /// Nothing happened.
    pub fn new() -> Counts
        ensures { result ≡ no_counts }
    {
        Counts {
            events: 0,
            differences: 0,
            errors: 0,
        }
    }

    /// Counts an event.
    pub fn count(&mut self, event: &Event)
        ensures { self.new ≡ with_event self.old event.now }
    {
        self.events = self.events.saturating_add(1);
        let differences = u64::from(event.differ.count_ones());
        self.differences = self.differences.saturating_add(differences);
        if let End::BusError { .. } = event.end {
            self.errors = self.errors.saturating_add(1);
        }
    }

    /// Counts these too.
    pub fn add(&mut self, other: &Counts)
        ensures { self.new ≡ added self.old other.now }
    {
        self.events = self.events.saturating_add(other.events);
        self.differences = self.differences.saturating_add(other.differences);
        self.errors = self.errors.saturating_add(other.errors);
    }

    /// The counts of a sequence.
    pub fn of(tally: &Tally) -> Counts
        ensures { result ≡ record {
          events = tally.now.steps;
          differences = tally.now.differences;
          errors = tally.now.errors;
        } }
    {
        Counts {
            events: tally.steps,
            differences: tally.differences,
            errors: tally.errors,
        }
    }
}
