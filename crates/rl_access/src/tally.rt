//! Counting what a burst or a sequence did.
ghost use Rattle.std.specs.Prelude.{◌≡◌};
ghost use Rattle.rl_access.specs.Tally.{counted};

use crate::event::{End, Event, Tally};

impl Tally {
    /// Nothing so far.
    pub fn new() -> Tally
        ensures { result ≡ record { steps = 0; differences = 0; errors = 0 } }
    {
        Tally {
            steps: 0,
            differences: 0,
            errors: 0,
        }
    }

    /// Counts an event.
    pub fn count(&mut self, event: &Event)
        ensures { self.new ≡ counted self.old event.now }
    {
        let differences = u64::from(event.differ.count_ones());
        self.steps = self.steps.saturating_add(1);
        self.differences = self.differences.saturating_add(differences);
        if matches!(event.end, End::BusError { .. }) {
            self.errors = self.errors.saturating_add(1);
        }
    }
}
