// Events, counted, drawn and written as they come.

use crate::dump::Dump;
use rl_access::{Event, Model, Recorder};
use rl_log::Counts;
use rl_play::Log;
use rl_report::{Failed, Sink};

/// Where the events of a session go: each is counted, drawn and written. What becomes of the dump changes nothing in
/// the log.
#[derive(Drop)]
pub(crate) struct Drawing<'l, 'd, L, K: Sink> {
    pub(crate) log: &'l mut L,
    pub(crate) dump: &'d mut Dump<K>,
    pub(crate) counts: Counts,
}

impl<L: Log, K: Sink> Recorder for Drawing<'_, '_, L, K> {
    ghost use Rattle.std.specs.Prelude.{[], ◌∷◌};
    ghost use Rattle.rl_play.specs.Recording.{IsBegun, IsWritten};
    ghost use Rattle.rl_vcd.specs.Noted.{Notes};

    ghost faults = { λ r. L.faults r.log.now };

    ghost steady = { λ r. r.log.ghost_name ∷ L.ends r.log.now ∷ L.target r.log.now ∷ r.dump.ghost_name ∷ [] };

    ghost takes = { λ old model event new.
        IsWritten (L.written old.log.now) (L.written new.log.now) old.counts new.counts model event
        × Notes K.Sink old.dump.now model event new.dump.now };

    ghost breaks = { λ old model event new.
        IsBegun (L.written old.log.now) (L.written new.log.now) old.counts new.counts model event
        × Notes K.Sink old.dump.now model event new.dump.now };

    fn step(&mut self, model: &Model, event: &Event) -> Result<(), Failed> {
        self.counts.count(event);
        self.dump.note(model, event);
        self.log.event(model, event)
    }
}
