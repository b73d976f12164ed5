// Events, counted and written as they come.
ghost use Rattle.std.specs.Prelude.{OnOk, OnErr};
ghost use Rattle.rl_access.specs.Event.{EventFits};
ghost use Rattle.rl_report.specs.Pieces.{SinkStays};
ghost use Rattle.rl_play.specs.Recording.{IsWritten, IsBegun};

use crate::log::Log;
use rl_access::{Event, Model, Recorder};
use rl_log::Counts;
use rl_report::Failed;

// Counts an event, and writes it.
pub(crate) fn record<K: Log>(
    event: &Event,
    model: &Model,
    out: &mut K,
    counts: &mut Counts,
) -> Result<(), Failed>
    requires { EventFits model.now event.now }
    ensures whole { OnOk result
        (IsWritten (K.written out.old) (K.written out.new) counts.old counts.new model.now event.now) }
    ensures part { OnErr result
        (IsBegun (K.written out.old) (K.written out.new) counts.old counts.new model.now event.now) }
    ensures stays { SinkStays K.Sink out.old out.new result }
{
    counts.count(event);
    out.event(model, event)
}

// Counts each event of a burst or a sequence, and writes it.
#[derive(Drop)]
pub(crate) struct Writing<'a, K> {
    pub(crate) sink: &'a mut K,
    pub(crate) counts: Counts,
}

impl<K: Log> Recorder for Writing<'_, K> {
    ghost use Rattle.std.specs.Prelude.{[], ◌∷◌};
    ghost use Rattle.rl_play.specs.Recording.{IsWritten, IsBegun};

    ghost faults = { λ r. K.faults r.sink.now };

    ghost steady = { λ r. r.sink.ghost_name ∷ K.ends r.sink.now ∷ K.target r.sink.now ∷ [] };

    ghost takes = { λ old model event new.
        IsWritten (K.written old.sink.now) (K.written new.sink.now) old.counts new.counts model event };

    ghost breaks = { λ old model event new.
        IsBegun (K.written old.sink.now) (K.written new.sink.now) old.counts new.counts model event };

    fn step(&mut self, model: &Model, event: &Event) -> Result<(), Failed> {
        record(event, model, self.sink, &mut self.counts)
    }
}
