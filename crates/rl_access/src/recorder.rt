//! Who receives each event.
ghost use Rattle.std.specs.Prelude.{◌≡◌, ℕ, List, [], OnOk, OnErr};
ghost use Rattle.rl_bus.specs.Causes.{HasCause};
ghost use Rattle.rl_access.specs.Event.{EventFits};
ghost use Rattle.rl_access.specs.Model.{ModelData};
ghost use Rattle.rl_access.specs.declared.event.Event.{Event};

use crate::event::Event;
use crate::model::Model;
use rl_bus::Failed;

/// Who receives the events of a burst or a sequence, each right after it.
pub trait Recorder {
    /// How often it has failed. It never falls.
    ghost faults: { Self → ℕ };

    /// From the recorder before, the event was taken.
    ghost takes: { Self → ModelData → Event → Self → Type 0 };

    /// From the recorder before, the event was taken in part, or not.
    ghost breaks: { Self → ModelData → Event → Self → Type 0 };

    /// What no step changes.
    ghost steady: { Self → List ℕ } = { λ _. [] };

    /// Takes an event, with the model as it is right after it.
    fn step(&mut self, model: &Model, event: &Event) -> Result<(), Failed>
        requires fits { EventFits model.now event.now }
        ensures taken { OnOk result (takes self.old model.now event.now self.new) }
        ensures broken { OnErr result (breaks self.old model.now event.now self.new) }
        ensures cause { HasCause (faults self.old) (faults self.new) result }
        ensures steady { steady self.new ≡ steady self.old };
}
