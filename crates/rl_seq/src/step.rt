//! A step of a sequence: one operation, which is handed to the recorder and counted.
ghost use Rattle.std.specs.Prelude.{map};
ghost use Rattle.rl_access.specs.Model.{IsReady};
ghost use Rattle.rl_seq.specs.Plan.{step, stop};
ghost use Rattle.rl_seq.specs.Stage.{Follows, stage_of};
ghost use Rattle.rl_seq.specs.Visits.{IsStep};

use rl_access::{Event, Model, Op, Recorder, Tally, perform_into};
use rl_bus::{Adapter, Adapters, Device, Failed};

/// Performs an operation, hands its event to the recorder, and counts it.
pub(crate) fn perform_step<D: Device, R: Recorder>(
    model: &mut Model,
    device: &mut D,
    adapters: &mut Adapters,
    op: Op,
    recorder: &mut R,
    tally: &mut Tally,
) -> Result<(), Failed>
    requires ready { IsReady model.old (map standing adapters.old.items) (D.state device.old) }
    requires step { IsStep model.old.chip model.old.layout op }
    ensures follows { Follows R.Recorder
        (stage_of standing D.Device model.old adapters.old.items device.old recorder.old)
        (stage_of standing D.Device model.new adapters.new.items device.new recorder.new)
        tally.old tally.new (step op stop) result }
{
    let mut event = Event::blank();
    perform_into(model, device, adapters, op, &mut event);
    recorder.step(model, &event)?;
    tally.count(&event);
    Ok(())
}
