//! Desired values, and what is believed of a register.
ghost use Rattle.std.specs.Prelude.{◌≡◌, ◌<◌, length};
ghost use Rattle.rl_access.specs.Prelude.{EventFits, IsSameChip, PerformsAlone};
ghost use Rattle.rl_access.specs.declared.event.Op.TheVariants as op;

use crate::event::{End, Event, Op};
use crate::model::Model;

/// Does what [`crate::set`] says, and records it in the event.
pub(crate) fn set_into(model: &mut Model, field: u32, value: u64, event: &mut Event)
    requires field { field < length model.old.chip.fields }
    ensures fits { EventFits model.new event.new }
    ensures parts { IsSameChip model.old model.new }
    ensures performs { PerformsAlone model.old model.new (op.Set field value) event.new }
{
    let reg = model.field(field).reg;
    let op = Op::Set { field, value };
    match model.fitting_field(field, value, Ok(0)) {
        Ok(_) => {
            model.set(field, value);
            model.fill(op, reg, End::Done, 0, event)
        }
        Err(why) => model.refuse(op, reg, why, event),
    }
}

/// Does what [`crate::show`] says, and records it in the event.
pub(crate) fn show_into(model: &Model, reg: u32, event: &mut Event)
    requires reg { reg < length model.now.chip.regs }
    ensures fits { EventFits model.now event.new }
    ensures performs { PerformsAlone model.now model.now (op.Show reg) event.new }
{
    model.fill(Op::Show { reg }, reg, End::Done, 0, event)
}
