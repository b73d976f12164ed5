//! One operation of any kind.
ghost use Rattle.std.specs.Prelude.{◌≡◌, ◌+◌, ◌≤◌, length, map as each, OnErr, true};
ghost use Rattle.rl_access.specs.Asked.{IsBegun, is_over_bus, reads_register, writes_register};
ghost use Rattle.rl_access.specs.Prelude.{Does, HasNumbers, IsDeviceOf, IsEndWithin, IsReady, PerformsOffBus};
ghost use Rattle.rl_access.specs.Prelude.{StaysOffBus, end_in_field, ends_with_value, field_digits, grant};
ghost use Rattle.rl_access.specs.Prelude.{is_off_bus, is_on_memory, is_single, scene_of};

use crate::backdoor::{
    back_read_into, back_write_into, hw_into, mem_peek_into, mem_poke_into, peek_into, poke_into,
    reset_into,
};
use crate::engine::{read, read_as, send, write_as};
use crate::event::{End, Event, Op};
use crate::location::{end_of_write, marked, outgoing_at, read_location};
use crate::model::Model;
use crate::wishes::{set_into, show_into};
use rl_bus::{Adapter, Adapters, Device};
use rl_model::Field;
use rl_policy::take;

/// Performs an operation that is no burst.
///
/// The calls of one operation each, as [`crate::front_write`], do the same for those who know which one they want.
///
/// # Examples
///
/// Register 0 has one byte, with a field `RW` of four bits, on a bus of one byte and a device as described.
///
/// ```text
/// let event = perform(&mut model, &mut device, &mut adapters, Op::Write { reg: 0, map: None, value: 0x3 });
/// event.end == End::Done
/// event.mirrored == 0x3
/// event.trace.len() == 1
/// // Its lines in a log, where they are the first:
/// write ctrl 0x3 @bus: ok mirror 0x03
///   bus w 0x0 0x03 1 #0 ok
/// ```
pub fn perform<D: Device>(
    model: &mut Model,
    device: &mut D,
    adapters: &mut Adapters,
    op: Op,
) -> Event
    requires ready { IsReady model.old (each standing adapters.old.items) (D.state device.old) }
    requires numbers { HasNumbers model.old.chip (length model.old.layout.maps) op }
    requires single { is_single op ≡ true }
    ensures does { Does (scene_of standing D.account D.state model.old adapters.old.items device.old)
        (scene_of standing D.account D.state model.new adapters.new.items device.new) op result }
    ensures refused { OnErr (grant model.old op) (device.new ≡ device.old) }
{
    let mut event = Event::blank();
    perform_into(model, device, adapters, op, &mut event);
    event
}

/// Performs an operation that is no burst, and records it in an event that the caller has. What the event said before
/// is dropped.
///
/// It is the one door to all accesses: an operation that was read from a script, or drawn, goes through here.
pub fn perform_into<D: Device>(
    model: &mut Model,
    device: &mut D,
    adapters: &mut Adapters,
    op: Op,
    event: &mut Event,
)
    requires ready { IsReady model.old (each standing adapters.old.items) (D.state device.old) }
    requires numbers { HasNumbers model.old.chip (length model.old.layout.maps) op }
    requires single { is_single op ≡ true }
    ensures does { Does (scene_of standing D.account D.state model.old adapters.old.items device.old)
        (scene_of standing D.account D.state model.new adapters.new.items device.new) op event.new }
    ensures refused { OnErr (grant model.old op) (device.new ≡ device.old) }
{
    match op {
        Op::Write { .. }
        | Op::Read { .. }
        | Op::Mirror { .. }
        | Op::Check { .. }
        | Op::FieldWrite { .. }
        | Op::FieldRead { .. }
        | Op::Update { .. }
        | Op::MemWrite { .. }
        | Op::MemRead { .. }
        | Op::MemCheck { .. }
        | Op::OtherWrite { .. }
        | Op::OtherRead { .. } => perform_over_bus(model, device, adapters, op, event),
        _ => perform_off_bus_into(model, device, op, event),
    }
}

fn perform_over_bus<D: Device>(
    model: &mut Model,
    device: &mut D,
    adapters: &mut Adapters,
    op: Op,
    event: &mut Event,
)
    requires ready { IsReady model.old (each standing adapters.old.items) (D.state device.old) }
    requires numbers { HasNumbers model.old.chip (length model.old.layout.maps) op }
    requires over_bus { is_over_bus op ≡ true }
    ensures does { Does (scene_of standing D.account D.state model.old adapters.old.items device.old)
        (scene_of standing D.account D.state model.new adapters.new.items device.new) op event.new }
    ensures refused { OnErr (grant model.old op) (device.new ≡ device.old) }
{
    let asked = model.ask(op);
    let place = match asked.grant {
        Ok(place) => place,
        Err(why) => return model.refuse_asked(asked, why, event),
    };
    event.begin(asked.op);
    match op {
        Op::Write { .. } | Op::FieldWrite { .. } | Op::Update { .. } | Op::OtherWrite { .. } => {
            write_register(model, device, adapters, op, place, event)
        }
        Op::MemWrite { .. } | Op::MemRead { .. } | Op::MemCheck { .. } => {
            reach_location(model, device, adapters, op, place, event)
        }
        _ => read_register(model, device, adapters, op, place, event),
    }
}

fn write_register<D: Device>(
    model: &mut Model,
    device: &mut D,
    adapters: &mut Adapters,
    op: Op,
    place: u32,
    event: &mut Event,
)
    requires ready { IsReady model.old (each standing adapters.old.items) (D.state device.old) }
    requires begun { IsBegun model.old op place event.old }
    requires writes { writes_register op ≡ true }
    ensures { Does (scene_of standing D.account D.state model.old adapters.old.items device.old)
        (scene_of standing D.account D.state model.new adapters.new.items device.new) op event.new }
{
    match op {
        Op::Write { reg, value, .. } | Op::OtherWrite { reg, value, .. } => {
            let access = model.whole(reg, place, value);
            model.forget(place);
            write_as(model, device, adapters, &access, End::Done, event)
        }
        Op::FieldWrite { field, value, .. } => {
            let access = model.field_written(field, place, value);
            model.forget_around(field, place, true);
            write_as(model, device, adapters, &access, End::Done, event)
        }
        Op::Update { reg, .. } => {
            if !model.needs_update(reg) {
                return model.conclude(reg, End::Nothing, 0, event);
            }
            let word = model.update_word_of(reg);
            let access = model.whole(reg, place, word);
            model.forget(place);
            write_as(model, device, adapters, &access, End::Sent { word }, event)
        }
        _ => unreachable!(),
    }
}

fn read_register<D: Device>(
    model: &mut Model,
    device: &mut D,
    adapters: &mut Adapters,
    op: Op,
    place: u32,
    event: &mut Event,
)
    requires ready { IsReady model.old (each standing adapters.old.items) (D.state device.old) }
    requires begun { IsBegun model.old op place event.old }
    requires reads { reads_register op ≡ true }
    ensures { Does (scene_of standing D.account D.state model.old adapters.old.items device.old)
        (scene_of standing D.account D.state model.new adapters.new.items device.new) op event.new }
{
    match op {
        Op::Read { reg, .. } | Op::Mirror { reg, .. } | Op::OtherRead { reg, .. } => {
            let access = model.whole_read(reg, place);
            model.forget(place);
            read_as(model, device, adapters, &access, false, event)
        }
        Op::Check { reg, .. } => {
            let access = model.whole_read(reg, place);
            model.forget(place);
            read_as(model, device, adapters, &access, true, event)
        }
        Op::FieldRead { field, .. } => {
            let shape = model.field(field);
            let access = model.field_read(field, place);
            model.forget_around(field, place, false);
            let (whole, _) = read(model, device, adapters, &access, false, &mut event.trace);
            let end = part_of(&shape, whole);
            model.conclude(shape.reg, end, 0, event)
        }
        _ => unreachable!(),
    }
}

// The field's part of a value that was read.
fn part_of(field: &Field, end: End) -> End
    requires some { 1 ≤ field.now.width }
    requires most { field.now.lsb + field.now.width ≤ 64 }
    requires read { ends_with_value end ≡ true }
    ensures part { result ≡ end_in_field field.now end }
    ensures within { IsEndWithin (field_digits field.now.width) result }
    ensures ends { ends_with_value result ≡ true }
{
    match end {
        End::Value { value } => End::Value {
            value: take(value, field.lsb, field.width),
        },
        other => other,
    }
}

fn reach_location<D: Device>(
    model: &mut Model,
    device: &mut D,
    adapters: &mut Adapters,
    op: Op,
    place: u32,
    event: &mut Event,
)
    requires ready { IsReady model.old (each standing adapters.old.items) (D.state device.old) }
    requires begun { IsBegun model.old op place event.old }
    requires on_memory { is_on_memory op ≡ true }
    ensures { Does (scene_of standing D.account D.state model.old adapters.old.items device.old)
        (scene_of standing D.account D.state model.new adapters.new.items device.new) op event.new }
{
    match op {
        Op::MemWrite {
            mem,
            index,
            value,
            ..
        } => {
            let index = model.location(mem, index);
            let outgoing = outgoing_at(model, mem, place, index, value, true);
            send(model, device, adapters, &outgoing, &mut event.trace);
            let end = end_of_write(&event.trace);
            model.conclude_memory(end, 0, event)
        }
        Op::MemRead { mem, index, .. } | Op::MemCheck { mem, index, .. } => {
            let index = model.location(mem, index);
            let end = read_location(model, device, adapters, mem, place, index, &mut event.trace);
            model.conclude_memory(end, marked(op, end), event)
        }
        _ => unreachable!(),
    }
}

/// Performs an operation that goes to a location of a memory over the bus.
pub(crate) fn perform_on_memory<D: Device>(
    model: &mut Model,
    device: &mut D,
    adapters: &mut Adapters,
    op: Op,
) -> Event
    requires ready { IsReady model.old (each standing adapters.old.items) (D.state device.old) }
    requires numbers { HasNumbers model.old.chip (length model.old.layout.maps) op }
    requires on_memory { is_on_memory op ≡ true }
    ensures model { model.new ≡ model.old }
    ensures does { Does (scene_of standing D.account D.state model.old adapters.old.items device.old)
        (scene_of standing D.account D.state model.new adapters.new.items device.new) op result }
    ensures refused { OnErr (grant model.old op) (device.new ≡ device.old) }
{
    let mut event = Event::blank();
    perform_on_memory_into(model, device, adapters, op, &mut event);
    event
}

pub(crate) fn perform_on_memory_into<D: Device>(
    model: &mut Model,
    device: &mut D,
    adapters: &mut Adapters,
    op: Op,
    event: &mut Event,
)
    requires ready { IsReady model.old (each standing adapters.old.items) (D.state device.old) }
    requires numbers { HasNumbers model.old.chip (length model.old.layout.maps) op }
    requires on_memory { is_on_memory op ≡ true }
    ensures model { model.new ≡ model.old }
    ensures does { Does (scene_of standing D.account D.state model.old adapters.old.items device.old)
        (scene_of standing D.account D.state model.new adapters.new.items device.new) op event.new }
    ensures refused { OnErr (grant model.old op) (device.new ≡ device.old) }
{
    perform_over_bus(model, device, adapters, op, event)
}

/// Performs an operation that goes round the bus.
pub(crate) fn perform_off_bus<D: Device>(model: &mut Model, device: &mut D, op: Op) -> Event
    requires device { IsDeviceOf model.old (D.state device.old) }
    requires numbers { HasNumbers model.old.chip (length model.old.layout.maps) op }
    requires off_bus { is_off_bus op ≡ true }
    ensures stays { StaysOffBus D.account D.state model.old model.new device.old device.new result }
    ensures performs { PerformsOffBus D.account D.state model.old model.new device.old device.new op result }
    ensures refused { OnErr (grant model.old op) (device.new ≡ device.old) }
{
    let mut event = Event::blank();
    perform_off_bus_into(model, device, op, &mut event);
    event
}

fn perform_off_bus_into<D: Device>(model: &mut Model, device: &mut D, op: Op, event: &mut Event)
    requires device { IsDeviceOf model.old (D.state device.old) }
    requires numbers { HasNumbers model.old.chip (length model.old.layout.maps) op }
    requires off_bus { is_off_bus op ≡ true }
    ensures stays { StaysOffBus D.account D.state model.old model.new device.old device.new event.new }
    ensures performs { PerformsOffBus D.account D.state model.old model.new device.old device.new op event.new }
    ensures refused { OnErr (grant model.old op) (device.new ≡ device.old) }
{
    match op {
        Op::Set { field, value } => set_into(model, field, value, event),
        Op::Show { reg } => show_into(model, reg, event),
        Op::BackWrite { reg, value } => back_write_into(model, device, reg, value, event),
        Op::BackRead { reg } => back_read_into(model, device, reg, false, event),
        Op::BackCheck { reg } => back_read_into(model, device, reg, true, event),
        Op::Peek { reg } => peek_into(model, device, reg, event),
        Op::Poke { reg, value } => poke_into(model, device, reg, value, event),
        Op::MemPeek { mem, index } => mem_peek_into(model, device, mem, index, event),
        Op::MemPoke { mem, index, value } => {
            mem_poke_into(model, device, mem, index, value, event)
        }
        Op::Hw { field, value } => hw_into(model, device, field, value, event),
        Op::Reset { kind } => reset_into(model, device, kind, event),
        _ => unreachable!(),
    }
}
