//! Accesses that bypass the bus.
ghost use Rattle.std.specs.Prelude.{◌≡◌, ◌*◌, ◌<◌, ◌^◌, length, option_map, if◌then◌else◌, OnErr};
ghost use Rattle.rl_access.specs.Prelude.{IsDeviceOf, IsFound, IsReadBehind, IsSameChip, PerformsOffBus, StaysOffBus};
ghost use Rattle.rl_access.specs.Prelude.{count_of, fields_of, grant, hw_set, left_by_read, marks_in, poked, reset_by};
ghost use Rattle.rl_access.specs.Prelude.{shown, size_of, taking_raw, written};
ghost use Rattle.rl_bus.specs.Account.{Asks};
ghost use Rattle.rl_bus.specs.Account as ask;
ghost use Rattle.rl_bus.specs.declared.table.Cell.TheVariants as cell;

use crate::event::{End, Event, Op, Refused};
use crate::location::{deposit_location, location_sampled};
use crate::model::Model;
use crate::refusal::only_where;
use rl_bus::{Cell, Device};
use rl_mirror::{left_by_read, owned, shown};
use rl_model::Item;

/// The bits of a register that belong to a field, as the device has them.
fn sampled<D: Device>(model: &Model, device: &D, reg: u32) -> u64
    requires device { IsDeviceOf model.now (D.state device.now) }
    requires reg { reg < length model.now.chip.regs }
    ensures found { IsFound model.now (D.state device.now) reg result }
    ensures digits { result < 16 ^ (2 * size_of model.now.chip reg) }
{
    let bits = device.peek(Cell::Reg { reg });
    owned(model.chip(), reg, bits)
}

/// What a read of the register with these bits answers.
fn value_shown(model: &Model, reg: u32, bits: u64) -> u64
    requires reg { reg < length model.now.chip.regs }
    ensures value { result ≡ shown (fields_of model.now.chip reg) bits }
    ensures digits { result < 16 ^ (2 * size_of model.now.chip reg) }
{
    shown(model.chip(), reg, bits)
}

/// What is left of these bits by a read of the register.
fn value_left(model: &Model, reg: u32, bits: u64) -> u64
    requires { reg < length model.now.chip.regs }
    ensures { result ≡ left_by_read (fields_of model.now.chip reg) bits }
{
    left_by_read(model.chip(), reg, bits)
}

/// What is left of these bits by a write of the register, with the mirror's spent marks.
fn value_written(model: &Model, reg: u32, bits: u64, value: u64) -> u64
    requires { reg < length model.now.chip.regs }
    ensures { result ≡
        written (fields_of model.now.chip reg) (marks_in model.now.chip model.now.mirror.spent reg) bits value }
{
    model.mirror().written(model.chip(), reg, bits, value)
}

/// Deposits bits in a register of the device.
fn deposit<D: Device>(model: &Model, device: &mut D, reg: u32, value: u64)
    requires device { IsDeviceOf model.now (D.state device.old) }
    requires reg { reg < length model.now.chip.regs }
    ensures step { D.state device.new ≡ option_map (λ s. poked s (cell.Reg reg) value) (D.state device.old) }
    ensures device { IsDeviceOf model.now (D.state device.new) }
    ensures asked { Asks (D.account device.old) (D.account device.new) (ask.poke (cell.Reg reg) value) }
{
    device.poke(Cell::Reg { reg }, value);
}

/// The hardware sets a field of the device.
fn set_by_hardware<D: Device>(model: &Model, device: &mut D, field: u32, value: u64)
    requires device { IsDeviceOf model.now (D.state device.old) }
    requires field { field < length model.now.chip.fields }
    ensures step { D.state device.new ≡ option_map (λ s. hw_set s field value) (D.state device.old) }
    ensures device { IsDeviceOf model.now (D.state device.new) }
    ensures asked { Asks (D.account device.old) (D.account device.new) (ask.hw field value) }
{
    device.hw(field, value);
}

/// Resets the device.
fn reset_device<D: Device>(model: &Model, device: &mut D, kind: u32)
    requires device { IsDeviceOf model.now (D.state device.old) }
    ensures step { D.state device.new ≡ option_map (λ s. reset_by s kind) (D.state device.old) }
    ensures device { IsDeviceOf model.now (D.state device.new) }
    ensures asked { Asks (D.account device.old) (D.account device.new) (ask.reset kind) }
{
    device.reset(kind);
}

/// Does what [`crate::back_write`] says, and records it in the event.
pub(crate) fn back_write_into<D: Device>(
    model: &mut Model,
    device: &mut D,
    reg: u32,
    value: u64,
    event: &mut Event,
)
    requires device { IsDeviceOf model.old (D.state device.old) }
    requires reg { reg < length model.old.chip.regs }
    ensures stays { StaysOffBus D.account D.state model.old model.new device.old device.new event.new }
    ensures performs { PerformsOffBus D.account D.state model.old model.new device.old device.new
        (Op.BackWrite reg value) event.new }
    ensures refused { OnErr (grant model.old (Op.BackWrite reg value)) (device.new ≡ device.old) }
{
    let op = Op::BackWrite { reg, value };
    let item = Item::Reg(reg);
    match model.fitting(item, value, model.by_backdoor(item)) {
        Ok(_) => {
            let sampled = sampled(model, device, reg);
            let word = value_written(model, reg, sampled, value);
            deposit(model, device, reg, word);
            model.predict_raw(reg, word);
            model.fill(op, reg, End::Done, 0, event)
        }
        Err(why) => model.refuse(op, reg, why, event),
    }
}

// Reads the bits of a register, leaves their read effects, and takes the read as done. It answers the value
// read and, in a check, the differing fields.
fn sample<D: Device>(model: &mut Model, device: &mut D, reg: u32, check: bool) -> (u64, u64)
    requires device { IsDeviceOf model.old (D.state device.old) }
    requires reg { reg < length model.old.chip.regs }
    ensures device { IsDeviceOf model.new (D.state device.new) }
    ensures parts { IsSameChip model.old model.new }
    ensures behind { IsReadBehind model.old model.new (D.account device.old) (D.account device.new)
        (D.state device.old) (D.state device.new) check reg result.0 result.1 }
    ensures value { result.0 < 16 ^ (2 * size_of model.old.chip reg) }
    ensures differ { result.1 < 2 ^ count_of model.old.chip reg }
{
    let sampled = sampled(model, device, reg);
    let value = value_shown(model, reg, sampled);
    let left = value_left(model, reg, sampled);
    deposit(model, device, reg, left);
    let differ = model.differ(check, reg, value);
    model.predict_read(reg, value, u64::MAX);
    (value, differ)
}

/// Does what [`crate::back_read`] says, and records it in the event.
pub(crate) fn back_read_into<D: Device>(
    model: &mut Model,
    device: &mut D,
    reg: u32,
    check: bool,
    event: &mut Event,
)
    requires device { IsDeviceOf model.old (D.state device.old) }
    requires reg { reg < length model.old.chip.regs }
    ensures stays { StaysOffBus D.account D.state model.old model.new device.old device.new event.new }
    ensures performs { PerformsOffBus D.account D.state model.old model.new device.old device.new
        (if check then Op.BackCheck reg else Op.BackRead reg) event.new }
    ensures refused { OnErr (grant model.old (Op.BackRead reg)) (device.new ≡ device.old) }
{
    let op = back_reading(reg, check);
    match model.by_backdoor(Item::Reg(reg)) {
        Ok(_) => {
            let (value, differ) = sample(model, device, reg, check);
            model.fill(op, reg, End::Value { value }, differ, event)
        }
        Err(why) => model.refuse(op, reg, why, event),
    }
}

fn back_reading(reg: u32, check: bool) -> Op
    ensures { result ≡ (if check then Op.BackCheck reg else Op.BackRead reg) }
{
    if check {
        Op::BackCheck { reg }
    } else {
        Op::BackRead { reg }
    }
}

/// Does what [`crate::peek`] says, and records it in the event.
pub(crate) fn peek_into<D: Device>(model: &mut Model, device: &mut D, reg: u32, event: &mut Event)
    requires device { IsDeviceOf model.old (D.state device.old) }
    requires reg { reg < length model.old.chip.regs }
    ensures stays { StaysOffBus D.account D.state model.old model.new device.old device.new event.new }
    ensures performs { PerformsOffBus D.account D.state model.old model.new device.old device.new
        (Op.Peek reg) event.new }
    ensures unchanged { device.new ≡ device.old }
{
    let op = Op::Peek { reg };
    match model.by_backdoor(Item::Reg(reg)) {
        Ok(_) => {
            let bits = sampled(model, device, reg);
            model.predict_raw(reg, bits);
            model.fill(op, reg, End::Value { value: bits }, 0, event)
        }
        Err(why) => model.refuse(op, reg, why, event),
    }
}

/// Does what [`crate::poke`] says, and records it in the event.
pub(crate) fn poke_into<D: Device>(
    model: &mut Model,
    device: &mut D,
    reg: u32,
    value: u64,
    event: &mut Event,
)
    requires device { IsDeviceOf model.old (D.state device.old) }
    requires reg { reg < length model.old.chip.regs }
    ensures stays { StaysOffBus D.account D.state model.old model.new device.old device.new event.new }
    ensures performs { PerformsOffBus D.account D.state model.old model.new device.old device.new
        (Op.Poke reg value) event.new }
    ensures refused { OnErr (grant model.old (Op.Poke reg value)) (device.new ≡ device.old) }
{
    let op = Op::Poke { reg, value };
    let item = Item::Reg(reg);
    match model.fitting(item, value, model.by_backdoor(item)) {
        Ok(_) => {
            deposit(model, device, reg, value);
            model.predict_raw(reg, value);
            model.fill(op, reg, End::Done, 0, event)
        }
        Err(why) => model.refuse(op, reg, why, event),
    }
}

/// Does what [`crate::mem_peek`] says, and records it in the event.
pub(crate) fn mem_peek_into<D: Device>(
    model: &mut Model,
    device: &mut D,
    mem: u32,
    index: u64,
    event: &mut Event,
)
    requires device { IsDeviceOf model.old (D.state device.old) }
    requires mem { mem < length model.old.chip.mems }
    ensures stays { StaysOffBus D.account D.state model.old model.new device.old device.new event.new }
    ensures performs { PerformsOffBus D.account D.state model.old model.new device.old device.new
        (Op.MemPeek mem index) event.new }
    ensures unchanged { device.new ≡ device.old }
{
    let op = Op::MemPeek { mem, index };
    match model.at_location(mem, index, model.by_backdoor(Item::Mem(mem))) {
        Ok(_) => {
            let value = location_sampled(model, device, mem, index as u32);
            model.fill_memory(op, End::Value { value }, event)
        }
        Err(why) => model.refuse_memory(op, why, event),
    }
}

/// Does what [`crate::mem_poke`] says, and records it in the event.
pub(crate) fn mem_poke_into<D: Device>(
    model: &mut Model,
    device: &mut D,
    mem: u32,
    index: u64,
    value: u64,
    event: &mut Event,
)
    requires device { IsDeviceOf model.old (D.state device.old) }
    requires mem { mem < length model.old.chip.mems }
    ensures stays { StaysOffBus D.account D.state model.old model.new device.old device.new event.new }
    ensures performs { PerformsOffBus D.account D.state model.old model.new device.old device.new
        (Op.MemPoke mem index value) event.new }
    ensures refused { OnErr (grant model.old (Op.MemPoke mem index value)) (device.new ≡ device.old) }
{
    let op = Op::MemPoke { mem, index, value };
    let item = Item::Mem(mem);
    let grant = model.at_location(mem, index, model.by_backdoor(item));
    match model.fitting(item, value, grant) {
        Ok(_) => {
            deposit_location(model, device, mem, index as u32, value);
            model.fill_memory(op, End::Done, event)
        }
        Err(why) => model.refuse_memory(op, why, event),
    }
}

/// Does what [`crate::hw`] says, and records it in the event.
pub(crate) fn hw_into<D: Device>(
    model: &mut Model,
    device: &mut D,
    field: u32,
    value: u64,
    event: &mut Event,
)
    requires device { IsDeviceOf model.old (D.state device.old) }
    requires field { field < length model.old.chip.fields }
    ensures stays { StaysOffBus D.account D.state model.old model.new device.old device.new event.new }
    ensures performs { PerformsOffBus D.account D.state model.old model.new device.old device.new
        (Op.Hw field value) event.new }
    ensures refused { OnErr (grant model.old (Op.Hw field value)) (device.new ≡ device.old) }
{
    let shape = model.field(field);
    let op = Op::Hw { field, value };
    let grant = only_where(Ok(0), shape.volatile, Refused::NotVolatile);
    match model.fitting_field(field, value, grant) {
        Ok(_) => {
            set_by_hardware(model, device, field, value);
            model.fill(op, shape.reg, End::Done, 0, event)
        }
        Err(why) => model.refuse(op, shape.reg, why, event),
    }
}

/// Does what [`crate::reset`] says, and records it in the event.
pub(crate) fn reset_into<D: Device>(model: &mut Model, device: &mut D, kind: u32, event: &mut Event)
    requires device { IsDeviceOf model.old (D.state device.old) }
    requires kind { kind < length model.old.chip.kinds }
    ensures stays { StaysOffBus D.account D.state model.old model.new device.old device.new event.new }
    ensures performs { PerformsOffBus D.account D.state model.old model.new device.old device.new
        (Op.Reset kind) event.new }
{
    reset_device(model, device, kind);
    model.reset(kind);
    model.fill_memory(Op::Reset { kind }, End::Done, event)
}

/// Takes the bits of a register as known: each field takes its part of them as mirrored and desired value.
pub fn adopt(model: &mut Model, reg: u32, known: u64)
    requires reg { reg < length model.old.chip.regs }
    ensures { model.new ≡ taking_raw model.old reg known }
{
    model.predict_raw(reg, known);
}
