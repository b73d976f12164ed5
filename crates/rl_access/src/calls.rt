//! The calls of one operation each.
ghost use Rattle.std.specs.Prelude.{◌≡◌, ◌<◌, ◌≤◌, map as each, length, if◌then◌else◌, OnErr};
ghost use Rattle.rl_access.specs.Prelude.{Does, EventFits, IsDeviceOf, IsMapIn, IsModel, IsReady, IsSameChip};
ghost use Rattle.rl_access.specs.Prelude.{PerformsAlone, PerformsOffBus, StaysOffBus, grant, scene_of};
ghost use Rattle.rl_access.specs.Wishes.{BringsWishes};
ghost use Rattle.rl_access.specs.declared.event.Op.TheVariants as op;
ghost use Rattle.rl_mirror.specs.Reachable.{UpdateBrings};

use crate::backdoor::{mem_peek_into, mem_poke_into, peek_into};
use crate::event::{Event, Op};
use crate::model::Model;
use crate::operation::{perform, perform_off_bus, perform_on_memory};
use crate::wishes::{set_into, show_into};
use rl_bus::{Adapter, Adapters, Device};
use rl_mirror::law::update_brings;

/// Writes a register over the bus: `uvm_reg::write` (IEEE 1800.2-2017, 18.4).
pub fn front_write<D: Device>(
    model: &mut Model,
    device: &mut D,
    adapters: &mut Adapters,
    reg: u32,
    map: Option<u32>,
    value: u64,
) -> Event
    requires ready { IsReady model.old (each standing adapters.old.items) (D.state device.old) }
    requires reg { reg < length model.old.chip.regs }
    requires map { IsMapIn (length model.old.layout.maps) map }
    ensures does { Does (scene_of standing D.account D.state model.old adapters.old.items device.old)
        (scene_of standing D.account D.state model.new adapters.new.items device.new) (op.Write reg map value) result }
    ensures refused { OnErr (grant model.old (op.Write reg map value)) (device.new ≡ device.old) }
{
    perform(model, device, adapters, Op::Write { reg, map, value })
}

/// Reads a register over the bus: `uvm_reg::read` (IEEE 1800.2-2017, 18.4).
pub fn front_read<D: Device>(
    model: &mut Model,
    device: &mut D,
    adapters: &mut Adapters,
    reg: u32,
    map: Option<u32>,
) -> Event
    requires ready { IsReady model.old (each standing adapters.old.items) (D.state device.old) }
    requires reg { reg < length model.old.chip.regs }
    requires map { IsMapIn (length model.old.layout.maps) map }
    ensures does { Does (scene_of standing D.account D.state model.old adapters.old.items device.old)
        (scene_of standing D.account D.state model.new adapters.new.items device.new) (op.Read reg map) result }
    ensures refused { OnErr (grant model.old (op.Read reg map)) (device.new ≡ device.old) }
{
    perform(model, device, adapters, Op::Read { reg, map })
}

/// Reads a register over the bus to learn its value: `uvm_reg::mirror` (IEEE 1800.2-2017, 18.4).
///
/// With `check`, which is `UVM_CHECK`, the event names the compared fields whose bits aren't those that were mirrored
/// before the read.
pub fn mirror<D: Device>(
    model: &mut Model,
    device: &mut D,
    adapters: &mut Adapters,
    reg: u32,
    map: Option<u32>,
    check: bool,
) -> Event
    requires ready { IsReady model.old (each standing adapters.old.items) (D.state device.old) }
    requires reg { reg < length model.old.chip.regs }
    requires map { IsMapIn (length model.old.layout.maps) map }
    ensures does { Does (scene_of standing D.account D.state model.old adapters.old.items device.old)
        (scene_of standing D.account D.state model.new adapters.new.items device.new)
        (if check then op.Check reg map else op.Mirror reg map) result }
    ensures refused { OnErr (grant model.old (op.Mirror reg map)) (device.new ≡ device.old) }
{
    if check {
        perform(model, device, adapters, Op::Check { reg, map })
    } else {
        perform(model, device, adapters, Op::Mirror { reg, map })
    }
}

/// Writes a field over the bus: `uvm_reg_field::write` (IEEE 1800.2-2017, 18.5).
///
/// It reaches the field's own bytes alone where the access may be narrow, else the whole register
/// with the neutral word in each other field. When an access may be narrow, and the neutral word, are this
/// project's own.
pub fn field_write<D: Device>(
    model: &mut Model,
    device: &mut D,
    adapters: &mut Adapters,
    field: u32,
    map: Option<u32>,
    value: u64,
) -> Event
    requires ready { IsReady model.old (each standing adapters.old.items) (D.state device.old) }
    requires field { field < length model.old.chip.fields }
    requires map { IsMapIn (length model.old.layout.maps) map }
    ensures does { Does (scene_of standing D.account D.state model.old adapters.old.items device.old)
        (scene_of standing D.account D.state model.new adapters.new.items device.new)
        (op.FieldWrite field map value) result }
    ensures refused { OnErr (grant model.old (op.FieldWrite field map value)) (device.new ≡ device.old) }
{
    perform(
        model,
        device,
        adapters,
        Op::FieldWrite { field, map, value },
    )
}

/// Reads a field over the bus: `uvm_reg_field::read` (IEEE 1800.2-2017, 18.5).
///
/// It reaches the field's own bytes alone where the access may be narrow, else the whole register.
pub fn field_read<D: Device>(
    model: &mut Model,
    device: &mut D,
    adapters: &mut Adapters,
    field: u32,
    map: Option<u32>,
) -> Event
    requires ready { IsReady model.old (each standing adapters.old.items) (D.state device.old) }
    requires field { field < length model.old.chip.fields }
    requires map { IsMapIn (length model.old.layout.maps) map }
    ensures does { Does (scene_of standing D.account D.state model.old adapters.old.items device.old)
        (scene_of standing D.account D.state model.new adapters.new.items device.new) (op.FieldRead field map) result }
    ensures refused { OnErr (grant model.old (op.FieldRead field map)) (device.new ≡ device.old) }
{
    perform(model, device, adapters, Op::FieldRead { field, map })
}

/// Gives a field a desired value: `uvm_reg_field::set` (IEEE 1800.2-2017, 18.5).
///
/// It is what a write of the value would leave of the desired one. That rule is this project's own.
pub fn set(model: &mut Model, field: u32, value: u64) -> Event
    requires field { field < length model.old.chip.fields }
    ensures fits { EventFits model.new result }
    ensures parts { IsSameChip model.old model.new }
    ensures performs { PerformsAlone model.old model.new (op.Set field value) result }
{
    let mut event = Event::blank();
    set_into(model, field, value, &mut event);
    event
}

/// Tells the mirrored and the desired value of a register: `uvm_reg_field::get_mirrored_value` and `get` of its fields
/// (IEEE 1800.2-2017, 18.5).
pub fn show(model: &Model, reg: u32) -> Event
    requires reg { reg < length model.now.chip.regs }
    ensures fits { EventFits model.now result }
    ensures performs { PerformsAlone model.now model.now (op.Show reg) result }
{
    let mut event = Event::blank();
    show_into(model, reg, &mut event);
    event
}

/// Brings a register to its desired value: `uvm_reg::update` (IEEE 1800.2-2017, 18.4).
///
/// It is one write of the whole register, where some field has another desired value than its mirrored one. The word
/// that it writes, and that it looks at these values alone, are this project's own.
pub fn update<D: Device>(
    model: &mut Model,
    device: &mut D,
    adapters: &mut Adapters,
    reg: u32,
    map: Option<u32>,
) -> Event
    requires ready { IsReady model.old (each standing adapters.old.items) (D.state device.old) }
    requires reg { reg < length model.old.chip.regs }
    requires map { IsMapIn (length model.old.layout.maps) map }
    ensures does { Does (scene_of standing D.account D.state model.old adapters.old.items device.old)
        (scene_of standing D.account D.state model.new adapters.new.items device.new) (op.Update reg map) result }
    ensures wishes { BringsWishes model.old model.new reg result.end }
    ensures refused { OnErr (grant model.old (op.Update reg map)) (device.new ≡ device.old) }
{
    law_of_update(model);
    perform(model, device, adapters, Op::Update { reg, map })
}

// It does nothing; its contract is the law of update, at this model.
fn law_of_update(model: &Model)
    ensures known { IsModel model.now }
    ensures law { UpdateBrings model.now.chip }
{
    // The call tells that the model is sound.
    let _ = model.chip();
    update_brings();
}

/// Writes a location of a memory over the bus: `uvm_mem::write` (IEEE 1800.2-2017, 18.6).
pub fn mem_write<D: Device>(
    model: &mut Model,
    device: &mut D,
    adapters: &mut Adapters,
    mem: u32,
    map: Option<u32>,
    index: u64,
    value: u64,
) -> Event
    requires ready { IsReady model.old (each standing adapters.old.items) (D.state device.old) }
    requires mem { mem < length model.old.chip.mems }
    requires map { IsMapIn (length model.old.layout.maps) map }
    ensures model { model.new ≡ model.old }
    ensures does { Does (scene_of standing D.account D.state model.old adapters.old.items device.old)
        (scene_of standing D.account D.state model.new adapters.new.items device.new)
        (op.MemWrite mem map index value) result }
    ensures refused { OnErr (grant model.old (op.MemWrite mem map index value)) (device.new ≡ device.old) }
{
    perform_on_memory(
        model,
        device,
        adapters,
        Op::MemWrite {
            mem,
            map,
            index,
            value,
        },
    )
}

/// Reads a location of a memory over the bus: `uvm_mem::read` (IEEE 1800.2-2017, 18.6).
pub fn mem_read<D: Device>(
    model: &mut Model,
    device: &mut D,
    adapters: &mut Adapters,
    mem: u32,
    map: Option<u32>,
    index: u64,
) -> Event
    requires ready { IsReady model.old (each standing adapters.old.items) (D.state device.old) }
    requires mem { mem < length model.old.chip.mems }
    requires map { IsMapIn (length model.old.layout.maps) map }
    ensures model { model.new ≡ model.old }
    ensures does { Does (scene_of standing D.account D.state model.old adapters.old.items device.old)
        (scene_of standing D.account D.state model.new adapters.new.items device.new) (op.MemRead mem map index) result }
    ensures refused { OnErr (grant model.old (op.MemRead mem map index)) (device.new ≡ device.old) }
{
    perform_on_memory(model, device, adapters, Op::MemRead { mem, map, index })
}

/// Reads a location of a memory over the bus, and compares it with a value: this project's own.
pub fn mem_check<D: Device>(
    model: &mut Model,
    device: &mut D,
    adapters: &mut Adapters,
    mem: u32,
    map: Option<u32>,
    index: u64,
    value: u64,
) -> Event
    requires ready { IsReady model.old (each standing adapters.old.items) (D.state device.old) }
    requires mem { mem < length model.old.chip.mems }
    requires map { IsMapIn (length model.old.layout.maps) map }
    ensures model { model.new ≡ model.old }
    ensures does { Does (scene_of standing D.account D.state model.old adapters.old.items device.old)
        (scene_of standing D.account D.state model.new adapters.new.items device.new)
        (op.MemCheck mem map index value) result }
    ensures refused { OnErr (grant model.old (op.MemCheck mem map index value)) (device.new ≡ device.old) }
{
    perform_on_memory(
        model,
        device,
        adapters,
        Op::MemCheck {
            mem,
            map,
            index,
            value,
        },
    )
}

/// Samples a location of a memory by the backdoor: `uvm_mem::peek` (IEEE 1800.2-2017, 18.6).
pub fn mem_peek<D: Device>(model: &mut Model, device: &mut D, mem: u32, index: u64) -> Event
    requires device { IsDeviceOf model.old (D.state device.old) }
    requires mem { mem < length model.old.chip.mems }
    ensures model { model.new ≡ model.old }
    ensures device { device.new ≡ device.old }
    ensures fits { EventFits model.new result }
    ensures performs { PerformsOffBus D.account D.state model.old model.new device.old device.new
        (op.MemPeek mem index) result }
{
    let mut event = Event::blank();
    mem_peek_into(model, device, mem, index, &mut event);
    event
}

/// Deposits a value in a location of a memory by the backdoor: `uvm_mem::poke` (IEEE 1800.2-2017, 18.6).
pub fn mem_poke<D: Device>(
    model: &mut Model,
    device: &mut D,
    mem: u32,
    index: u64,
    value: u64,
) -> Event
    requires device { IsDeviceOf model.old (D.state device.old) }
    requires mem { mem < length model.old.chip.mems }
    ensures model { model.new ≡ model.old }
    ensures device { IsDeviceOf model.new (D.state device.new) }
    ensures fits { EventFits model.new result }
    ensures later { (D.account device.old).errors ≤ (D.account device.new).errors }
    ensures performs { PerformsOffBus D.account D.state model.old model.new device.old device.new
        (op.MemPoke mem index value) result }
    ensures refused { OnErr (grant model.old (op.MemPoke mem index value)) (device.new ≡ device.old) }
{
    let mut event = Event::blank();
    mem_poke_into(model, device, mem, index, value, &mut event);
    event
}

/// Another master writes a register through an explicit root, and its predictor sees the items: this project's own
/// over `uvm_reg_predictor` (IEEE 1800.2-2017, 19.3).
pub fn other_write<D: Device>(
    model: &mut Model,
    device: &mut D,
    adapters: &mut Adapters,
    reg: u32,
    map: Option<u32>,
    value: u64,
) -> Event
    requires ready { IsReady model.old (each standing adapters.old.items) (D.state device.old) }
    requires reg { reg < length model.old.chip.regs }
    requires map { IsMapIn (length model.old.layout.maps) map }
    ensures does { Does (scene_of standing D.account D.state model.old adapters.old.items device.old)
        (scene_of standing D.account D.state model.new adapters.new.items device.new)
        (op.OtherWrite reg map value) result }
    ensures refused { OnErr (grant model.old (op.OtherWrite reg map value)) (device.new ≡ device.old) }
{
    perform(model, device, adapters, Op::OtherWrite { reg, map, value })
}

/// Another master reads a register through an explicit root, and its predictor sees the items: this project's own over
/// `uvm_reg_predictor` (IEEE 1800.2-2017, 19.3).
pub fn other_read<D: Device>(
    model: &mut Model,
    device: &mut D,
    adapters: &mut Adapters,
    reg: u32,
    map: Option<u32>,
) -> Event
    requires ready { IsReady model.old (each standing adapters.old.items) (D.state device.old) }
    requires reg { reg < length model.old.chip.regs }
    requires map { IsMapIn (length model.old.layout.maps) map }
    ensures does { Does (scene_of standing D.account D.state model.old adapters.old.items device.old)
        (scene_of standing D.account D.state model.new adapters.new.items device.new) (op.OtherRead reg map) result }
    ensures refused { OnErr (grant model.old (op.OtherRead reg map)) (device.new ≡ device.old) }
{
    perform(model, device, adapters, Op::OtherRead { reg, map })
}

/// Writes a register by the backdoor: `uvm_reg::write` (IEEE 1800.2-2017, 18.4).
///
/// It leaves each field's declared write effect, with the mirror's spent mark, on the bits that the device has. That is
/// this project's own.
pub fn back_write<D: Device>(model: &mut Model, device: &mut D, reg: u32, value: u64) -> Event
    requires device { IsDeviceOf model.old (D.state device.old) }
    requires reg { reg < length model.old.chip.regs }
    ensures stays { StaysOffBus D.account D.state model.old model.new device.old device.new result }
    ensures performs { PerformsOffBus D.account D.state model.old model.new device.old device.new
        (op.BackWrite reg value) result }
    ensures refused { OnErr (grant model.old (op.BackWrite reg value)) (device.new ≡ device.old) }
{
    perform_off_bus(model, device, Op::BackWrite { reg, value })
}

/// Reads a register by the backdoor, with each field's declared read effect: `uvm_reg::read` (IEEE 1800.2-2017, 18.4).
///
/// With `check`, which is `uvm_reg::mirror` with `UVM_CHECK`, the event names the compared fields whose bits aren't
/// those that were mirrored before the read.
pub fn back_read<D: Device>(model: &mut Model, device: &mut D, reg: u32, check: bool) -> Event
    requires device { IsDeviceOf model.old (D.state device.old) }
    requires reg { reg < length model.old.chip.regs }
    ensures stays { StaysOffBus D.account D.state model.old model.new device.old device.new result }
    ensures performs { PerformsOffBus D.account D.state model.old model.new device.old device.new
        (if check then op.BackCheck reg else op.BackRead reg) result }
    ensures refused { OnErr (grant model.old (op.BackRead reg)) (device.new ≡ device.old) }
{
    if check {
        perform_off_bus(model, device, Op::BackCheck { reg })
    } else {
        perform_off_bus(model, device, Op::BackRead { reg })
    }
}

/// Samples the bits of a register, and takes them as mirrored and desired value: `uvm_reg::peek` (IEEE 1800.2-2017,
/// 18.4).
pub fn peek<D: Device>(model: &mut Model, device: &mut D, reg: u32) -> Event
    requires device { IsDeviceOf model.old (D.state device.old) }
    requires reg { reg < length model.old.chip.regs }
    ensures stays { StaysOffBus D.account D.state model.old model.new device.old device.new result }
    ensures performs { PerformsOffBus D.account D.state model.old model.new device.old device.new (op.Peek reg) result }
    ensures unchanged { device.new ≡ device.old }
{
    let mut event = Event::blank();
    peek_into(model, device, reg, &mut event);
    event
}

/// Deposits bits in a register, and takes them as mirrored and desired value: `uvm_reg::poke` (IEEE 1800.2-2017, 18.4).
pub fn poke<D: Device>(model: &mut Model, device: &mut D, reg: u32, value: u64) -> Event
    requires device { IsDeviceOf model.old (D.state device.old) }
    requires reg { reg < length model.old.chip.regs }
    ensures stays { StaysOffBus D.account D.state model.old model.new device.old device.new result }
    ensures performs { PerformsOffBus D.account D.state model.old model.new device.old device.new
        (op.Poke reg value) result }
    ensures refused { OnErr (grant model.old (op.Poke reg value)) (device.new ≡ device.old) }
{
    perform_off_bus(model, device, Op::Poke { reg, value })
}

/// The hardware changes a volatile field by itself, and the model learns nothing of it: this project's own.
pub fn hw<D: Device>(model: &mut Model, device: &mut D, field: u32, value: u64) -> Event
    requires device { IsDeviceOf model.old (D.state device.old) }
    requires field { field < length model.old.chip.fields }
    ensures stays { StaysOffBus D.account D.state model.old model.new device.old device.new result }
    ensures performs { PerformsOffBus D.account D.state model.old model.new device.old device.new
        (op.Hw field value) result }
    ensures refused { OnErr (grant model.old (op.Hw field value)) (device.new ≡ device.old) }
{
    perform_off_bus(model, device, Op::Hw { field, value })
}

/// Resets the model, by `uvm_reg_field::reset` of each field (IEEE 1800.2-2017, 18.5), and the device in the same step,
/// which is this project's own. Kind 0 is HARD, kind 1 is SOFT.
pub fn reset<D: Device>(model: &mut Model, device: &mut D, kind: u32) -> Event
    requires device { IsDeviceOf model.old (D.state device.old) }
    requires kind { kind < length model.old.chip.kinds }
    ensures stays { StaysOffBus D.account D.state model.old model.new device.old device.new result }
    ensures performs { PerformsOffBus D.account D.state model.old model.new device.old device.new
        (op.Reset kind) result }
{
    perform_off_bus(model, device, Op::Reset { kind })
}
