//! One location of a memory: what is sent for it and how that ends, and its bytes in the device.
ghost use Rattle.std.specs.Prelude.{◌≡◌, ℕ, ◌*◌, ◌<◌, ◌≤◌, ◌^◌, [], map as each, length, option_map, All, true, false};
ghost use Rattle.rl_access.specs.Prelude.{AreSent, IsBrought, IsDeviceOf, IsEndWithin, IsFoundAt, IsOutgoingOn};
ghost use Rattle.rl_access.specs.Prelude.{IsPlaceFor, IsReady, ItemFits, ModelData, adapter_for, ends_done};
ghost use Rattle.rl_access.specs.Prelude.{ends_with_value, failed_at, location_bytes, location_size, location_value};
ghost use Rattle.rl_access.specs.Prelude.{memory_size, ops_of, or_error, outgoing_at, poked, port_for, quiet};
ghost use Rattle.rl_access.specs.Rules.{marked};
ghost use Rattle.rl_bus.specs.Account.{Asks};
ghost use Rattle.rl_bus.specs.Account as ask;
ghost use Rattle.rl_bus.specs.declared.table.Cell.TheVariants as cell;
ghost use Rattle.rl_access.specs.declared.event.End.TheVariants as end;
ghost use Rattle.rl_model.specs.declared.rows.Item.TheVariants as item;

use crate::engine::send;
use crate::event::{End, Op};
use crate::model::{Model, all_bytes};
use crate::trace::Trace;
use rl_bus::{Adapter, Adapters, Cell, Device};
use rl_model::Item;
use rl_policy::take;
use rl_split::Outgoing;

/// An access to a location: to all its bytes.
pub(crate) fn outgoing_at(
    model: &Model,
    mem: u32,
    place: u32,
    index: u32,
    value: u64,
    write: bool,
) -> Outgoing
    requires mem { mem < length model.now.chip.mems }
    requires place { IsPlaceFor model.now (item.Mem mem) place }
    requires index { index < memory_size model.now.chip mem }
    requires value { value < 256 ^ location_size model.now.chip mem }
    ensures outgoing { result ≡ outgoing_at model.now mem place index value write }
    ensures on { IsOutgoingOn model.now.layout result }
{
    Outgoing {
        place,
        index,
        chosen: all_bytes(model.chip().bytes(Item::Mem(mem))),
        value,
        write,
    }
}

/// How a write of a location ended.
pub(crate) fn end_of_write(trace: &Trace) -> End
    ensures end { (model : ModelData) → result ≡ (or_error (failed_at trace.now) model (quiet end.Done model)).end }
    ensures ends { ends_done result ≡ true }
    ensures within { (digits : ℕ) → IsEndWithin digits result }
{
    match trace.failed_at() {
        None => End::Done,
        Some(word) => End::BusError { word },
    }
}

fn end_of_read(model: &Model, mem: u32, place: u32, index: u32, value: u64, trace: &Trace) -> End
    requires mem { mem < length model.now.chip.mems }
    requires place { IsPlaceFor model.now (item.Mem mem) place }
    requires index { index < memory_size model.now.chip mem }
    requires value { IsBrought model.now.layout (outgoing_at model.now mem place index 0 false) trace.now value }
    ensures end { result ≡
        (or_error (failed_at trace.now) model.now
        (quiet (end.Value (location_value model.now mem place index trace.now)) model.now)).end }
    ensures ends { ends_with_value result ≡ true }
    ensures within { IsEndWithin (2 * location_size model.now.chip mem) result }
{
    // A model that is opened is known to be sound.
    let _ = model.layout();
    match trace.failed_at() {
        None => End::Value { value },
        Some(word) => End::BusError { word },
    }
}

/// Reads a location: how that ended.
pub(crate) fn read_location<D: Device>(
    model: &Model,
    device: &mut D,
    adapters: &mut Adapters,
    mem: u32,
    place: u32,
    index: u32,
    trace: &mut Trace,
) -> End
    requires empty { trace.old ≡ [] }
    requires ready { IsReady model.now (each standing adapters.old.items) (D.state device.old) }
    requires mem { mem < length model.now.chip.mems }
    requires place { IsPlaceFor model.now (item.Mem mem) place }
    requires index { index < memory_size model.now.chip mem }
    ensures ready { IsReady model.now (each standing adapters.new.items) (D.state device.new) }
    ensures sent { AreSent (adapter_for model.now.layout place) (port_for model.now.layout place)
        (ops_of model.now.layout place index (location_bytes model.now mem) 0 false) trace.new
        (each standing adapters.old.items) (each standing adapters.new.items)
        (D.account device.old) (D.account device.new) (D.state device.old) (D.state device.new) }
    ensures end { result ≡
        (or_error (failed_at trace.new) model.now
        (quiet (end.Value (location_value model.now mem place index trace.new)) model.now)).end }
    ensures items { All (ItemFits model.now.layout) trace.new }
    ensures ends { ends_with_value result ≡ true }
    ensures within { IsEndWithin (2 * location_size model.now.chip mem) result }
{
    let outgoing = outgoing_at(model, mem, place, index, 0, false);
    let value = send(model, device, adapters, &outgoing, trace);
    end_of_read(model, mem, place, index, value, trace)
}

/// 1 where a check of a location read another value than the given one.
pub(crate) fn marked(op: Op, end: End) -> u64
    ensures value { result ≡ marked op end }
    ensures mark { result ≤ 1 }
{
    match (op, end) {
        (Op::MemCheck { value, .. }, End::Value { value: read }) if read != value => 1,
        _ => 0,
    }
}

/// The bytes of a location, as the device has them.
pub(crate) fn location_sampled<D: Device>(model: &Model, device: &D, mem: u32, index: u32) -> u64
    requires device { IsDeviceOf model.now (D.state device.now) }
    requires mem { mem < length model.now.chip.mems }
    requires index { index < memory_size model.now.chip mem }
    ensures found { IsFoundAt model.now (D.state device.now) mem index result }
    ensures digits { result < 16 ^ (2 * location_size model.now.chip mem) }
{
    let bits = device.peek(Cell::Loc { mem, index });
    take(bits, 0, 8 * model.chip().bytes(Item::Mem(mem)))
}

/// Deposits bytes in a location of the device.
pub(crate) fn deposit_location<D: Device>(
    model: &Model,
    device: &mut D,
    mem: u32,
    index: u32,
    value: u64,
)
    requires device { IsDeviceOf model.now (D.state device.old) }
    requires mem { mem < length model.now.chip.mems }
    requires index { index < memory_size model.now.chip mem }
    ensures step { D.state device.new ≡ option_map (λ s. poked s (cell.Loc mem index) value) (D.state device.old) }
    ensures device { IsDeviceOf model.now (D.state device.new) }
    ensures asked { Asks (D.account device.old) (D.account device.new) (ask.poke (cell.Loc mem index) value) }
{
    device.poke(Cell::Loc { mem, index }, value);
}
