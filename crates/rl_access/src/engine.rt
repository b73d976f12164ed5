//! What all accesses over the bus have in common.
ghost use Rattle.std.specs.Prelude.{◌≡◌, ℕ, ◌<◌, ◌^◌, [], map, length, All, true, false};
ghost use Rattle.rl_access.specs.Prelude.{AreSent, EventFits, IsAccessOn, IsBrought, IsEndWithin, IsOutgoingOn};
ghost use Rattle.rl_access.specs.Prelude.{IsReady, IsSameChip, IsTold, IsValueWithin, ItemFits, access_ops};
ghost use Rattle.rl_access.specs.Prelude.{adapter_for, count_of, digits_of, ends_with_value, has_end};
ghost use Rattle.rl_access.specs.Prelude.{outgoing_of, outgoing_ops, place_at, port_for, read_outcome};
ghost use Rattle.rl_access.specs.Prelude.{register_event, write_outcome};
ghost use Rattle.rl_access.specs.declared.event.End.TheVariants as end;

use crate::access::Access;
use crate::event::{End, Event};
use crate::model::Model;
use crate::send::send_all;
use crate::trace::Trace;
use rl_bus::{Adapter, Adapters, Device};
use rl_split::Outgoing;

/// Sends the words of an access to the port of its place, and leaves the items in a trace, which had none. It
/// gives the value that a read brought.
pub(crate) fn send<D: Device>(
    model: &Model,
    device: &mut D,
    adapters: &mut Adapters,
    outgoing: &Outgoing,
    trace: &mut Trace,
) -> u64
    requires empty { trace.old ≡ [] }
    requires ready { IsReady model.now (map standing adapters.old.items) (D.state device.old) }
    requires outgoing { IsOutgoingOn model.now.layout outgoing.now }
    ensures sent { AreSent (adapter_for model.now.layout outgoing.now.place)
        (port_for model.now.layout outgoing.now.place) (outgoing_ops model.now.layout outgoing.now) trace.new
        (map standing adapters.old.items) (map standing adapters.new.items)
        (D.account device.old) (D.account device.new) (D.state device.old) (D.state device.new) }
    ensures ready { IsReady model.now (map standing adapters.new.items) (D.state device.new) }
    ensures fit { All (ItemFits model.now.layout) trace.new }
    ensures value { outgoing.now.write ≡ false → IsBrought model.now.layout outgoing.now trace.new result }
{
    let layout = model.layout();
    let port = layout.port_of(outgoing.place);
    let which = layout.adapter(port);
    send_all(device, adapters, which, port, layout, outgoing, trace)
}

/// Takes a write as done, unless an item failed.
fn conclude_write(model: &mut Model, access: &Access, good: End, trace: &Trace) -> End
    requires reg { access.now.reg < length model.old.chip.regs }
    ensures end { result ≡ (write_outcome model.old good access.now trace.now).end }
    ensures model { model.new ≡ (write_outcome model.old good access.now trace.now).model }
{
    match trace.failed_at() {
        None => {
            model.predict_write(access);
            good
        }
        Some(word) => End::BusError { word },
    }
}

/// A write of a register, recorded in the event of an operation that has sent nothing yet and ends so where no
/// item failed.
pub(crate) fn write_as<D: Device>(
    model: &mut Model,
    device: &mut D,
    adapters: &mut Adapters,
    access: &Access,
    good: End,
    event: &mut Event,
)
    requires empty { event.old.trace ≡ [] }
    requires ready { IsReady model.old (map standing adapters.old.items) (D.state device.old) }
    requires access { IsAccessOn model.old access.now }
    requires told { IsTold model.old event.old.op access.now.reg }
    requires ends { has_end event.old.op good ≡ true }
    requires within { IsEndWithin (digits_of model.old.chip event.old.op) good }
    ensures ready { IsReady model.new (map standing adapters.new.items) (D.state device.new) }
    ensures sent { AreSent (adapter_for model.old.layout access.now.place) (port_for model.old.layout access.now.place)
        (access_ops model.old access.now true) event.new.trace
        (map standing adapters.old.items) (map standing adapters.new.items)
        (D.account device.old) (D.account device.new) (D.state device.old) (D.state device.new) }
    ensures event { event.new ≡
        register_event event.old.op access.now.reg event.new.trace
        (write_outcome model.old good access.now event.new.trace) }
    ensures model { model.new ≡ (write_outcome model.old good access.now event.new.trace).model }
    ensures parts { IsSameChip model.old model.new }
    ensures fits { EventFits model.new event.new }
{
    send(
        model,
        device,
        adapters,
        &access.outgoing(true),
        &mut event.trace,
    );
    let end = conclude_write(model, access, good, &event.trace);
    model.conclude(access.reg, end, 0, event);
}

/// Takes a read that brought the value as done, unless an item failed, and names the fields that differ from
/// what was believed before it, where this is a check.
fn conclude_read(
    model: &mut Model,
    access: &Access,
    check: bool,
    value: u64,
    trace: &Trace,
) -> (End, u64)
    requires access { IsAccessOn model.old access.now }
    requires value { IsBrought model.old.layout (outgoing_of access.now false) trace.now value }
    ensures end { result.0 ≡ (read_outcome model.old check access.now trace.now).end }
    ensures differ { result.1 ≡ (read_outcome model.old check access.now trace.now).differ }
    ensures model { model.new ≡ (read_outcome model.old check access.now trace.now).model }
    ensures fits { IsValueWithin (256 ^ (place_at model.old.layout access.now.place).bytes) result.0 }
    ensures ends { ends_with_value result.0 ≡ true }
    ensures fields { result.1 < 2 ^ count_of model.old.chip access.now.reg }
{
    // A model that is opened is known to be sound.
    let _ = model.chip();
    match trace.failed_at() {
        None => {
            let differ = model.differ(check, access.reg, value);
            model.predict_read(access.reg, value, access.fields);
            (End::Value { value }, differ)
        }
        Some(word) => (End::BusError { word }, 0),
    }
}

/// A read of a register: how it ended, and the differing fields. It leaves the items in a trace, which had none.
pub(crate) fn read<D: Device>(
    model: &mut Model,
    device: &mut D,
    adapters: &mut Adapters,
    access: &Access,
    check: bool,
    trace: &mut Trace,
) -> (End, u64)
    requires empty { trace.old ≡ [] }
    requires ready { IsReady model.old (map standing adapters.old.items) (D.state device.old) }
    requires access { IsAccessOn model.old access.now }
    ensures ready { IsReady model.new (map standing adapters.new.items) (D.state device.new) }
    ensures sent { AreSent (adapter_for model.old.layout access.now.place) (port_for model.old.layout access.now.place)
        (access_ops model.old access.now false) trace.new
        (map standing adapters.old.items) (map standing adapters.new.items)
        (D.account device.old) (D.account device.new) (D.state device.old) (D.state device.new) }
    ensures end { result.0 ≡ (read_outcome model.old check access.now trace.new).end }
    ensures differ { result.1 ≡ (read_outcome model.old check access.now trace.new).differ }
    ensures model { model.new ≡ (read_outcome model.old check access.now trace.new).model }
    ensures within { IsValueWithin (256 ^ (place_at model.old.layout access.now.place).bytes) result.0 }
    ensures ends { ends_with_value result.0 ≡ true }
    ensures fields { result.1 < 2 ^ count_of model.old.chip access.now.reg }
    ensures parts { IsSameChip model.old model.new }
    ensures items { All (ItemFits model.old.layout) trace.new }
{
    let value = send(model, device, adapters, &access.outgoing(false), trace);
    conclude_read(model, access, check, value, trace)
}

/// A read of a register, recorded in the event of an operation that has sent nothing yet.
pub(crate) fn read_as<D: Device>(
    model: &mut Model,
    device: &mut D,
    adapters: &mut Adapters,
    access: &Access,
    check: bool,
    event: &mut Event,
)
    requires empty { event.old.trace ≡ [] }
    requires ready { IsReady model.old (map standing adapters.old.items) (D.state device.old) }
    requires access { IsAccessOn model.old access.now }
    requires told { IsTold model.old event.old.op access.now.reg }
    requires ends { (value : ℕ) → has_end event.old.op (end.Value value) ≡ true }
    requires digits { 16 ^ digits_of model.old.chip event.old.op ≡
        256 ^ (place_at model.old.layout access.now.place).bytes }
    ensures ready { IsReady model.new (map standing adapters.new.items) (D.state device.new) }
    ensures sent { AreSent (adapter_for model.old.layout access.now.place) (port_for model.old.layout access.now.place)
        (access_ops model.old access.now false) event.new.trace
        (map standing adapters.old.items) (map standing adapters.new.items)
        (D.account device.old) (D.account device.new) (D.state device.old) (D.state device.new) }
    ensures event { event.new ≡
        register_event event.old.op access.now.reg event.new.trace
        (read_outcome model.old check access.now event.new.trace) }
    ensures model { model.new ≡ (read_outcome model.old check access.now event.new.trace).model }
    ensures parts { IsSameChip model.old model.new }
    ensures fits { EventFits model.new event.new }
{
    let (end, differ) = read(model, device, adapters, access, check, &mut event.trace);
    model.conclude(access.reg, end, differ, event);
}
