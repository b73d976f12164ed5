//! The operations of an access go out in order, until one fails.
ghost use Rattle.std.specs.Prelude.{◌≡◌, ◌<◌, ◌^◌, [], map, length, All, false};
ghost use Rattle.rl_policy.specs.Bits.{bit, from_bits};
ghost use Rattle.rl_bus.specs.Account.{Asks};
ghost use Rattle.rl_bus.specs.Device.{IsStep, IsPortOf};
ghost use Rattle.rl_bus.specs.Spread.{AreInCell, spread_bit};
ghost use Rattle.rl_bus.specs.Standing.{standing_at, moved_on, kind_at, kinds_of};
ghost use Rattle.rl_bus.specs.Wire.{Fits};
ghost use Rattle.rl_split.specs.Outgoing.{IsOutgoingOn, outgoing_ops};
ghost use Rattle.rl_access.specs.Access.{IsBrought};
ghost use Rattle.rl_access.specs.Items.{asked_by, item_of, AreSent, IsAnswerSmall};

use crate::trace::{Trace, TraceItem};
use rl_bus::{Adapter, Adapters, BusOp, Device, Lanes, exchange};
use rl_map::Layout;
use rl_split::Outgoing;

/// Sends one operation through the adapter of that number.
pub(crate) fn send_one<D: Device>(
    device: &mut D,
    adapters: &mut Adapters,
    which: u32,
    port: u32,
    op: &BusOp,
) -> TraceItem
    requires port { IsPortOf (D.state device.old) port }
    requires in_range { which < length (map standing adapters.old.items) }
    requires fits { Fits (kind_at (kinds_of (map standing adapters.old.items)) which) op.now }
    ensures item { result ≡ item_of (standing_at (map standing adapters.old.items) which) port op.now result.answer }
    ensures small { IsAnswerSmall result }
    ensures adapters { map standing adapters.new.items ≡
        moved_on (map standing adapters.old.items) which result.op result.answer }
    ensures kinds { kinds_of (map standing adapters.new.items) ≡ kinds_of (map standing adapters.old.items) }
    ensures asked { Asks (D.account device.old) (D.account device.new) (asked_by result) }
    ensures step { IsStep (D.state device.old) (D.state device.new) port op.now result.answer }
{
    let done = exchange(device, adapters, which, port, op);
    TraceItem {
        port,
        op: *op,
        tag: done.tag,
        answer: done.answer,
    }
}

/// Sends the words of an access through the adapter of that number, ends after the first one that fails, and
/// leaves the items in a trace, which had none. It gives the value that a read brought.
pub(crate) fn send_all<D: Device>(
    device: &mut D,
    adapters: &mut Adapters,
    which: u32,
    port: u32,
    layout: &Layout,
    outgoing: &Outgoing,
    trace: &mut Trace,
) -> u64
    requires empty { trace.old ≡ [] }
    requires port { IsPortOf (D.state device.old) port }
    requires in_range { which < length (map standing adapters.old.items) }
    requires outgoing { IsOutgoingOn layout.now outgoing.now }
    requires fits { All (Fits (kind_at (kinds_of (map standing adapters.old.items)) which))
        (outgoing_ops layout.now outgoing.now) }
    ensures sent { AreSent which port (outgoing_ops layout.now outgoing.now) trace.new
        (map standing adapters.old.items) (map standing adapters.new.items)
        (D.account device.old) (D.account device.new) (D.state device.old) (D.state device.new) }
    ensures kinds { kinds_of (map standing adapters.new.items) ≡ kinds_of (map standing adapters.old.items) }
    ensures small { All IsAnswerSmall trace.new }
    ensures value { outgoing.now.write ≡ false → IsBrought layout.now outgoing.now trace.new result }
{
    let mut value = 0;
    for k in 0..layout.words(outgoing.place) {
        let Some(word) = outgoing.word(layout, k) else {
            continue;
        };
        let item = send_one(device, adapters, which, port, &word.op);
        trace.push(item);
        if item.answer.failed {
            return 0;
        }
        value |= brought(outgoing, &word.lanes, item.answer.word);
    }
    value
}

/// What the answer to a word brings of the value that is read; nothing where this is a write.
#[inline(always)]
fn brought(outgoing: &Outgoing, lanes: &Lanes, answer: u64) -> u64
    requires { AreInCell lanes.now }
    ensures { outgoing.now.write ≡ false → result ≡ from_bits 64 (spread_bit lanes.now (bit answer)) }
{
    if outgoing.write {
        0
    } else {
        lanes.spread(answer)
    }
}
