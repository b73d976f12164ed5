// Each call of one operation that no command makes by itself, once over the device model.
ghost use Rattle.std.specs.Prelude.{IfOk, map};
ghost use Rattle.rl_access.specs.Model.{IsDeviceOf, IsReady, IsSameChip};
ghost use Rattle.test_calls.specs.There.{AreThere};

use self::Call::*;
use crate::accesses::fixture::{Task, performed};
use crate::accesses::stand::Stand;
use rl_access::{
    End, Event, Model, back_read, back_write, field_read, field_write, front_read, hw, mem_check,
    mem_peek, mem_poke, other_read, other_write, peek, poke, reset, set, show, update,
};
use rl_bus::{Adapter, Device};
use std::process::Abort;
use std::test::Fail;

// A register of two fields under either prediction, a status register and a memory.
fn chip() -> &'static str {
    "
reg = [
    {name = 'a', bytes = 2, field = [
        {name = 'v', lsb = 0, width = 8, policy = 'RW', alone = true, reset = 0x12},
        {name = 'w', lsb = 8, width = 8, policy = 'RW'},
    ]},
    {name = 's', bytes = 1, field = [{name = 'f', lsb = 0, width = 8, policy = 'RO', volatile = true}]},
]
mem = [{name = 'm', bytes = 1, size = 4}]
map = [{name = 'bus', bytes = 1}, {name = 'per', bytes = 1, predict = 'explicit'}]
place = [
    {map = 'bus', item = 'a'},
    {map = 'bus', item = 's', offset = 2},
    {map = 'bus', item = 'm', offset = 4},
    {map = 'per', item = 'a'},
]
"
}

// A call, of the register `a`, one of its fields, the field of `s` or the third location of `m`.
enum Call {
    FrontRead,
    FieldWrite(u64),
    FieldRead,
    Set(u64),
    Show,
    Update,
    BackWrite(u64),
    BackRead,
    Peek,
    Poke(u64),
    MemPoke(u64),
    MemPeek,
    MemCheck(u64),
    OtherWrite(u64),
    OtherRead,
    Hw(u64),
    Reset,
}

// How a call ended, what is mirrored and desired then, the differing fields, and how many items it sent.
type Seen = (End, u64, u64, u64, u32);

static CALLS: [(Call, Seen); 17] = [
    (
        FrontRead,
        (End::Value { value: 0x12 }, 0x0012, 0x0012, 0, 2),
    ),
    (FieldWrite(0x34), (End::Done, 0x0034, 0x0034, 0, 1)),
    (
        FieldRead,
        (End::Value { value: 0x34 }, 0x0034, 0x0034, 0, 1),
    ),
    (Set(0x56), (End::Done, 0x0034, 0x5634, 0, 0)),
    (Show, (End::Done, 0x0034, 0x5634, 0, 0)),
    (Update, (End::Sent { word: 0x5634 }, 0x5634, 0x5634, 0, 2)),
    (BackWrite(0x789a), (End::Done, 0x789a, 0x789a, 0, 0)),
    (
        BackRead,
        (End::Value { value: 0x789a }, 0x789a, 0x789a, 0, 0),
    ),
    (Peek, (End::Value { value: 0x789a }, 0x789a, 0x789a, 0, 0)),
    (Poke(0x1357), (End::Done, 0x1357, 0x1357, 0, 0)),
    (MemPoke(0x5a), (End::Done, 0, 0, 0, 0)),
    (MemPeek, (End::Value { value: 0x5a }, 0, 0, 0, 0)),
    (MemCheck(0x5b), (End::Value { value: 0x5a }, 0, 0, 1, 1)),
    (OtherWrite(0x2468), (End::Done, 0x2468, 0x2468, 0, 2)),
    (
        OtherRead,
        (End::Value { value: 0x2468 }, 0x2468, 0x2468, 0, 2),
    ),
    (Hw(0x77), (End::Done, 0, 0, 0, 0)),
    (Reset, (End::Done, 0, 0, 0, 0)),
];

// By a function, so that no proof reads it.
fn calls() -> &'static [(Call, Seen)] {
    &CALLS
}

fn seen(event: &Event) -> Seen {
    (
        event.end,
        event.mirrored,
        event.desired,
        event.differ,
        event.trace.len(),
    )
}

fn told(event: &Event) -> Result<Option<Seen>, Fail> {
    Ok(Some(seen(event)))
}

// That the chip has what the calls are of.
fn have_all(model: &Model) -> Result<(), Fail>
    ensures { IfOk result (λ _. AreThere model.now) }
{
    let chip = model.chip();
    if chip.regs() == 0 || chip.fields() < 3 || chip.mems() == 0 || chip.kinds() == 0 {
        return Err("another chip".into());
    }
    match model.layout().map_by_name(b"per") {
        Some(1) => Ok(()),
        _ => Err("another map".into()),
    }
}

// Makes a call that goes over the bus; none where it doesn't.
fn made_on_bus<D: Device>(on: &mut Stand<'_, D>, call: &Call) -> Result<Option<Seen>, Fail>
    requires ready { IsReady on.old.model.now (map standing on.old.adapters.now.items) (D.state on.old.device.now) }
    ensures ready { IsReady on.new.model.now (map standing on.new.adapters.now.items) (D.state on.new.device.now) }
{
    have_all(on.model)?;
    match call {
        FrontRead => told(&front_read(on.model, on.device, on.adapters, 0, None)),
        FieldWrite(value) => told(&field_write(on.model, on.device, on.adapters, 0, None, *value)),
        FieldRead => told(&field_read(on.model, on.device, on.adapters, 0, None)),
        Update => told(&update(on.model, on.device, on.adapters, 0, None)),
        MemCheck(value) => told(&mem_check(on.model, on.device, on.adapters, 0, None, 2, *value)),
        OtherWrite(value) => told(&other_write(
            on.model,
            on.device,
            on.adapters,
            0,
            Some(1),
            *value,
        )),
        OtherRead => told(&other_read(on.model, on.device, on.adapters, 0, Some(1))),
        _ => Ok(None),
    }
}

// Makes one by the backdoor or of the hardware; none where it isn't that.
fn made_off_bus<D: Device>(
    model: &mut Model,
    device: &mut D,
    call: &Call,
) -> Result<Option<Seen>, Fail>
    requires device { IsDeviceOf model.old (D.state device.old) }
    ensures device { IsDeviceOf model.new (D.state device.new) }
    ensures parts { IsSameChip model.old model.new }
{
    have_all(model)?;
    let event = match call {
        BackWrite(value) => back_write(model, device, 0, *value),
        BackRead => back_read(model, device, 0, false),
        Peek => peek(model, device, 0),
        Poke(value) => poke(model, device, 0, *value),
        MemPoke(value) => mem_poke(model, device, 0, 2, *value),
        MemPeek => mem_peek(model, device, 0, 2),
        Hw(value) => hw(model, device, 2, *value),
        Reset => reset(model, device, 0),
        _ => return Ok(None),
    };
    Ok(Some(seen(&event)))
}

// Makes one of the model alone.
fn made_alone(model: &mut Model, call: &Call) -> Result<Seen, Fail>
    ensures { IsSameChip model.old model.new }
{
    have_all(model)?;
    match call {
        Set(value) => Ok(seen(&set(model, 1, *value))),
        Show => Ok(seen(&show(model, 0))),
        _ => Err("no such call".into()),
    }
}

// Makes a call.
#[tactic(auto, using(crate::proofs::Readies::ready_again, crate::proofs::Readies::ready_alone))]
fn made<D: Device>(on: &mut Stand<'_, D>, call: &Call) -> Result<Seen, Fail>
    requires ready { IsReady on.old.model.now (map standing on.old.adapters.now.items) (D.state on.old.device.now) }
    ensures ready { IsReady on.new.model.now (map standing on.new.adapters.now.items) (D.state on.new.device.now) }
{
    if let Some(seen) = made_on_bus(on, call)? {
        return Ok(seen);
    }
    if let Some(seen) = made_off_bus(on.model, on.device, call)? {
        return Ok(seen);
    }
    made_alone(on.model, call)
}

/// Makes the calls one after another, each of which is to come to what is beside it.
pub(crate) fn all_made<D: Device>(rt: &impl Abort, on: &mut Stand<'_, D>) -> Result<(), Fail>
    requires ready { IsReady on.old.model.now (map standing on.old.adapters.now.items) (D.state on.old.device.now) }
{
    for (call, want) in calls() {
        assert_eq!(rt; made(on, call)?, *want);
    }
    Ok(())
}

#[test]
fn calls_that_no_command_makes(rt: HostRuntime) -> Result<(), Fail> {
    performed(&rt, chip(), &Task::Call)
}
