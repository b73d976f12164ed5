// Regions of a memory, and accesses through them.
ghost use Rattle.std.specs.Prelude.{◌≡◌, map};
ghost use Rattle.rl_access.specs.Model.{IsReady};
ghost use Rattle.rl_mam.specs.Mam.{IsManagerOf};

use self::Made::{Ended, Steps};
use crate::accesses::fixture::{Task, performed};
use crate::accesses::stand::Stand;
use rl_access::{End, Event, Model, Recorder, Refused};
use rl_bus::{Adapter, Device, Failed};
use rl_mam::{Mam, MamFault, Region, RegionFault};
use std::alloc::AllocGlobal;
use std::process::Abort;
use std::test::Fail;

enum Call {
    Reserve(u64, u64),
    Request(u64),
    Release(u64),
}

// What is called one after another, and the first location and the length that are answered.
type Called = (Call, Result<(u64, u64), MamFault>);

static CALLS: [Called; 7] = [
    (Call::Reserve(2, 3), Ok((2, 3))),
    (Call::Request(2), Ok((0, 2))),
    (Call::Request(3), Ok((5, 3))),
    (Call::Request(3), Err(MamFault::NoRoom { longest: 2 })),
    (Call::Reserve(4, 2), Err(MamFault::Overlap { first: 2 })),
    (Call::Release(2), Ok((2, 3))),
    (Call::Request(3), Ok((2, 3))),
];

fn calls() -> &'static [Called] {
    &CALLS
}

fn called(mam: &mut Mam, call: &Call) -> Result<Region, MamFault>
    ensures mem { mam.new.mem ≡ mam.old.mem }
    ensures size { mam.new.size ≡ mam.old.size }
{
    match call {
        Call::Reserve(first, len) => mam.reserve(*first, *len),
        Call::Request(len) => mam.request(*len),
        Call::Release(first) => mam.release(*first).ok_or(MamFault::Empty),
    }
}

fn all_called(rt: &impl Abort, mam: &mut Mam)
    ensures mem { mam.new.mem ≡ mam.old.mem }
    ensures size { mam.new.size ≡ mam.old.size }
{
    for (call, want) in calls() {
        let got = called(mam, call).map(|region| (region.first, region.len));
        assert_eq!(rt; got, *want);
    }
}

// An access through the region that begins at the first number, from its location of the second number on. The events
// of a burst go to a recorder with room for so many.
enum Access {
    Write(u64, u64, u64),
    Read(u64, u64),
    Burst(u64, u64, &'static [u64], u64),
}

// What an access came to.
#[derive(Clone, Copy, Debug, PartialEq, Eq)]
enum Made {
    // How the only one ended.
    Ended(End),
    // How many a burst made.
    Steps(u64),
}

type Seen = Result<Made, RegionFault>;

const WRITTEN: Seen = Ok(Ended(End::Done));

const TOO_WIDE: Seen = Ok(Ended(End::Refused {
    why: Refused::TooWide,
}));

const OUTSIDE: Seen = Err(RegionFault::OutsideRegion { len: 3 });

// Regions begin at 0, 2 and 5, the first one of two locations, the others of three.
static ACCESSES: [(Access, Seen); 15] = [
    (Access::Write(2, 0, 0x11), WRITTEN),
    (Access::Write(2, 2, 0x33), WRITTEN),
    (Access::Write(2, 3, 0x44), OUTSIDE),
    (Access::Read(2, u64::MAX), OUTSIDE),
    (Access::Write(2, 1, 0x100), TOO_WIDE),
    // A location of a region, at which none begins.
    (Access::Read(3, 0), Err(RegionFault::NoSuchRegion)),
    (Access::Burst(5, 1, &[0x55, 0x66], 2), Ok(Steps(2))),
    (Access::Burst(5, 2, &[0x77, 0x88], 2), OUTSIDE),
    (Access::Read(5, 0), Ok(Ended(End::Value { value: 0x00 }))),
    (Access::Read(5, 1), Ok(Ended(End::Value { value: 0x55 }))),
    (Access::Read(5, 2), Ok(Ended(End::Value { value: 0x66 }))),
    // The second event isn't taken, and its location is written.
    (
        Access::Burst(0, 0, &[0x77, 0x88], 1),
        Err(RegionFault::Recorder),
    ),
    (Access::Read(0, 1), Ok(Ended(End::Value { value: 0x88 }))),
    (Access::Read(2, 0), Ok(Ended(End::Value { value: 0x11 }))),
    (Access::Read(2, 2), Ok(Ended(End::Value { value: 0x33 }))),
];

fn accesses() -> &'static [(Access, Seen)] {
    &ACCESSES
}

// A recorder with room for so many events.
#[derive(Drop)]
struct Room {
    left: u64,
    faults: u64,
}

impl Recorder for Room {
    ghost faults = { λ r. r.faults };

    ghost takes = { λ _ _ _ _. Unit {0} };

    ghost breaks = { λ _ _ _ _. Unit {0} };

    fn step(&mut self, _model: &Model, _event: &Event) -> Result<(), Failed> {
        if self.left == 0 {
            self.faults = self.faults.saturating_add(1);
            return Err(Failed);
        }
        self.left -= 1;
        Ok(())
    }
}

fn accessed<D: Device>(mam: &Mam, on: &mut Stand<'_, D>, access: &Access) -> Seen
    requires ready { IsReady on.old.model.now (map standing on.old.adapters.now.items) (D.state on.old.device.now) }
    requires manager { IsManagerOf on.old.model.now.chip mam.now }
    ensures ready { IsReady on.new.model.now (map standing on.new.adapters.now.items) (D.state on.new.device.now) }
    ensures same { on.new.model.now ≡ on.old.model.now }
{
    match access {
        Access::Write(first, k, value) => {
            let event = mam.write(on.model, on.device, on.adapters, None, *first, *k, *value)?;
            Ok(Ended(event.end))
        }
        Access::Read(first, k) => {
            let event = mam.read(on.model, on.device, on.adapters, None, *first, *k)?;
            Ok(Ended(event.end))
        }
        Access::Burst(first, k, values, room) => {
            let mut rec = Room {
                left: *room,
                faults: 0,
            };
            let tally = mam.burst_write(
                on.model,
                on.device,
                on.adapters,
                None,
                *first,
                *k,
                values,
                &mut rec,
            )?;
            Ok(Steps(tally.steps))
        }
    }
}

fn all_accessed<D: Device>(rt: &impl Abort, mam: &Mam, on: &mut Stand<'_, D>)
    requires ready { IsReady on.old.model.now (map standing on.old.adapters.now.items) (D.state on.old.device.now) }
    requires manager { IsManagerOf on.old.model.now.chip mam.now }
{
    for (access, want) in accesses() {
        let seen = accessed(mam, on, access);
        assert_eq!(rt; seen, *want);
    }
}

fn called_and_accessed<D: Device>(rt: &impl Abort, mam: &mut Mam, on: &mut Stand<'_, D>)
    requires ready { IsReady on.old.model.now (map standing on.old.adapters.now.items) (D.state on.old.device.now) }
    requires manager { IsManagerOf on.old.model.now.chip mam.old }
{
    all_called(rt, mam);
    assert_eq!(rt; mam.regions().len(), 3);
    all_accessed(rt, mam, on);
}

/// Gives out regions of the first memory, and accesses them.
pub(crate) fn regions_accessed<D: Device>(
    rt: &(impl Abort + AllocGlobal),
    on: &mut Stand<'_, D>,
) -> Result<(), Fail>
    requires ready { IsReady on.old.model.now (map standing on.old.adapters.now.items) (D.state on.old.device.now) }
{
    if on.model.chip().mems() == 0 {
        return Err("no memory".into());
    }
    let mut mam = Mam::build(rt.alloc(), on.model.chip(), 0);
    called_and_accessed(rt, &mut mam, on);
    Ok(())
}

// A memory of 10 locations.
fn chip() -> &'static str {
    "
mem = [{name = 'm', bytes = 1, size = 10}]
map = [{name = 'bus', bytes = 1}]
place = [{map = 'bus', item = 'm'}]
"
}

#[test]
fn regions_are_given_out_and_accessed(rt: HostRuntime) -> Result<(), Fail> {
    performed(&rt, chip(), &Task::Regions)
}
