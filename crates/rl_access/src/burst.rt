//! Bursts over consecutive locations of a memory.
ghost use Rattle.std.specs.Prelude.{◌≡◌, ◌+◌, ◌^◌, ◌<◌, [], ◌∷◌, map as each, length, nat_lt, IfOk, OnOk, OnErr, Ok};
ghost use Rattle.std.specs.Prelude.{None, true};
ghost use Rattle.std.specs.List.{list_all};
ghost use Rattle.rl_access.specs.Prelude.{EventFits, HasCause, HasNumbers, IsMapIn, IsReady, grant, has_end};
ghost use Rattle.rl_access.specs.Prelude.{location_size, memory_event, only_where, quiet, register_of, scene_of};
ghost use Rattle.rl_access.specs.HandsOver.{HandsOver};
ghost use Rattle.rl_access.specs.Runs.{IsBurst, IsRun, no_tally, write_grant, writes_of, reads_of};
ghost use Rattle.rl_access.specs.Tally.{counted, is_bus_error};
ghost use Rattle.rl_access.specs.declared.event.End.TheVariants as end;

use crate::event::{End, Event, Op, Refused, Tally};
use crate::model::Model;
use crate::operation::perform_on_memory_into;
use crate::recorder::Recorder;
use crate::refusal::{Grant, only_where};
use rl_bus::{Adapter, Adapters, Device, Failed};
use rl_model::Item;

/// Hands an event to the recorder and counts it.
fn hand_over<R: Recorder>(
    model: &Model,
    event: &Event,
    rec: &mut R,
    tally: &mut Tally,
) -> Result<(), Failed>
    requires fits { EventFits model.now event.now }
    ensures taken { OnOk result (R.takes rec.old model.now event.now rec.new) }
    ensures counted { OnOk result (tally.new ≡ counted tally.old event.now) }
    ensures broken { OnErr result (R.breaks rec.old model.now event.now rec.new) }
    ensures cause { HasCause (R.faults rec.old) (R.faults rec.new) result }
    ensures steady { R.steady rec.new ≡ R.steady rec.old }
{
    rec.step(model, event)?;
    tally.count(event);
    Ok(())
}

fn is_bus_error(end: End) -> bool
    ensures { result ≡ is_bus_error end }
{
    matches!(end, End::BusError { .. })
}

// A refused burst hands over one event of the burst.
fn refuse_burst<R: Recorder>(
    model: &Model,
    op: Op,
    why: Refused,
    rec: &mut R,
) -> Result<Tally, Failed>
    requires numbers { HasNumbers model.now.chip (length model.now.layout.maps) op }
    requires register { register_of model.now.chip op ≡ None }
    requires ends { has_end op (end.Refused why) ≡ true }
    ensures handed { HandsOver R.takes R.breaks rec.old
        (record { model = model.now; event = memory_event op [] (quiet (end.Refused why) model.now) } ∷ [])
        rec.new result }
    ensures tally { IfOk result (λ tally.
        tally ≡ counted no_tally (memory_event op [] (quiet (end.Refused why) model.now))) }
    ensures cause { HasCause (R.faults rec.old) (R.faults rec.new) result }
    ensures steady { R.steady rec.new ≡ R.steady rec.old }
{
    let mut tally = Tally::new();
    let mut event = Event::blank();
    model.refuse_memory(op, why, &mut event);
    hand_over(model, &event, rec, &mut tally)?;
    Ok(tally)
}

/// Writes values to consecutive locations of a memory, in ascending order, and hands each event to the recorder:
/// `uvm_mem::burst_write` (IEEE 1800.2-2017, 18.6).
///
/// It ends after the first bus error. A burst of which any value is too wide is refused before its first location.
pub fn burst_write<D: Device, R: Recorder>(
    model: &mut Model,
    device: &mut D,
    adapters: &mut Adapters,
    mem: u32,
    map: Option<u32>,
    first: u64,
    values: &[u64],
    rec: &mut R,
) -> Result<Tally, Failed>
    requires ready { IsReady model.old (each standing adapters.old.items) (D.state device.old) }
    requires mem { mem < length model.old.chip.mems }
    requires map { IsMapIn (length model.old.layout.maps) map }
    ensures model { model.new ≡ model.old }
    ensures ready { IsReady model.new (each standing adapters.new.items) (D.state device.new) }
    ensures hands_over { IsBurst R.takes R.breaks rec.old rec.new
        (scene_of standing D.account D.state model.old adapters.old.items device.old)
        (scene_of standing D.account D.state model.new adapters.new.items device.new)
        (write_grant model.old mem map first values.now) (Op.BurstWrite mem map first (length values.now))
        (writes_of mem map first values.now) result }
    ensures cause { HasCause (R.faults rec.old) (R.faults rec.new) result }
    ensures steady { R.steady rec.new ≡ R.steady rec.old }
    ensures refused { OnErr (write_grant model.old mem map first values.now) (device.new ≡ device.old) }
{
    let count = values.len() as u64;
    let place = model.place_of(Item::Mem(mem), map);
    let op = Op::BurstWrite {
        mem,
        map: model.map_used(place, map),
        first,
        count,
    };
    let way = model.writable(mem, model.way(place, true));
    let grant = model.at_locations(mem, first, count, way);
    match all_fitting(model, mem, values, grant) {
        Ok(_) => write_locations(model, device, adapters, mem, map, first, values, rec),
        Err(why) => refuse_burst(model, op, why, rec),
    }
}

// Granted where the location's bytes hold each value.
fn all_fitting(model: &Model, mem: u32, values: &[u64], grant: Grant) -> Grant
    requires { mem < length model.now.chip.mems }
    ensures grant { result ≡
        only_where grant (list_all (λ v. nat_lt v (256 ^ location_size model.now.chip mem)) values.now)
        Refused.TooWide }
    ensures before { IfOk result (λ p. grant ≡ Ok p) }
{
    let all = values
        .iter()
        .all(|&value| model.is_fitting(Item::Mem(mem), value));
    only_where(grant, all, Refused::TooWide)
}

fn write_locations<D: Device, R: Recorder>(
    model: &mut Model,
    device: &mut D,
    adapters: &mut Adapters,
    mem: u32,
    map: Option<u32>,
    first: u64,
    values: &[u64],
    rec: &mut R,
) -> Result<Tally, Failed>
    requires ready { IsReady model.old (each standing adapters.old.items) (D.state device.old) }
    requires mem { mem < length model.old.chip.mems }
    requires map { IsMapIn (length model.old.layout.maps) map }
    requires small { first + length values.now < 2 ^ 64 }
    ensures model { model.new ≡ model.old }
    ensures ready { IsReady model.new (each standing adapters.new.items) (D.state device.new) }
    ensures run { IsRun R.takes R.breaks rec.old rec.new
        (scene_of standing D.account D.state model.old adapters.old.items device.old)
        (scene_of standing D.account D.state model.new adapters.new.items device.new)
        (writes_of mem map first values.now) result }
    ensures cause { HasCause (R.faults rec.old) (R.faults rec.new) result }
    ensures steady { R.steady rec.new ≡ R.steady rec.old }
{
    let mut tally = Tally::new();
    let mut event = Event::blank();
    for (k, value) in values.iter().enumerate() {
        let op = Op::MemWrite {
            mem,
            map,
            index: first + k as u64,
            value: *value,
        };
        perform_on_memory_into(model, device, adapters, op, &mut event);
        hand_over(model, &event, rec, &mut tally)?;
        if is_bus_error(event.end) {
            return Ok(tally);
        }
    }
    Ok(tally)
}

/// Reads consecutive locations of a memory, in ascending order, and hands each event to the recorder:
/// `uvm_mem::burst_read` (IEEE 1800.2-2017, 18.6). It ends after the first bus error.
pub fn burst_read<D: Device, R: Recorder>(
    model: &mut Model,
    device: &mut D,
    adapters: &mut Adapters,
    mem: u32,
    map: Option<u32>,
    first: u64,
    count: u64,
    rec: &mut R,
) -> Result<Tally, Failed>
    requires ready { IsReady model.old (each standing adapters.old.items) (D.state device.old) }
    requires mem { mem < length model.old.chip.mems }
    requires map { IsMapIn (length model.old.layout.maps) map }
    ensures model { model.new ≡ model.old }
    ensures ready { IsReady model.new (each standing adapters.new.items) (D.state device.new) }
    ensures hands_over { IsBurst R.takes R.breaks rec.old rec.new
        (scene_of standing D.account D.state model.old adapters.old.items device.old)
        (scene_of standing D.account D.state model.new adapters.new.items device.new)
        (grant model.old (Op.BurstRead mem map first count)) (Op.BurstRead mem map first count)
        (reads_of mem map first count) result }
    ensures cause { HasCause (R.faults rec.old) (R.faults rec.new) result }
    ensures steady { R.steady rec.new ≡ R.steady rec.old }
    ensures refused { OnErr (grant model.old (Op.BurstRead mem map first count)) (device.new ≡ device.old) }
{
    let place = model.place_of(Item::Mem(mem), map);
    let op = Op::BurstRead {
        mem,
        map: model.map_used(place, map),
        first,
        count,
    };
    match model.at_locations(mem, first, count, model.way(place, false)) {
        Ok(_) => read_locations(model, device, adapters, mem, map, first, count, rec),
        Err(why) => refuse_burst(model, op, why, rec),
    }
}

fn read_locations<D: Device, R: Recorder>(
    model: &mut Model,
    device: &mut D,
    adapters: &mut Adapters,
    mem: u32,
    map: Option<u32>,
    first: u64,
    count: u64,
    rec: &mut R,
) -> Result<Tally, Failed>
    requires ready { IsReady model.old (each standing adapters.old.items) (D.state device.old) }
    requires mem { mem < length model.old.chip.mems }
    requires map { IsMapIn (length model.old.layout.maps) map }
    requires small { first + count < 2 ^ 64 }
    ensures model { model.new ≡ model.old }
    ensures ready { IsReady model.new (each standing adapters.new.items) (D.state device.new) }
    ensures run { IsRun R.takes R.breaks rec.old rec.new
        (scene_of standing D.account D.state model.old adapters.old.items device.old)
        (scene_of standing D.account D.state model.new adapters.new.items device.new)
        (reads_of mem map first count) result }
    ensures cause { HasCause (R.faults rec.old) (R.faults rec.new) result }
    ensures steady { R.steady rec.new ≡ R.steady rec.old }
{
    let mut tally = Tally::new();
    let mut event = Event::blank();
    for index in first..first + count {
        let op = Op::MemRead { mem, map, index };
        perform_on_memory_into(model, device, adapters, op, &mut event);
        hand_over(model, &event, rec, &mut tally)?;
        if is_bus_error(event.end) {
            return Ok(tally);
        }
    }
    Ok(tally)
}
