//! A table of entries, and accesses to it by index.
ghost use Rattle.std.specs.Prelude.{◌<◌, ◌^◌, map, length};
ghost use Rattle.rl_access.specs.Model.{IsReady};
ghost use Rattle.rl_indirect.specs.Bank.{IsBankOf};

use crate::accesses::{Access, access_of};
use crate::chip::table_window;
use crate::fault::Fault;
use crate::parts::opened;
use crate::summary::Summary;
use rl_access::Model;
use rl_bus::{Adapter, Adapters, Device, PlainAdapter};
use rl_indirect::{Bank, Indexed, indexed_read, indexed_write};
use std::alloc::Global;

// Makes an access.
fn make<D: Device>(
    bank: &mut Bank,
    model: &mut Model,
    device: &mut D,
    adapters: &mut Adapters,
    access: Access,
) -> Indexed
    requires ready { IsReady model.old (map standing adapters.old.items) (D.state device.old) }
    requires bank { IsBankOf model.old.chip bank.old }
    ensures ready { IsReady model.new (map standing adapters.new.items) (D.state device.new) }
    ensures bank { IsBankOf model.new.chip bank.new }
{
    match access {
        Access::Write { entry, value } => indexed_write(
            bank, model, device, adapters, None, entry, value,
        ),
        Access::Check { entry } => indexed_read(bank, model, device, adapters, None, entry, true),
    }
}

// Makes so many accesses one after another.
fn make_all<D: Device>(
    bank: &mut Bank,
    model: &mut Model,
    device: &mut D,
    adapters: &mut Adapters,
    accesses: u32,
    entries: u32,
) -> Summary
    requires ready { IsReady model.old (map standing adapters.old.items) (D.state device.old) }
    requires bank { IsBankOf model.old.chip bank.old }
{
    let mut summary = Summary::default();
    for number in 0..accesses {
        let made = make(bank, model, device, adapters, access_of(number, entries));
        summary.count(&made);
    }
    summary
}

// Makes so many accesses to a table of so many entries.
fn measure_over<D: Device>(
    alloc: Global,
    model: &mut Model,
    device: &mut D,
    adapters: &mut Adapters,
    accesses: u32,
    entries: u32,
) -> Result<Summary, Fault>
    requires ready { IsReady model.old (map standing adapters.old.items) (D.state device.old) }
{
    let window = table_window(model.chip())?;
    let mut bank = Bank::build(alloc, model, device, window, entries)?;
    Ok(make_all(&mut bank, model, device, adapters, accesses, entries))
}

// Makes them over a device model without flaws.
fn measure_by(
    alloc: Global,
    adapters: &mut Adapters,
    accesses: u32,
    entries: u32,
) -> Result<Summary, Fault>
    requires few { length (map standing adapters.old.items) < 2 ^ 32 }
{
    let (mut model, mut device) = opened(alloc, adapters)?;
    measure_over(alloc, &mut model, &mut device, adapters, accesses, entries)
}

/// Makes so many accesses to a table of so many entries, over a plain bus and a device model without flaws.
pub(crate) fn measure(alloc: Global, accesses: u32, entries: u32) -> Result<Summary, Fault> {
    let plain = PlainAdapter {
        next_tag: 0,
        trail: 0,
    };
    let mut adapters: Adapters = Vec::new(alloc);
    adapters.push(Box::new(alloc, plain)?)?;
    measure_by(alloc, &mut adapters, accesses, entries)
}
