// Accesses by index, and what they come to.
ghost use Rattle.std.specs.Prelude.{◌≡◌, ◌<◌, ◌≤◌, length, map};
ghost use Rattle.rl_access.specs.Model.{IsReady};
ghost use Rattle.rl_indirect.specs.Bank.{IsBankOf, IsOverData, IsSameBank};

use super::chip::window;
use crate::accesses::stand::Stand;
use rl_access::{End, Model};
use rl_bus::{Adapter, Device};
use rl_indirect::{Bank, Indexed, indexed_read, indexed_write};
use std::alloc::AllocGlobal;
use std::process::Abort;
use std::test::Fail;

/// An access to an entry.
#[derive(Debug)]
pub(crate) enum Call {
    Write(u32, u64),
    Read(u32),
    Check(u32),
}

/// How the accesses to the index register and to the data register ended, where they were made, which fields the second
/// one names, and how many items both sent.
pub(crate) type Seen = (Option<End>, Option<End>, u64, u32);

pub(crate) const NO_SUCH_ENTRY: Seen = (None, None, 0, 0);

/// A write that was done, of a register of two words.
pub(crate) const WRITTEN: Seen = (Some(End::Done), Some(End::Done), 0, 3);

fn outcome(indexed: &Indexed) -> Seen {
    match indexed {
        Indexed::NoSuchEntry => NO_SUCH_ENTRY,
        Indexed::AtIndex { index } => (Some(index.end), None, 0, index.trace.len()),
        Indexed::At { index, access } => {
            let items = index.trace.len() + access.trace.len();
            (Some(index.end), Some(access.end), access.differ, items)
        }
    }
}

// Makes an access.
fn make<D: Device>(bank: &mut Bank, on: &mut Stand<'_, D>, call: &Call) -> Seen
    requires ready { IsReady on.old.model.now (map standing on.old.adapters.now.items) (D.state on.old.device.now) }
    requires bank { IsBankOf on.old.model.now.chip bank.old }
    ensures ready { IsReady on.new.model.now (map standing on.new.adapters.now.items) (D.state on.new.device.now) }
    ensures bank { IsBankOf on.new.model.now.chip bank.new }
    ensures data { IsOverData (D.state on.new.device.now) bank.new }
    ensures same { IsSameBank bank.old bank.new }
{
    let indexed = match call {
        Call::Write(k, value) => indexed_write(
            bank,
            on.model,
            on.device,
            on.adapters,
            None,
            *k,
            *value,
        ),
        Call::Read(k) => indexed_read(bank, on.model, on.device, on.adapters, None, *k, false),
        Call::Check(k) => indexed_read(bank, on.model, on.device, on.adapters, None, *k, true),
    };
    outcome(&indexed)
}

// Makes the accesses one after another, each of which is to come to what stands beside it.
fn make_all<D: Device>(
    rt: &impl Abort,
    bank: &mut Bank,
    on: &mut Stand<'_, D>,
    rows: &[(Call, Seen)],
)
    requires ready { IsReady on.old.model.now (map standing on.old.adapters.now.items) (D.state on.old.device.now) }
    requires bank { IsBankOf on.old.model.now.chip bank.old }
    requires data { IsOverData (D.state on.old.device.now) bank.old }
    ensures bank { IsBankOf on.new.model.now.chip bank.new }
    ensures data { IsOverData (D.state on.new.device.now) bank.new }
    ensures same { IsSameBank bank.old bank.new }
{
    for (call, want) in rows {
        let seen = make(bank, on, call);
        assert_eq!(rt; seen, *want, "{call:?}");
    }
}

/// The first four entries, of the device and of the model.
pub(crate) type Entries = ([u64; 4], [u64; 4]);

fn entries<D: Device>(bank: &Bank, model: &Model, device: &D) -> Entries
    requires size { bank.now.size ≡ 4 }
    requires bank { IsBankOf model.now.chip bank.now }
    requires data { IsOverData (D.state device.now) bank.now }
{
    let mut there = [0; 4];
    let mut believed = [0; 4];
    for k in 0..4u32 {
        there[k as usize] = bank.entry(device, k);
        believed[k as usize] = bank.mirrored(model, k);
    }
    (there, believed)
}

/// The flaws of the device, the names of the two registers, the accesses one after another with what each comes to, and
/// the entries after them.
pub(crate) struct Case {
    pub flaws: &'static str,
    pub index: &'static str,
    pub data: &'static str,
    pub rows: &'static [(Call, Seen)],
    pub entries: Entries,
}

fn run_bank<D: Device>(rt: &impl Abort, bank: &mut Bank, on: &mut Stand<'_, D>, case: &Case)
    requires ready { IsReady on.old.model.now (map standing on.old.adapters.now.items) (D.state on.old.device.now) }
    requires size { bank.old.size ≡ 4 }
    requires bank { IsBankOf on.old.model.now.chip bank.old }
    requires data { IsOverData (D.state on.old.device.now) bank.old }
{
    make_all(rt, bank, on, case.rows);
    assert_eq!(rt; entries(bank, on.model, on.device), case.entries);
}

/// Runs a case over four entries.
pub(crate) fn run<D: Device>(
    rt: &(impl Abort + AllocGlobal),
    on: &mut Stand<'_, D>,
    case: &Case,
) -> Result<(), Fail>
    requires ready { IsReady on.old.model.now (map standing on.old.adapters.now.items) (D.state on.old.device.now) }
{
    let window = window(on.model.chip(), case.index, case.data)?;
    let Ok(mut bank) = Bank::build(rt.alloc(), on.model, on.device, window, 4) else {
        return Err("no bank".into());
    };
    run_bank(rt, &mut bank, on, case);
    Ok(())
}
