//! Accesses by index.
ghost use Rattle.std.specs.Prelude.{◌≡◌, ◌<◌, ◌≤◌, map as each, length, if◌then◌else◌, IsTrue};
ghost use Rattle.rl_access.specs.declared.event.Op.TheVariants as op;
ghost use Rattle.rl_indirect.specs.Prelude.{BankAgree, EventFits, IndexedFits, IsBankOf, IsEntryStep, IsIndexed};
ghost use Rattle.rl_indirect.specs.Prelude.{IsMapIn, IsModel, IsOverData, IsReady, IsSameBank, IsSameChip};
ghost use Rattle.rl_indirect.specs.Prelude.{KeepsEntries, NamesDiffering, Selects, every, read_step, scene_of};
ghost use Rattle.rl_indirect.specs.Prelude.{write_step};

use crate::bank::Bank;
use crate::indexed::{Indexed, is_done};
use rl_access::{Event, Model, front_write, mirror};
use rl_bus::{Adapter, Adapters, Device};

/// Writes the index register, and lets the device and the model follow it.
fn select<D: Device>(
    bank: &mut Bank,
    model: &mut Model,
    device: &mut D,
    adapters: &mut Adapters,
    map: Option<u32>,
    k: u32,
) -> Event
    requires ready { IsReady model.old (each standing adapters.old.items) (D.state device.old) }
    requires bank { IsBankOf model.old.chip bank.old }
    requires map { IsMapIn (length model.old.layout.maps) map }
    requires k { k < bank.old.size }
    ensures ready { IsReady model.new (each standing adapters.new.items) (D.state device.new) }
    ensures parts { IsSameChip model.old model.new }
    ensures sound { IsModel model.new }
    ensures bank { IsBankOf model.new.chip bank.new }
    ensures same { IsSameBank bank.old bank.new }
    ensures fits { EventFits model.new result }
    ensures selects { Selects bank.old bank.new
        (scene_of standing D.account D.state model.old adapters.old.items device.old)
        (scene_of standing D.account D.state model.new adapters.new.items device.new) map k result }
    ensures agree { BankAgree (scene_of standing D.account D.state model.old adapters.old.items device.old) bank.old
        → KeepsEntries (scene_of standing D.account D.state model.old adapters.old.items device.old)
        (scene_of standing D.account D.state model.new adapters.new.items device.new) bank.old bank.new k result }
{
    let _met = model.chip(); // a model that is looked at is known to be sound
    let index_reg = bank.window().index_reg;
    let index = front_write(model, device, adapters, index_reg, map, k as u64);
    let _written = model.chip();
    bank.follow(model, device);
    bank.follow_believed(model, &index, k);
    let _left = model.chip();
    index
}

/// Writes entry `k`, counted from 0: the index register gets `k`, and then the data register the value
/// (`uvm_reg_indirect_data`, IEEE 1800.2-2017, 18.7).
///
/// # Examples
///
/// A bank has 4 entries behind a data register of 2 bytes, with one field `RW`, and the device is as described.
///
/// ```text
/// let indexed = indexed_write(&mut bank, &mut model, &mut device, &mut adapters, None, 1, 0x1234);
/// // `Indexed::At`: the index register took 1, and then the data register 0x1234.
/// bank.entry(&device, 1) == 0x1234
/// bank.mirrored(&model, 1) == 0x1234
/// // There is no entry 4, so this sends nothing and answers `Indexed::NoSuchEntry`:
/// indexed_write(&mut bank, &mut model, &mut device, &mut adapters, None, 4, 0x1234)
/// ```
pub fn indexed_write<D: Device>(
    bank: &mut Bank,
    model: &mut Model,
    device: &mut D,
    adapters: &mut Adapters,
    map: Option<u32>,
    k: u32,
    value: u64,
) -> Indexed
    requires ready { IsReady model.old (each standing adapters.old.items) (D.state device.old) }
    requires bank { IsBankOf model.old.chip bank.old }
    requires map { IsMapIn (length model.old.layout.maps) map }
    ensures ready { IsReady model.new (each standing adapters.new.items) (D.state device.new) }
    ensures parts { IsSameChip model.old model.new }
    ensures bank { IsBankOf model.new.chip bank.new }
    ensures data { IsOverData (D.state device.new) bank.new }
    ensures same { IsSameBank bank.old bank.new }
    ensures fits { IndexedFits model.new result }
    ensures indexed { IsIndexed bank.old bank.new
        (scene_of standing D.account D.state model.old adapters.old.items device.old)
        (scene_of standing D.account D.state model.new adapters.new.items device.new) map k
        (op.Write bank.old.window.data_reg map value) result }
    // Past the size any device is as it was, also one that tells nothing.
    ensures refused { bank.old.size ≤ k → device.new ≡ device.old }
    ensures agree { BankAgree (scene_of standing D.account D.state model.old adapters.old.items device.old) bank.old
        → IsEntryStep (scene_of standing D.account D.state model.old adapters.old.items device.old)
        (scene_of standing D.account D.state model.new adapters.new.items device.new) bank.old bank.new k
        (write_step every value) result }
{
    if k >= bank.size() {
        return Indexed::NoSuchEntry;
    }
    let index = select(bank, model, device, adapters, map, k);
    if !is_done(&index) {
        return Indexed::AtIndex { index };
    }
    let access = front_write(model, device, adapters, bank.window().data_reg, map, value);
    let _left = model.chip(); // a model that is looked at is known to be sound
    Indexed::At { index, access }
}

/// Reads entry `k`, counted from 0: the index register gets `k`, and then the data register is read
/// (`uvm_reg_indirect_data`, IEEE 1800.2-2017, 18.7). With `check` the
/// event of the data register names the compared fields whose bits aren't those of the model's entry `k`.
pub fn indexed_read<D: Device>(
    bank: &mut Bank,
    model: &mut Model,
    device: &mut D,
    adapters: &mut Adapters,
    map: Option<u32>,
    k: u32,
    check: bool,
) -> Indexed
    requires ready { IsReady model.old (each standing adapters.old.items) (D.state device.old) }
    requires bank { IsBankOf model.old.chip bank.old }
    requires map { IsMapIn (length model.old.layout.maps) map }
    ensures ready { IsReady model.new (each standing adapters.new.items) (D.state device.new) }
    ensures parts { IsSameChip model.old model.new }
    ensures bank { IsBankOf model.new.chip bank.new }
    ensures data { IsOverData (D.state device.new) bank.new }
    ensures same { IsSameBank bank.old bank.new }
    ensures fits { IndexedFits model.new result }
    ensures indexed { IsIndexed bank.old bank.new
        (scene_of standing D.account D.state model.old adapters.old.items device.old)
        (scene_of standing D.account D.state model.new adapters.new.items device.new) map k
        (if check then op.Check bank.old.window.data_reg map else op.Mirror bank.old.window.data_reg map) result }
    // Past the size any device is as it was, also one that tells nothing.
    ensures refused { bank.old.size ≤ k → device.new ≡ device.old }
    ensures found { IsTrue check → NamesDiffering bank.old model.old k result }
    ensures agree { BankAgree (scene_of standing D.account D.state model.old adapters.old.items device.old) bank.old
        → IsEntryStep (scene_of standing D.account D.state model.old adapters.old.items device.old)
        (scene_of standing D.account D.state model.new adapters.new.items device.new) bank.old bank.new k
        (read_step every) result }
{
    let _sound = model.chip(); // a model that is looked at is known to be sound
    if k >= bank.size() {
        return Indexed::NoSuchEntry; // no device is touched
    }
    let index = select(bank, model, device, adapters, map, k);
    if !is_done(&index) {
        return Indexed::AtIndex { index };
    }
    let access = mirror(model, device, adapters, bank.window().data_reg, map, check);
    let _left = model.chip();
    Indexed::At { index, access }
}
