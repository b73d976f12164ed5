//! A bank: the entries behind a window.
ghost use Rattle.std.specs.Prelude.{◌≡◌, ◌≢◌, ◌<◌, ◌≤◌, ℕ, List, length, slice_index, option_map, IfOk, IfNone, Some};
ghost use Rattle.std.specs.Prelude.{if◌then◌else◌};
ghost use Rattle.std.specs.Option.{option_map_or};
ghost use Rattle.rl_bus.specs.declared.table.Cell.TheVariants as cell;
ghost use Rattle.rl_indirect.specs.Prelude.{Agree, BankAgree, IsBank, IsBankOf, IsBuilt, IsDeviceOf, IsFound};
ghost use Rattle.rl_indirect.specs.Prelude.{IsOverData, IsSameChip, SettlesDevice, Standing, State, bank_believed};
ghost use Rattle.rl_indirect.specs.Prelude.{entries_believed, entries_there, is_done, model_believed, outside_fault};
ghost use Rattle.rl_indirect.specs.Prelude.{poked, scene, taking_raw};
ghost use Rattle.rl_bus.specs.Account.{Account};

use crate::entries::Entries;
use crate::indexed::is_done;
use crate::window::{Window, WindowFault};
use rl_access::{Event, Model, adopt};
use rl_bus::{Cell, Device};
use rl_model::Item;
use std::alloc::Global;

/// The entries behind a window, as the device has them and as the model believes them to be: this project's own.
///
/// It is for the model and the device with which it was built, and their data register changes with the index. A
/// reset isn't followed: after one a new bank is built.
#[derive(Drop)]
pub struct Bank {
    window: Window,
    size: u32,
    bytes: u32,
    device: Entries,
    model: Entries,
}

impl std::marker::Model for Bank {
    ghost use Rattle.rl_indirect.specs.Bank.{BankData, IsBank};

    ghost Value = { BankData };

    ghost view = { λ b. record {
      window = b.window;
      size = b.size;
      bytes = b.bytes;
      device = b.device;
      model = b.model;
    } };

    ghost invariant = { λ b. IsBank (record {
      window = b.window;
      size = b.size;
      bytes = b.bytes;
      device = b.device;
      model = b.model;
    }) };
}

impl Bank {
    /// The bank of a window to so many entries. Each of them begins as what the data register has.
    pub fn build<D: Device>(
        alloc: Global,
        model: &Model,
        device: &D,
        window: Window,
        size: u32,
    ) -> Result<Bank, WindowFault>
        requires index_reg { window.index_reg < length model.now.chip.regs }
        requires data_reg { window.data_reg < length model.now.chip.regs }
        requires device { IsDeviceOf model.now (D.state device.now) }
        ensures built { IsBuilt model.now (D.state device.now) window size result }
        ensures bank { IfOk result (IsBankOf model.now.chip) }
        ensures data { IfOk result (IsOverData (D.state device.now)) }
        ensures window { IfOk result (λ bank. bank.window ≡ window) }
        ensures size { IfOk result (λ bank. bank.size ≡ size) }
        ensures agree { (adapters : List Standing) (account : Account)
            → Agree (scene model.now adapters account (D.state device.now))
            → IfOk result (BankAgree (scene model.now adapters account (D.state device.now))) }
    {
        if let Some(fault) = window.fault(model.chip(), size) {
            return Err(fault);
        }
        let index = bits_of(model, device, window.index_reg);
        let believed = model.mirror().mirrored(window.index_reg);
        if let Some(fault) = outside_fault(size, index, believed) {
            return Err(fault);
        }
        let held = bits_of(model, device, window.data_reg);
        let mirrored = model.mirror().mirrored(window.data_reg);
        Ok(Bank {
            window,
            size,
            bytes: model.chip().bytes(Item::Reg(window.data_reg)),
            device: Entries::new(alloc, held, size, index as u32)?,
            model: Entries::new(alloc, mirrored, size, believed as u32)?,
        })
    }

    /// Entry `k` of the device, counted from 0.
    pub fn entry<D: Device>(&self, device: &D, k: u32) -> u64
        requires k { k < self.now.size }
        requires data { IsOverData (D.state device.now) self.now }
        ensures told { (s : State) → D.state device.now ≡ Some s → result ≡ slice_index (entries_there self.now s) k }
        ensures kept { k ≢ self.now.device.selected → result ≡ slice_index self.now.device.kept k }
    {
        if self.device.is_selected(k) {
            device.peek(Cell::Reg {
                reg: self.window.data_reg,
            })
        } else {
            self.device.kept(k)
        }
    }

    /// Entry `k` of the model, counted from 0.
    pub fn mirrored(&self, model: &Model, k: u32) -> u64
        requires k { k < self.now.size }
        requires bank { IsBankOf model.now.chip self.now }
        ensures { result ≡ slice_index (entries_believed self.now model.now) k }
    {
        if self.model.is_selected(k) {
            model.mirror().mirrored(self.window.data_reg)
        } else {
            self.model.kept(k)
        }
    }

    /// Its window.
    pub(crate) fn window(&self) -> Window
        ensures window { result ≡ self.now.window }
        ensures sound { IsBank self.now }
    {
        self.window
    }

    /// How many entries it has.
    pub(crate) fn size(&self) -> u32
        ensures size { result ≡ self.now.size }
        ensures sound { IsBank self.now }
    {
        self.size
    }

    /// The device follows its index register.
    pub(crate) fn follow<D: Device>(&mut self, model: &Model, device: &mut D)
        requires bank { IsBankOf model.now.chip self.old }
        requires device { IsDeviceOf model.now (D.state device.old) }
        ensures settles { SettlesDevice self.old self.new (D.state device.old) (D.state device.new) }
        ensures bank { IsBankOf model.now.chip self.new }
        ensures device { IsDeviceOf model.now (D.state device.new) }
        ensures later { (D.account device.old).errors ≤ (D.account device.new).errors }
    {
        let index = bits_of(model, device, self.window.index_reg);
        let held = bits_of(model, device, self.window.data_reg);
        let value = self.device.follow(held, index);
        deposit(model, device, self.window.data_reg, value);
    }

    /// The model follows the index register where that was written.
    pub(crate) fn follow_believed(&mut self, model: &mut Model, index: &Event, k: u32)
        requires bank { IsBankOf model.old.chip self.old }
        ensures model { model.new ≡ (if is_done index.now.end then model_believed self.old model.old k else model.old) }
        ensures bank { self.new ≡ (if is_done index.now.end then bank_believed self.old model.old k else self.old) }
        ensures parts { IsSameChip model.old model.new }
    {
        if is_done(index) {
            self.follow_written(model, k);
        }
    }

    /// The model follows an index that was written.
    fn follow_written(&mut self, model: &mut Model, k: u32)
        requires bank { IsBankOf model.old.chip self.old }
        ensures model { model.new ≡ model_believed self.old model.old k }
        ensures bank { self.new ≡ bank_believed self.old model.old k }
        ensures parts { IsSameChip model.old model.new }
    {
        let reg = self.window.data_reg;
        let held = model.mirror().mirrored(reg);
        let value = self.model.follow(held, u64::from(k));
        take_over(model, reg, value);
    }
}

/// The first of the two sides whose index selects no entry.
fn outside_fault(size: u32, there: u64, believed: u64) -> Option<WindowFault>
    ensures fault { result ≡ outside_fault size there believed }
    ensures there { IfNone result (there < size) }
    ensures believed { IfNone result (believed < size) }
{
    let size = u64::from(size);
    if there >= size {
        return Some(WindowFault::IndexOutside { value: there });
    }
    if believed >= size {
        return Some(WindowFault::IndexOutside { value: believed });
    }
    None
}

/// The stored bits of a register.
fn bits_of<D: Device>(model: &Model, device: &D, reg: u32) -> u64
    requires device { IsDeviceOf model.now (D.state device.now) }
    requires reg { reg < length model.now.chip.regs }
    ensures { IsFound (D.state device.now) reg result }
{
    device.peek(Cell::Reg { reg })
}

/// Deposits bits in a register, where there are any to deposit.
fn deposit<D: Device>(model: &Model, device: &mut D, reg: u32, value: Option<u64>)
    requires device { IsDeviceOf model.now (D.state device.old) }
    requires reg { reg < length model.now.chip.regs }
    ensures step { D.state device.new ≡ option_map (λ s. option_map_or (λ v. poked s (cell.Reg reg) v) value s)
        (D.state device.old) }
    ensures device { IsDeviceOf model.now (D.state device.new) }
    ensures later { (D.account device.old).errors ≤ (D.account device.new).errors }
{
    match value {
        Some(value) => device.poke(Cell::Reg { reg }, value),
        None => {}
    }
}

/// The model takes bits of a register over, where there are any to take over.
fn take_over(model: &mut Model, reg: u32, value: Option<u64>)
    requires { reg < length model.old.chip.regs }
    ensures model { model.new ≡ option_map_or (λ v. taking_raw model.old reg v) value model.old }
    ensures parts { IsSameChip model.old model.new }
{
    match value {
        Some(value) => adopt(model, reg, value),
        None => {}
    }
}
