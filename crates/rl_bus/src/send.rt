// One operation through one of the adapters.
ghost use Rattle.std.specs.Prelude.{◌≡◌, ◌<◌, ◌^◌, map, length};
ghost use Rattle.rl_bus.specs.Account.{Asks};
ghost use Rattle.rl_bus.specs.Account as ask;
ghost use Rattle.rl_bus.specs.Device.{IsStep, IsPortOf};
ghost use Rattle.rl_bus.specs.Standing.{
  took,
  standing_at,
  moved_on,
  kind_at,
  kinds_of,
};
ghost use Rattle.rl_bus.specs.Wire.{Fits};

use crate::{Adapter, AdapterKind, Adapters, Answer, BusOp, Device};

/// The tag that an operation went out with, and what was answered.
#[derive(Clone, Copy, Debug, PartialEq, Eq)]
pub struct Exchanged {
    /// The tag of the transfer.
    pub tag: u64,
    /// What was answered.
    pub answer: Answer,
}

/// Sends an operation through the adapter of that number to a port of the device (`uvm_reg_adapter::reg2bus`,
/// IEEE 1800.2-2017, 19.2), and takes the answer back through the adapter (`bus2reg`).
///
/// # Examples
///
/// Byte 0 of a word of four bytes is written at 0x10, by the first of the adapters and port 0:
///
/// ```text
/// let op = BusOp { write: true, address: 0x10, word: 0x03, lanes: 0b0001, bytes: 4 };
/// let sent = exchange(&mut device, &mut adapters, 0, 0, &op);
/// // Where the device model took it:
/// sent.answer == Answer { word: 0, failed: false }
/// ```
#[tactic(auto, using(crate::proofs::Moves::moved_one, crate::proofs::Moves::read_kind))]
pub fn exchange<D: Device>(
    device: &mut D,
    adapters: &mut Adapters,
    which: u32,
    port: u32,
    op: &BusOp,
) -> Exchanged
    requires port { IsPortOf (D.state device.old) port }
    requires in_range { which < length (map standing adapters.old.items) }
    requires fits { Fits (kind_at (kinds_of (map standing adapters.old.items)) which) op.now }
    ensures tag { result.tag ≡ (standing_at (map standing adapters.old.items) which).tag }
    ensures small { result.answer.word < 256 ^ op.now.bytes }
    ensures adapters { map standing adapters.new.items
        ≡ moved_on (map standing adapters.old.items) which op.now result.answer }
    ensures kinds { kinds_of (map standing adapters.new.items) ≡ kinds_of (map standing adapters.old.items) }
    ensures asked { Asks (D.account device.old) (D.account device.new) (ask.transfer port op.now result.tag result.answer) }
    ensures step { IsStep (D.state device.old) (D.state device.new) port op.now result.answer }
{
    through(device, &mut adapters[which as usize], port, op)
}

/// The kind of the adapter of that number.
#[tactic(auto, using(crate::proofs::Moves::read_kind))]
pub fn kind_of(adapters: &Adapters, which: u32) -> AdapterKind
    requires { which < length (map standing adapters.now.items) }
    ensures { result ≡ kind_at (kinds_of (map standing adapters.now.items)) which }
{
    boxed_kind(&adapters[which as usize])
}

fn through<D: Device>(
    device: &mut D,
    adapter: &mut Box<dyn Adapter>,
    port: u32,
    op: &BusOp,
) -> Exchanged
    requires fits { Fits (standing adapter.old).kind op.now }
    requires port { IsPortOf (D.state device.old) port }
    ensures tag { result.tag ≡ (standing adapter.old).tag }
    ensures small { result.answer.word < 256 ^ op.now.bytes }
    ensures adapter { standing adapter.new ≡ took (standing adapter.old) op.now result.answer }
    ensures asked { Asks (D.account device.old) (D.account device.new) (ask.transfer port op.now result.tag result.answer) }
    ensures step { IsStep (D.state device.old) (D.state device.new) port op.now result.answer }
{
    let transfer = adapter.reg2bus(op);
    let response = device.transfer(port, &transfer);
    let answer = adapter.bus2reg(&transfer, &response);
    Exchanged {
        tag: transfer.tag(),
        answer,
    }
}

fn boxed_kind(adapter: &Box<dyn Adapter>) -> AdapterKind
    ensures { result ≡ (standing adapter.now).kind }
{
    adapter.kind()
}
