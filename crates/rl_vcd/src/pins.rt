// The pins of a bus, and their changes.
ghost use Rattle.std.specs.Prelude.{◌≡◌, ◌≤◌, ◌+◌, ◌++◌, OnOk};
ghost use Rattle.rl_vcd.specs.Pins.{pins_at, changes};

use crate::text::{change_bit, change_word};
use rl_apb::{Pins, cycles};
use rl_bus::{ApbResponse, ApbTransfer};
use std::alloc::AllocError;

/// A bus of the dump, by its number.
#[derive(Clone, Copy, Debug, PartialEq, Eq)]
pub struct Bus {
    /// From 0, in the order of the buses.
    pub number: u32,
    /// The width of its data in bytes.
    pub bytes: u8,
}

/// The pins between transfers.
pub(crate) const IDLE: Pins = Pins {
    psel: false,
    penable: false,
    pwrite: false,
    pprot: 0,
    paddr: 0,
    pwdata: 0,
    pstrb: 0,
    pready: false,
    prdata: 0,
    pslverr: false,
};

/// The pins in a cycle of a transfer.
pub(crate) fn pins_at(transfer: &ApbTransfer, response: &ApbResponse, k: u32) -> Pins
    requires { k ≤ response.now.waits + 1 }
    ensures { result ≡ pins_at transfer.now response.now k }
{
    cycles(transfer, response, k)
}

/// Appends the new values of the pins that change.
pub(crate) fn push_changes(
    text: &mut Vec<u8>,
    bus: Bus,
    before: &Pins,
    after: &Pins,
) -> Result<(), AllocError>
    requires { bus.bytes ≤ 4 }
    ensures { OnOk result (text.new.items ≡ text.old.items ++ changes bus before.now after.now) }
{
    let number = bus.number;
    let bytes = bus.bytes as u32;
    let strobes = (before.pstrb as u32, after.pstrb as u32);
    change_bit(text, b's', number, before.psel, after.psel)?;
    change_bit(text, b'e', number, before.penable, after.penable)?;
    change_word(text, b'a', number, 32, before.paddr, after.paddr)?;
    change_bit(text, b'w', number, before.pwrite, after.pwrite)?;
    change_word(text, b'd', number, 8 * bytes, before.pwdata, after.pwdata)?;
    change_word(text, b'b', number, bytes, strobes.0, strobes.1)?;
    change_bit(text, b'r', number, before.pready, after.pready)?;
    change_word(text, b'q', number, 8 * bytes, before.prdata, after.prdata)?;
    change_bit(text, b'x', number, before.pslverr, after.pslverr)?;
    Ok(())
}
