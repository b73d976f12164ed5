// The header of a dump: what it declares, and the first values.
ghost use Rattle.std.specs.Prelude.{◌≡◌, ◌≤◌, ◌<◌, ◌++◌, ◌*◌, OnOk, All, flat_map};
ghost use Rattle.rl_vcd.specs.Dump.{var_text, vars_text, scope_text, idle_text, header_text};

use crate::pins::Bus;
use crate::text::{push, push_bit, push_decimal, push_name, push_word};
use std::alloc::AllocError;
use std::marker::Model;

/// A bus of the dump and its name, which is a word of letters, digits and `_`.
#[derive(Drop)]
pub struct NamedBus<'a> {
    /// Its name.
    pub name: &'a [u8],
    /// Its number and width.
    pub bus: Bus,
}

impl<'a> Model for NamedBus<'a> {
    ghost use Rattle.rl_vcd.specs.Dump.{BusData};

    ghost Value = { BusData };

    ghost view = { λ b. record { name = b.name.now; bus = b.bus } };
}

// Appends the declaration of a signal.
fn push_var(
    text: &mut Vec<u8>,
    bus: Bus,
    letter: u8,
    digits: u32,
    name: &[u8],
) -> Result<(), AllocError>
    ensures { OnOk result (text.new.items ≡ text.old.items ++ var_text bus letter digits name.now) }
{
    push(text, b"$var wire ")?;
    push_decimal(text, digits as u64)?;
    push(text, b" ")?;
    push_name(text, letter, bus.number)?;
    push(text, b" ")?;
    push(text, name)?;
    push(text, b" $end\n")?;
    Ok(())
}

// Appends the declaration of a bus.
fn push_scope(text: &mut Vec<u8>, name: &[u8], bus: Bus) -> Result<(), AllocError>
    requires { bus.bytes ≤ 4 }
    ensures { OnOk result (text.new.items ≡ text.old.items ++ scope_text name.now bus) }
{
    let bytes = bus.bytes as u32;
    push(text, b"$scope module ")?;
    push(text, name)?;
    push(text, b" $end\n")?;
    push_vars(text, bus, bytes)?;
    push(text, b"$upscope $end\n")?;
    Ok(())
}

// Appends the declarations of its pins.
fn push_vars(text: &mut Vec<u8>, bus: Bus, bytes: u32) -> Result<(), AllocError>
    requires { bytes ≤ 4 }
    ensures { OnOk result (text.new.items ≡ text.old.items ++ vars_text bus bytes) }
{
    push_var(text, bus, b's', 1, b"PSEL")?;
    push_var(text, bus, b'e', 1, b"PENABLE")?;
    push_var(text, bus, b'a', 32, b"PADDR")?;
    push_var(text, bus, b'w', 1, b"PWRITE")?;
    push_var(text, bus, b'd', 8 * bytes, b"PWDATA")?;
    push_var(text, bus, b'b', bytes, b"PSTRB")?;
    push_var(text, bus, b'r', 1, b"PREADY")?;
    push_var(text, bus, b'q', 8 * bytes, b"PRDATA")?;
    push_var(text, bus, b'x', 1, b"PSLVERR")?;
    Ok(())
}

// Appends the pins of a bus before its first transfer.
#[tactic(auto, using(crate::proofs::TextLemmas::more, crate::proofs::TextLemmas::last))]
fn push_idle(text: &mut Vec<u8>, bus: Bus) -> Result<(), AllocError>
    requires { bus.bytes ≤ 4 }
    ensures { OnOk result (text.new.items ≡ text.old.items ++ idle_text bus) }
{
    let number = bus.number;
    let bytes = bus.bytes as u32;
    push_bit(text, b's', number, false)?;
    push_bit(text, b'e', number, false)?;
    push_word(text, b'a', number, 32, 0)?;
    push_bit(text, b'w', number, false)?;
    push_word(text, b'd', number, 8 * bytes, 0)?;
    push_word(text, b'b', number, bytes, 0)?;
    push_bit(text, b'r', number, false)?;
    push_word(text, b'q', number, 8 * bytes, 0)?;
    push_bit(text, b'x', number, false)?;
    Ok(())
}

fn push_named(text: &mut Vec<u8>, named: &NamedBus<'_>) -> Result<(), AllocError>
    requires { named.now.bus.bytes ≤ 4 }
    ensures { OnOk result (text.new.items ≡ text.old.items ++ scope_text named.now.name named.now.bus) }
{
    push_scope(text, named.name, named.bus)
}

fn push_named_idle(text: &mut Vec<u8>, named: &NamedBus<'_>) -> Result<(), AllocError>
    requires { named.now.bus.bytes ≤ 4 }
    ensures { OnOk result (text.new.items ≡ text.old.items ++ idle_text named.now.bus) }
{
    push_idle(text, named.bus)
}

// Appends the declarations of all buses.
fn push_scopes(text: &mut Vec<u8>, buses: &[NamedBus<'_>]) -> Result<(), AllocError>
    requires { All (λ b. b.bus.bytes ≤ 4) buses.now }
    ensures { OnOk result (text.new.items
        ≡ text.old.items ++ flat_map (λ b. scope_text b.name b.bus) buses.now) }
{
    for k in 0..buses.len() {
        push_named(text, &buses[k])?;
    }
    Ok(())
}

// Appends the first values of all buses.
fn push_idles(text: &mut Vec<u8>, buses: &[NamedBus<'_>]) -> Result<(), AllocError>
    requires { All (λ b. b.bus.bytes ≤ 4) buses.now }
    ensures { OnOk result (text.new.items ≡ text.old.items ++ flat_map (λ b. idle_text b.bus) buses.now) }
{
    for k in 0..buses.len() {
        push_named_idle(text, &buses[k])?;
    }
    Ok(())
}

/// Appends the header of a dump of these buses.
pub(crate) fn push_header(text: &mut Vec<u8>, buses: &[NamedBus<'_>]) -> Result<(), AllocError>
    requires { All (λ b. b.bus.bytes ≤ 4) buses.now }
    ensures { OnOk result (text.new.items ≡ text.old.items ++ header_text buses.now) }
{
    push(
        text,
        b"$comment The pins of each APB transfer, by clock. $end\n",
    )?;
    push(text, b"$timescale 1 ns $end\n$scope module session $end\n")?;
    push(text, b"$var wire 1 c PCLK $end\n$var reg 1024 o op $end\n")?;
    push_scopes(text, buses)?;
    push(
        text,
        b"$upscope $end\n$enddefinitions $end\n#0\n$dumpvars\n0c\nb0 o\n",
    )?;
    push_idles(text, buses)?;
    push(text, b"$end\n")?;
    Ok(())
}
