// Signals and their values as text.
ghost use Rattle.std.specs.Prelude.{◌≡◌, ◌<◌, ◌≤◌, ◌+◌, ◌++◌, ◌/◌, ◌%◌, ◌^◌, OnOk, decimal};
ghost use Rattle.rl_vcd.specs.Signals.{binary, name_of, bit_digit, bit_text, word_text, bit_change, word_change};

use itoa::Buffer;
use std::alloc::AllocError;

pub(crate) fn push(text: &mut Vec<u8>, piece: &[u8]) -> Result<(), AllocError>
    ensures { OnOk result (text.new.items ≡ text.old.items ++ piece.now) }
{
    text.extend_from_slice(piece)
}

pub(crate) fn push_decimal(text: &mut Vec<u8>, n: u64) -> Result<(), AllocError>
    ensures { OnOk result (text.new.items ≡ text.old.items ++ decimal n) }
{
    let mut digits = Buffer::new();
    push(text, digits.format(n).as_bytes())
}

fn digit(value: u32, place: u32) -> u8
    requires { place < 32 }
    ensures { result ≡ 48 + value / 2 ^ place % 2 }
{
    b'0' + ((value >> place) % 2) as u8
}

// Appends so many binary digits, the highest first.
pub(crate) fn push_binary(text: &mut Vec<u8>, digits: u32, value: u32) -> Result<(), AllocError>
    requires { digits ≤ 32 }
    ensures { OnOk result (text.new.items ≡ text.old.items ++ binary digits value) }
{
    if digits == 0 {
        return Ok(());
    }
    text.push(digit(value, digits - 1))?;
    push_binary(text, digits - 1, value)?;
    Ok(())
}

// Appends a signal's name.
pub(crate) fn push_name(text: &mut Vec<u8>, letter: u8, bus: u32) -> Result<(), AllocError>
    ensures { OnOk result (text.new.items ≡ text.old.items ++ name_of letter bus) }
{
    text.push(letter)?;
    push_decimal(text, u64::from(bus))?;
    Ok(())
}

fn bit_digit(value: bool) -> &'static [u8]
    ensures { result.now ≡ bit_digit value }
{
    if value { b"1" } else { b"0" }
}

// Appends a signal's value.
#[tactic(auto, using(crate::proofs::TextLemmas::more, crate::proofs::TextLemmas::last))]
pub(crate) fn push_bit(
    text: &mut Vec<u8>,
    letter: u8,
    bus: u32,
    value: bool,
) -> Result<(), AllocError>
    ensures { OnOk result (text.new.items ≡ text.old.items ++ bit_text letter bus value) }
{
    push(text, bit_digit(value))?;
    push_name(text, letter, bus)?;
    push(text, b"\n")?;
    Ok(())
}

// Appends a signal's value, of so many digits.
#[tactic(auto, using(crate::proofs::TextLemmas::more, crate::proofs::TextLemmas::last))]
pub(crate) fn push_word(
    text: &mut Vec<u8>,
    letter: u8,
    bus: u32,
    digits: u32,
    value: u32,
) -> Result<(), AllocError>
    requires { digits ≤ 32 }
    ensures { OnOk result (text.new.items ≡ text.old.items ++ word_text letter bus digits value) }
{
    push(text, b"b")?;
    push_binary(text, digits, value)?;
    push(text, b" ")?;
    push_name(text, letter, bus)?;
    push(text, b"\n")?;
    Ok(())
}

// Appends a signal's new value, where it changes.
pub(crate) fn change_bit(
    text: &mut Vec<u8>,
    letter: u8,
    bus: u32,
    before: bool,
    after: bool,
) -> Result<(), AllocError>
    ensures { OnOk result (text.new.items ≡ text.old.items ++ bit_change letter bus before after) }
{
    match (before, after) {
        (false, true) => push_bit(text, letter, bus, true),
        (true, false) => push_bit(text, letter, bus, false),
        _ => Ok(()),
    }
}

// Appends the new value of a signal with so many digits, where it changes.
pub(crate) fn change_word(
    text: &mut Vec<u8>,
    letter: u8,
    bus: u32,
    digits: u32,
    before: u32,
    after: u32,
) -> Result<(), AllocError>
    requires { digits ≤ 32 }
    ensures { OnOk result (text.new.items ≡ text.old.items ++ word_change letter bus digits before after) }
{
    if before == after {
        return Ok(());
    }
    push_word(text, letter, bus, digits, after)
}
