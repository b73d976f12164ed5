// The lines that ask. Each is put together in a buffer that is used again.
ghost use Rattle.std.specs.Prelude.{◌≡◌, ◌++◌, ◌+◌, ◌<◌, ◌≤◌, ◌^◌, ◌/◌, ◌%◌, OnOk, decimal};
ghost use Rattle.rl_policy.specs.Numbers.{hex_digits};
ghost use Rattle.rl_report.specs.Numbers.{lanes_text};
ghost use Rattle.rl_link.specs.Requests.{way, transfer_line, reset_line, hw_line};

use itoa::Buffer;
use rl_bus::BusOp;
use rl_policy::spell;
use std::alloc::AllocError;

pub(crate) fn push(line: &mut Vec<u8>, piece: &[u8]) -> Result<(), AllocError>
    ensures { OnOk result (line.new.items ≡ line.old.items ++ piece.now) }
{
    line.extend_from_slice(piece)
}

fn push_way(line: &mut Vec<u8>, write: bool) -> Result<(), AllocError>
    ensures { OnOk result (line.new.items ≡ line.old.items ++ way write) }
{
    if write {
        push(line, b"w ")
    } else {
        push(line, b"r ")
    }
}

// Appends the hexadecimal digits of a number.
fn push_hex(line: &mut Vec<u8>, n: u64) -> Result<(), AllocError>
    ensures { OnOk result (line.new.items ≡ line.old.items ++ hex_digits n) }
{
    let mut digits = [0; 16];
    let count = spell(&mut digits, n);
    push(line, &digits[..count])
}

fn push_decimal(line: &mut Vec<u8>, n: u64) -> Result<(), AllocError>
    ensures { OnOk result (line.new.items ≡ line.old.items ++ decimal n) }
{
    let mut digits = Buffer::new();
    push(line, digits.format(n).as_bytes())
}

fn lane_digit(lanes: u8, lane: u8) -> u8
    requires { lane < 8 }
    ensures { result ≡ 48 + lanes / 2 ^ lane % 2 }
{
    b'0' + (lanes >> lane) % 2
}

// Appends a binary digit for each byte of a word, the highest first.
fn push_lanes(line: &mut Vec<u8>, bytes: u8, lanes: u8) -> Result<(), AllocError>
    requires { bytes ≤ 8 }
    ensures { OnOk result (line.new.items ≡ line.old.items ++ lanes_text bytes lanes) }
{
    if bytes == 0 {
        return Ok(());
    }
    line.push(lane_digit(lanes, bytes - 1))?;
    push_lanes(line, bytes - 1, lanes)?;
    Ok(())
}

/// The line that asks for a transfer.
pub(crate) fn put_transfer(
    line: &mut Vec<u8>,
    port: &[u8],
    op: &BusOp,
    tag: u64,
) -> Result<(), AllocError>
    requires { op.now.bytes ≤ 8 }
    ensures { OnOk result (line.new.items ≡ transfer_line port.now op.now tag) }
{
    line.clear();
    push_way(line, op.write)?;
    push(line, port)?;
    push(line, b" 0x")?;
    push_hex(line, op.address)?;
    push(line, b" 0x")?;
    push_hex(line, op.word)?;
    push(line, b" ")?;
    push_lanes(line, op.bytes, op.lanes)?;
    push(line, b" #")?;
    push_decimal(line, tag)?;
    push(line, b"\n")?;
    Ok(())
}

/// The line that asks for a reset of a kind.
pub(crate) fn put_reset(line: &mut Vec<u8>, kind: &[u8]) -> Result<(), AllocError>
    ensures { OnOk result (line.new.items ≡ reset_line kind.now) }
{
    line.clear();
    push(line, b"reset ")?;
    push(line, kind)?;
    push(line, b"\n")?;
    Ok(())
}

/// The line that asks for a change of a field by the hardware.
pub(crate) fn put_hw(line: &mut Vec<u8>, field: &[u8], value: u64) -> Result<(), AllocError>
    ensures { OnOk result (line.new.items ≡ hw_line field.now value) }
{
    line.clear();
    push(line, b"hw ")?;
    push(line, field)?;
    push(line, b" 0x")?;
    push_hex(line, value)?;
    push(line, b"\n")?;
    Ok(())
}
