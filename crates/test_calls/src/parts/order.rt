// The order in which a source, a device and a sink are used: each event is out before the next transfer, and the log of
// a line before the next line is read.
ghost use Rattle.std.specs.Prelude.{◌≡◌, ◌<◌, ◌^◌, ◌-◌, ◌≤◌, None, length, map};
ghost use Rattle.rl_bus.specs.Account.{without_peer};

use crate::parts::running::adapters;
use regrun::Status;
use rl_bus::{Adapter, Adapters, Answer, Device, Response, Transfer, response_to};
use rl_report::{Failed, Sink, Source};
use rl_session_run::{open_session, play_described};
use std::alloc::Global;
use std::cell::Cell;
use std::test::Fail;

// Three registers and a memory, each of them a word wide.
fn described() -> &'static [u8] {
    b"
reg = [
    {name = 'a', bytes = 4, field = [{name = 'v', lsb = 0, width = 32, policy = 'RW'}]},
    {name = 'b', bytes = 4, field = [{name = 'v', lsb = 0, width = 32, policy = 'RW'}]},
    {name = 'c', bytes = 4, field = [{name = 'v', lsb = 0, width = 32, policy = 'RW'}]},
]
mem = [{name = 'ram', bytes = 4, size = 4}]
map = [{name = 'bus', bytes = 4}]
place = [
    {map = 'bus', item = 'a', offset = 0},
    {map = 'bus', item = 'b', offset = 4},
    {map = 'bus', item = 'c', offset = 8},
    {map = 'bus', item = 'ram', offset = 16},
]
---
"
}

// A line, and how many lines of the log are out before it. An access has two, its own and that of its item. A sequence
// has one where it begins and one where it ends, and that of its reset.
fn line_at(given: usize) -> (&'static [u8], usize) {
    match given {
        0 => (described(), 0),
        1 => (b"seq hw-reset *\n", 0),
        2 => (b"burst-write ram 0x0 0x0 0x0 0x0\n", 9),
        3 => (b"burst-read ram 0x0 3\n", 15),
        4 => (b"read a\n", 21),
        5 => (b"read b\n", 23),
        _ => (b"", 25),
    }
}

// How many lines are out at each transfer.
fn out_at_transfers() -> &'static [usize] {
    &[2, 4, 6, 9, 11, 13, 15, 17, 19, 21, 23]
}

// Copies the line to the front of the buffer. Answers how many bytes.
fn give(line: &[u8], buffer: &mut [u8]) -> usize
    ensures { result ≤ length buffer.new }
{
    let count = line.len().min(buffer.len());
    buffer[..count].copy_from_slice(&line[..count]);
    count
}

// A source that gives a line at a call. A call that comes before the log of the line before is out fails.
#[derive(Drop)]
struct Asking<'a> {
    given: usize,
    heard: &'a Cell<usize>,
    faults: u64,
}

impl Source for Asking<'_> {
    ghost left = { λ _. None };

    ghost faults = { λ s. s.faults };

    fn read(&mut self, buf: &mut [u8]) -> Result<usize, Failed> {
        let (line, out) = line_at(self.given);
        if self.heard.get() < out {
            self.faults = self.faults.saturating_add(1);
            return Err(Failed);
        }
        self.given = self.given.saturating_add(1);
        Ok(give(line, buf))
    }
}

// A sink that counts the lines that it hears.
#[derive(Drop)]
struct Hearing<'a> {
    heard: &'a Cell<usize>,
}

fn ends_in(piece: &[u8]) -> usize {
    piece.iter().filter(|byte| **byte == b'\n').count()
}

impl Sink for Hearing<'_> {
    ghost written = { λ _. None };

    ghost faults = { λ _. 0 };

    // At its end, so that `finish` need count nothing.
    ghost ends = { λ _. 2 ^ 64 - 1 };

    fn write(&mut self, piece: &[u8]) -> Result<usize, Failed> {
        self.heard
            .set(self.heard.get().saturating_add(ends_in(piece)));
        Ok(piece.len())
    }

    fn finish(&mut self) -> Result<(), Failed> {
        Ok(())
    }
}

// A device that notes at each transfer how many lines are out. It doesn't tell its state, reads as 0, and fails no
// transfer.
#[derive(Drop)]
struct Noting<'a> {
    heard: &'a Cell<usize>,
    noted: Vec<usize>,
}

impl Device for Noting<'_> {
    ghost state = { λ _. None };

    ghost account = { λ _. without_peer 0 };

    fn transfer(&mut self, _port: u32, transfer: &Transfer) -> Response {
        let _ = self.noted.push(self.heard.get());
        let answer = Answer {
            word: 0,
            failed: false,
        };
        response_to(transfer, answer)
    }

    fn peek(&self, _cell: rl_bus::Cell) -> u64 {
        0
    }

    fn poke(&mut self, _cell: rl_bus::Cell, _value: u64) {}

    fn reset(&mut self, _kind: u32) {}

    fn hw(&mut self, _field: u32, _value: u64) {}
}

// Runs the session.
fn run_on(
    alloc: Global,
    source: &mut Asking<'_>,
    sink: &mut Hearing<'_>,
    device: &mut Noting<'_>,
    adapters: &mut Adapters,
) -> Status
    requires { length (map standing adapters.old.items) < 2 ^ 32 }
{
    match open_session(alloc, source, sink, adapters) {
        Ok((desc, mut lines)) => {
            play_described(alloc, desc, device, &mut lines, source, sink, adapters)
        }
        Err(status) => status,
    }
}

fn ran(alloc: Global, heard: &Cell<usize>, device: &mut Noting<'_>) -> Result<Status, Fail> {
    let mut source = Asking {
        given: 0,
        heard,
        faults: 0,
    };
    let mut sink = Hearing { heard };
    let mut adapters = adapters(alloc)?;
    Ok(run_on(alloc, &mut source, &mut sink, device, &mut adapters))
}

// How the session ended, how many lines were heard, and how many were out at each transfer.
fn noted(alloc: Global) -> Result<(Status, usize, Vec<usize>), Fail> {
    let heard = Cell::new(0usize);
    let mut device = Noting {
        heard: &heard,
        noted: Vec::new(alloc),
    };
    let status = ran(alloc, &heard, &mut device)?;
    Ok((status, heard.get(), device.noted))
}

#[test]
fn what_is_logged_is_out_first(rt: HostRuntime) -> Result<(), Fail> {
    let (status, heard, noted) = noted(rt.alloc())?;
    assert_eq!(rt; (status, heard), (Status::Passed, 26));
    assert_eq!(rt; noted.as_slice(), out_at_transfers());
    Ok(())
}
