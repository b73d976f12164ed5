// A sink that keeps some of what it takes.
ghost use Rattle.std.specs.Prelude.{◌≡◌, ◌<◌, length};

use memchr::{memchr, memchr_iter, memmem, memrchr};
use rl_report::{Failed, Sink};
use std::alloc::Global;

// No line that is looked at has more bytes.
const MOST_LINE: usize = 512;

const MOST_IDLE: usize = 2_048;

/// The end of a sequence's line that made no step.
const NO_STEP: &[u8] = b": 0 steps, ";

/// What is kept of the bytes of a log.
#[derive(Drop)]
pub(crate) struct Heard {
    // The front of the line that has no end yet.
    line: Vec<u8>,
    // The front of the last line that has its end.
    last: Vec<u8>,
    // The sequences that made no step, each with a line end.
    idle: Vec<u8>,
    // How many more there are.
    more: u64,
}

impl Heard {
    fn new(alloc: Global) -> Heard {
        Heard {
            line: Vec::new(alloc),
            last: Vec::new(alloc),
            idle: Vec::new(alloc),
            more: 0,
        }
    }

    fn hear(&mut self, bytes: &[u8]) {
        let Some(end) = memrchr(b'\n', bytes) else {
            add(&mut self.line, bytes);
            return;
        };
        self.hear_lines(&bytes[..end]);
        self.line.clear();
        add(&mut self.line, &bytes[end + 1..]);
    }

    // Lines, of which the first goes on with the one that has no end, without the end of the last.
    fn hear_lines(&mut self, bytes: &[u8]) {
        let first = memchr(b'\n', bytes).unwrap_or(bytes.len());
        let (begun, others) = bytes.split_at(first);
        add(&mut self.line, begun);
        self.last.clear();
        if others.is_empty() {
            add(&mut self.last, &self.line);
        } else {
            add(&mut self.last, last_line(others));
        }
        if let Some(sequence) = self.line.strip_prefix(b"seq ") {
            note_idle(&mut self.idle, &mut self.more, sequence);
        }
        self.hear_others(others);
    }

    // Whole lines, each behind the end of the one before. Few of them have a `q`.
    fn hear_others(&mut self, bytes: &[u8]) {
        for place in memchr_iter(b'q', bytes) {
            if let Some(sequence) = sequence_at(bytes, place) {
                note_idle(&mut self.idle, &mut self.more, sequence);
            }
        }
    }

    /// The last line of the log, without its end.
    pub(crate) fn last(&self) -> &[u8] {
        &self.last
    }

    /// The sequences that made no step, each with a line end, and how many more there are.
    pub(crate) fn idle(&self) -> (&[u8], u64) {
        (&self.idle, self.more)
    }
}

// Adds as much of the bytes as a line may have.
fn add(line: &mut Vec<u8>, bytes: &[u8]) {
    let room = MOST_LINE.saturating_sub(line.len());
    let taken = bytes.get(..room).unwrap_or(bytes);
    if line.extend_from_slice(taken).is_err() {
        line.clear();
    }
}

// What stands behind the last line end.
fn last_line(bytes: &[u8]) -> &[u8] {
    match memrchr(b'\n', bytes) {
        Some(end) => &bytes[end + 1..],
        None => bytes,
    }
}

// What follows `seq ` in a line that begins so, where its `q` stands at this place.
fn sequence_at(bytes: &[u8], place: usize) -> Option<&[u8]> {
    let from = bytes.get(place.checked_sub(3)?..)?;
    let line = from.strip_prefix(b"\nseq ")?;
    match memchr(b'\n', line) {
        Some(end) => line.get(..end),
        None => Some(line),
    }
}

// Adds the sequence of a line, of which this follows `seq `, where it made no step and there is room for it.
fn note_idle(idle: &mut Vec<u8>, more: &mut u64, line: &[u8]) {
    let Some(name) = memmem::find(line, NO_STEP).and_then(|end| line.get(..end)) else {
        return;
    };
    let room = MOST_IDLE.saturating_sub(idle.len());
    if name.len() >= room || idle.extend_from_slice(name).is_err() || idle.push(b'\n').is_err() {
        *more = more.saturating_add(1);
    }
}

/// A sink that hands exactly what it takes to another one, call for call, and keeps the last line of the log, and which
/// sequences made no step. Where there is no memory for that, nothing is kept, and the calls stay.
#[derive(Drop)]
pub struct KeptSink<K> {
    sink: K,
    heard: Heard,
}

impl<K: Sink + Drop> KeptSink<K> {
    /// Before this sink, with nothing written yet.
    pub fn new(alloc: Global, sink: K) -> KeptSink<K>
        ensures written { ⟦<KeptSink<K> as Sink>⟧.written result ≡ K.written sink }
        ensures faults { ⟦<KeptSink<K> as Sink>⟧.faults result ≡ K.faults sink }
        ensures ends { ⟦<KeptSink<K> as Sink>⟧.ends result ≡ K.ends sink }
        ensures target { ⟦<KeptSink<K> as Sink>⟧.target result ≡ K.target sink }
    {
        KeptSink {
            sink,
            heard: Heard::new(alloc),
        }
    }

    pub(crate) fn heard(&self) -> &Heard {
        &self.heard
    }
}

impl<K: Sink> Sink for KeptSink<K> {
    ghost written = { λ k. K.written k.sink };

    ghost faults = { λ k. K.faults k.sink };

    ghost ends = { λ k. K.ends k.sink };

    ghost target = { λ k. K.target k.sink };

    fn write(&mut self, piece: &[u8]) -> Result<usize, Failed> {
        let count = self.sink.write(piece)?;
        self.heard.hear(&piece[..count]);
        Ok(count)
    }

    fn finish(&mut self) -> Result<(), Failed> {
        self.sink.finish()
    }
}
