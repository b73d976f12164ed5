// A sink that keeps bytes back, until it is told to write them or has no more room.
ghost use Rattle.std.specs.Prelude.{◌≡◌, ◌<◌, ◌≤◌, ◌-◌, ◌+◌, ◌++◌, IfOk, OnOk, OnErr, slice_range, length, take};
ghost use Rattle.std.specs.Prelude.{drop, min};
ghost use Rattle.std.specs.Io.KnownBytes.{WriteAppends, Keeps, append_known};
ghost use Rattle.std.proofs.Props.{props};
ghost use Rattle.rl_bus.specs.Causes.{HasCause};
ghost use Rattle.rl_report.specs.Ends.{EndedOnce};
ghost use Rattle.rl_log.specs.Earlier.{KeepsEarlier};

use crate::log::Log;
use rl_access::{Event, Model};
use rl_report::{Failed, Sink, write_event};
use std::marker::{Brand, PhantomData};

const ROOM: usize = 32768;

/// Names the bytes that a sink had when a call began. It is no data: only proofs read it.
pub trait Earlier {
    ghost use Rattle.std.specs.Prelude.{ℕ, List};
    ghost use Rattle.std.specs.declared.option.Option.{Option};

    /// The bytes, where the sink reports them.
    ghost bytes: { Option (List ℕ) };
}

// A call through `Brand` picks its own bytes; these are never used.
impl Earlier for Brand {
    ghost use Rattle.std.specs.Prelude.{None};

    ghost bytes = { None };
}

/// A sink before another one, which keeps bytes back until it is asked to write them or has no more room. Whatever is
/// written through it, the sink behind it keeps its earlier bytes.
#[derive(Drop)]
pub struct Buffered<'a, K: Sink, E: Earlier> {
    /// The sink behind it.
    pub sink: &'a mut K,
    /// Room for what is kept back.
    pub bytes: [u8; ROOM],
    /// Where the bytes that are kept back begin.
    pub start: usize,
    /// Where they end.
    pub end: usize,
    /// The bytes that the sink had before.
    pub earlier: PhantomData<E>,
    pub ghost keeps_earlier: { KeepsEarlier E.bytes (K.written sink.now) } by { Prim.hlevel props },
    pub ghost ordered: { start ≤ end },
    pub ghost within: { end ≤ 32768 },
}

// Writes some of the bytes between two places.
fn write_part<K: Sink>(
    sink: &mut K,
    bytes: &[u8],
    start: usize,
    end: usize,
) -> Result<usize, Failed>
    requires some { start < end }
    requires within { end ≤ length bytes.now }
    ensures some { IfOk result (λ n. 0 < n) }
    ensures bound { IfOk result (λ n. n ≤ end - start) }
    ensures bytes { WriteAppends (K.written sink.old) (K.written sink.new) result (slice_range bytes.now start end) }
    ensures cause { HasCause (K.faults sink.old) (K.faults sink.new) result }
    ensures ends_kept { K.ends sink.new ≡ K.ends sink.old }
{
    sink.write(&bytes[start..end])
}

// Copies a piece behind a place, where there is room for it.
fn copy_behind(bytes: &mut [u8], end: usize, piece: &[u8])
    requires room { end + length piece.now ≤ length bytes.old }
    ensures before { take end bytes.new ≡ take end bytes.old }
    ensures copied { slice_range bytes.new end (end + length piece.now) ≡ piece.now }
{
    bytes[end..end + piece.len()].copy_from_slice(piece);
}

impl<'a, K: Sink, E: Earlier> Buffered<'a, K, E> {
    ghost use Rattle.rl_play.specs.Told.{kept_back, told};

    /// Before this sink, with nothing kept back.
    pub fn new(sink: &'a mut K) -> Buffered<'a, K, E>
        requires { K.written sink.old ≡ E.bytes }
        ensures sink { result.sink.now ≡ sink.old }
        ensures same_sink { result.sink.ghost_name ≡ sink.entry.ghost_name }
        ensures empty { result.end ≡ 0 }
        ensures told { told K.written result ≡ K.written sink.old }
    {
        Buffered {
            sink,
            bytes: [0; ROOM],
            start: 0,
            end: 0,
            earlier: PhantomData,
        }
    }

    // Writes some of what was kept back.
    fn write_some(&mut self) -> Result<(), Failed>
        requires { self.old.start < self.old.end }
        ensures told { Keeps (told K.written self.old) (told K.written self.new) }
        ensures less { OnOk result (self.new.end - self.new.start < self.old.end - self.old.start) }
        ensures cause { HasCause (K.faults self.old.sink.now) (K.faults self.new.sink.now) result }
        ensures ends_kept { K.ends self.new.sink.now ≡ K.ends self.old.sink.now }
        ensures same_sink { self.new.sink.ghost_name ≡ self.old.sink.ghost_name }
    {
        let count = write_part(self.sink, &self.bytes, self.start, self.end)?;
        self.start += count;
        Ok(())
    }

    /// Writes what was kept back. A fault loses nothing of it.
    pub fn flush(&mut self) -> Result<(), Failed>
        ensures told { Keeps (told K.written self.old) (told K.written self.new) }
        ensures empty { OnOk result (self.new.end ≡ 0) }
        ensures idle { self.old.end ≡ 0 → self.new.end ≡ 0 }
        ensures cause { HasCause (K.faults self.old.sink.now) (K.faults self.new.sink.now) result }
        ensures ends_kept { K.ends self.new.sink.now ≡ K.ends self.old.sink.now }
        ensures same_sink { self.new.sink.ghost_name ≡ self.old.sink.ghost_name }
    {
        while self.start < self.end {
            self.write_some()?;
        }
        self.start = 0;
        self.end = 0;
        Ok(())
    }

    /// Writes what was kept back, and ends the sink.
    pub fn close(&mut self) -> Result<(), Failed>
        ensures told { Keeps (told K.written self.old) (told K.written self.new) }
        ensures whole { OnOk result (Keeps (told K.written self.old) (K.written self.new.sink.now)) }
        ensures cause { HasCause (K.faults self.old.sink.now) (K.faults self.new.sink.now) result }
        ensures ended { OnOk result (EndedOnce (K.ends self.old.sink.now) (K.ends self.new.sink.now)) }
        ensures ends_kept { OnErr result (K.ends self.new.sink.now ≡ K.ends self.old.sink.now) }
        ensures same_sink { self.new.sink.ghost_name ≡ self.old.sink.ghost_name }
    {
        self.flush()?;
        self.sink.finish()
    }

    // Writes what was kept back, where there is no room behind it.
    fn make_room(&mut self) -> Result<(), Failed>
        ensures told { Keeps (told K.written self.old) (told K.written self.new) }
        ensures room { OnOk result (self.new.end < 32768) }
        ensures cause { HasCause (K.faults self.old.sink.now) (K.faults self.new.sink.now) result }
        ensures ends_kept { K.ends self.new.sink.now ≡ K.ends self.old.sink.now }
        ensures same_sink { self.new.sink.ghost_name ≡ self.old.sink.ghost_name }
    {
        if self.end < ROOM {
            Ok(())
        } else {
            self.flush()
        }
    }

    // Keeps the piece back, where there is room for it.
    fn keep(&mut self, piece: &[u8])
        requires room { self.old.end + length piece.now ≤ 32768 }
        ensures kept { kept_back self.new ≡ kept_back self.old ++ piece.now }
        ensures sink { self.new.sink.now ≡ self.old.sink.now }
        ensures same_sink { self.new.sink.ghost_name ≡ self.old.sink.ghost_name }
    {
        copy_behind(&mut self.bytes, self.end, piece);
        self.end += piece.len();
    }

    // Keeps as much of the piece back as there is room for, once some is made. Answers how much.
    fn keep_some(&mut self, piece: &[u8]) -> Result<usize, Failed>
        requires some { 0 < length piece.now }
        ensures some { IfOk result (λ n. 0 < n) }
        ensures bound { IfOk result (λ n. n ≤ length piece.now) }
        ensures bytes { WriteAppends (told K.written self.old) (told K.written self.new) result piece.now }
        ensures cause { HasCause (K.faults self.old.sink.now) (K.faults self.new.sink.now) result }
        ensures ends_kept { K.ends self.new.sink.now ≡ K.ends self.old.sink.now }
        ensures same_sink { self.new.sink.ghost_name ≡ self.old.sink.ghost_name }
    {
        self.make_room()?;
        let count = piece.len().min(ROOM - self.end);
        self.keep(&piece[..count]);
        Ok(count)
    }
}

impl<K: Sink, E: Earlier> Sink for Buffered<'_, K, E> {
    ghost use Rattle.rl_play.specs.Told.{told};

    ghost written = { λ b. told K.written b };

    ghost faults = { λ b. K.faults b.sink.now };

    ghost ends = { λ b. K.ends b.sink.now };

    ghost target = { λ b. b.sink.ghost_name };

    fn write(&mut self, piece: &[u8]) -> Result<usize, Failed> {
        if piece.len() > ROOM - self.end {
            return self.keep_some(piece);
        }
        self.keep(piece);
        Ok(piece.len())
    }

    fn finish(&mut self) -> Result<(), Failed> {
        self.close()
    }
}

impl<K: Sink, E: Earlier> Log for Buffered<'_, K, E> {
    ghost is_out = { λ b. b.end ≡ 0 };

    fn event(&mut self, model: &Model, event: &Event) -> Result<(), Failed> {
        write_event(self, model, event)
    }

    fn flush(&mut self) -> Result<(), Failed> {
        self.flush()
    }
}
