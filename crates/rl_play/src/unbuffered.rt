// A log that keeps nothing back.
ghost use Rattle.std.specs.Prelude.{◌≡◌, ⊤};
ghost use Rattle.std.proofs.Props.{props};
ghost use Rattle.rl_log.specs.Earlier.{KeepsEarlier};

use crate::buffered::Earlier;
use crate::log::Log;
use rl_access::{Event, Model};
use rl_report::{Failed, Sink, write_event};
use std::marker::PhantomData;

/// A log that keeps nothing back: what a call writes is in the sink behind it when the call returns. So where a device
/// hangs, the sink has each event before the one that hangs. Whatever is written through it, the sink keeps its earlier
/// bytes.
#[derive(Drop)]
pub struct Unbuffered<'a, K: Sink, E: Earlier> {
    /// The sink behind it.
    pub sink: &'a mut K,
    /// The bytes that the sink had before.
    pub earlier: PhantomData<E>,
    pub ghost keeps_earlier: { KeepsEarlier E.bytes (K.written sink.now) } by { Prim.hlevel props },
}

impl<'a, K: Sink, E: Earlier> Unbuffered<'a, K, E> {
    /// Before this sink.
    pub fn new(sink: &'a mut K) -> Unbuffered<'a, K, E>
        requires { K.written sink.old ≡ E.bytes }
        ensures sink { result.sink.now ≡ sink.old }
        ensures same_sink { result.sink.ghost_name ≡ sink.entry.ghost_name }
    {
        Unbuffered {
            sink,
            earlier: PhantomData,
        }
    }
}

impl<K: Sink, E: Earlier> Sink for Unbuffered<'_, K, E> {
    ghost written = { λ log. K.written log.sink.now };

    ghost faults = { λ log. K.faults log.sink.now };

    ghost ends = { λ log. K.ends log.sink.now };

    ghost target = { λ log. log.sink.ghost_name };

    fn write(&mut self, piece: &[u8]) -> Result<usize, Failed> {
        self.sink.write(piece)
    }

    fn finish(&mut self) -> Result<(), Failed> {
        self.sink.finish()
    }
}

impl<K: Sink, E: Earlier> Log for Unbuffered<'_, K, E> {
    ghost is_out = { λ _. ⊤ };

    fn event(&mut self, model: &Model, event: &Event) -> Result<(), Failed> {
        write_event(self, model, event)
    }

    fn flush(&mut self) -> Result<(), Failed> {
        Ok(())
    }
}
