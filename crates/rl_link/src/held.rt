// Bytes that were read and aren't used yet.
ghost use Rattle.std.specs.Prelude.{◌≡◌, ◌+◌, ◌-◌, ◌<◌, ◌≤◌, [], length, slice_range};
ghost use Rattle.std.specs.Prelude.{IfOk, OnErr, IfSome, IfNone};
ghost use Rattle.std.specs.Io.KnownBytes.{IsAtEnd, Keeps};
ghost use Rattle.rl_bus.specs.Causes.{HasCause};
ghost use Rattle.rl_report.specs.Lines.{first_line};
ghost use Rattle.rl_link.specs.Coming.{coming, IsLine};

use memchr::memchr;
use rl_report::{Failed, Source, refill};
use std::alloc::{AllocError, Global};
use std::marker::Model;

const BUFFER: usize = 8192;

/// Bytes that were read and aren't used yet: 8,192 at most. It is seen as these bytes.
#[derive(Drop)]
pub struct Held {
    buffer: Vec<u8>,
    start: usize,
    end: usize,
}

impl Model for Held {
    ghost use Rattle.std.specs.Prelude.{ℕ, List, ◌≡◌, ◌≤◌, slice_range, vec_len};

    ghost Value = { List ℕ };

    ghost view = { λ h. slice_range h.buffer.items h.start h.end };

    ghost invariant = { λ h. (h.start ≤ h.end) × (h.end ≤ 8192) × (vec_len h.buffer ≡ 8192) };
}

impl Held {
    ghost use Rattle.std.specs.Prelude.{◌≡◌, ◌≤◌, ◌<◌, ◌+◌, drop, length, IfOk, OnErr};

    /// Room for 8,192 bytes.
    pub fn build(alloc: Global) -> Result<Held, AllocError>
        ensures { IfOk result (λ held. held ≡ []) }
    {
        Ok(Held {
            buffer: vec![in alloc; 0; BUFFER]?,
            start: 0,
            end: 0,
        })
    }

    /// What is held.
    pub fn bytes(&self) -> &[u8]
        ensures bytes { result.now ≡ self.now }
        ensures few { length self.now ≤ 8192 }
    {
        &self.buffer[self.start..self.end]
    }

    /// How long the first line is, where its end is held too.
    pub fn line_len(&self) -> Option<usize>
        ensures some { IfSome result (IsLine self.now) }
        ensures none { IfNone result (first_line self.now ≡ self.now) }
    {
        end_of_line(self.bytes())
    }

    /// Drops so many bytes from the front.
    pub fn pass(&mut self, count: usize)
        requires { count ≤ length self.old }
        ensures { self.new ≡ drop count self.old }
    {
        self.start += count;
    }

    /// Reads once, after what is held. Answers how many bytes came: none at the source's end.
    pub fn take_more<S: Source>(&mut self, source: &mut S) -> Result<usize, Failed>
        requires short { length self.old ≤ 4096 }
        ensures coming { Keeps (coming self.old (S.left source.old)) (coming self.new (S.left source.new)) }
        ensures grows { IfOk result (λ count. length self.new ≡ length self.old + count) }
        ensures none { IfOk result (λ count. count ≡ 0 → self.new ≡ self.old) }
        ensures end { IfOk result (λ count. count ≡ 0 → IsAtEnd (S.left source.new)) }
        ensures kept { OnErr result (self.new ≡ self.old) }
        ensures cause { HasCause (S.faults source.old) (S.faults source.new) result }
    {
        refill(&mut self.buffer, &mut self.start, &mut self.end, source)
    }
}

// Where the first line ends.
fn end_of_line(bytes: &[u8]) -> Option<usize>
    ensures some { IfSome result (λ len. (len ≡ length (first_line bytes.now)) × (len < length bytes.now)) }
    ensures none { IfNone result (first_line bytes.now ≡ bytes.now) }
{
    memchr(b'\n', bytes)
}

/// The first line of some bytes, without its end.
pub(crate) fn first_line(bytes: &[u8]) -> &[u8]
    ensures { result.now ≡ first_line bytes.now }
{
    match end_of_line(bytes) {
        Some(len) => &bytes[..len],
        None => bytes,
    }
}
