// A source that gives a line at a time.
ghost use Rattle.std.specs.Prelude.{◌≡◌, ◌<◌, ◌≤◌, [], length, IfOk, OnOk};
ghost use Rattle.std.specs.Io.KnownBytes.{IsAtEnd, Keeps};
ghost use Rattle.rl_bus.specs.Causes.{HasCause};
ghost use Rattle.rl_link.specs.Coming.{coming};

use crate::held::Held;
use rl_report::{Failed, Source, copy_front};
use std::alloc::{AllocError, Global};

/// A source that gives what another one gives, and with a read no more than a line: so that what a caller writes after
/// each read is written after each line.
#[derive(Drop)]
pub struct ByLine<S: Source> {
    source: S,
    held: Held,
}

impl<S: Source + Drop> ByLine<S> {
    /// Before this source, with nothing read yet.
    pub fn build(alloc: Global, source: S) -> Result<ByLine<S>, AllocError>
        ensures { IfOk result (λ it. (it.source ≡ source) × (it.held ≡ [])) }
    {
        Ok(ByLine {
            source,
            held: Held::build(alloc)?,
        })
    }
}

// Reads once where nothing is held.
fn fill<S: Source>(held: &mut Held, source: &mut S) -> Result<(), Failed>
    ensures coming { Keeps (coming held.old (S.left source.old)) (coming held.new (S.left source.new)) }
    ensures end { OnOk result (length held.new ≡ 0 → IsAtEnd (S.left source.new)) }
    ensures cause { HasCause (S.faults source.old) (S.faults source.new) result }
{
    if held.bytes().is_empty() {
        held.take_more(source)?;
    }
    Ok(())
}

// How many bytes the first line has with its end, or all bytes.
fn line_size(held: &Held) -> usize
    ensures within { result ≤ length held.now }
    ensures some { 0 < length held.now → 0 < result }
{
    match held.line_len() {
        Some(len) => len + 1,
        None => held.bytes().len(),
    }
}

impl<S: Source> Source for ByLine<S> {
    ghost use Rattle.std.specs.Io.KnownBytes.{prepend_known};

    ghost left = { λ s. prepend_known s.held (S.left s.source) };

    ghost faults = { λ s. S.faults s.source };

    fn read(&mut self, buf: &mut [u8]) -> Result<usize, Failed> {
        fill(&mut self.held, &mut self.source)?;
        let size = line_size(&self.held);
        let count = copy_front(self.held.bytes(), buf, size);
        self.held.pass(count);
        Ok(count)
    }
}
