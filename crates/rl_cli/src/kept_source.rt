// A source that keeps some of what it gives.
ghost use Rattle.std.specs.Prelude.{◌≡◌, ◌<◌, length};

use crate::lines::{is_line_end, without_return};
use memchr::memmem;
use rl_report::{Failed, Source};
use std::alloc::Global;
use std::mem;

const MOST_FRONT: usize = 1_081_344;

const LEAST_LAST: usize = 8_192;

/// A session cut at its separator.
#[derive(Clone, Copy)]
pub(crate) struct Parts<'a> {
    pub(crate) description: &'a [u8],
    /// Where the script begins.
    pub(crate) script: usize,
}

/// What is kept of the bytes of a session.
#[derive(Drop)]
pub(crate) struct Kept {
    // The first bytes: to the end of the read that gave the separator.
    front: Vec<u8>,
    // The last ones, 8,192 at least where there are so many: in these two, one behind the other.
    earlier: Vec<u8>,
    last: Vec<u8>,
    // How many came in all.
    count: usize,
    // A line of the front begins as the separator does.
    separated: bool,
    // Some of it couldn't be kept.
    lost: bool,
}

impl Kept {
    fn new(alloc: Global) -> Kept {
        Kept {
            front: Vec::new(alloc),
            earlier: Vec::new(alloc),
            last: Vec::new(alloc),
            count: 0,
            separated: false,
            lost: false,
        }
    }

    fn keep(&mut self, bytes: &[u8]) {
        self.count = self.count.saturating_add(bytes.len());
        self.keep_front(bytes);
        if self.last.len() >= LEAST_LAST {
            mem::swap(&mut self.earlier, &mut self.last);
            self.last.clear();
        }
        if self.last.extend_from_slice(bytes).is_err() {
            self.lost = true;
        }
    }

    // Keeps what is before the separator, or behind it in one read with it.
    fn keep_front(&mut self, bytes: &[u8]) {
        if self.separated || self.lost {
            return;
        }
        let before = self.front.len();
        if before > MOST_FRONT || self.front.extend_from_slice(bytes).is_err() {
            self.lost = true;
            return;
        }
        self.separated = may_separate(&self.front, before.saturating_sub(4));
    }

    /// The bytes of the front, and how many came in all. None where some are lost.
    pub(crate) fn front(&self) -> Option<&[u8]> {
        if self.lost {
            return None;
        }
        Some(&self.front)
    }

    /// The parts of the session, where its separator is in the front.
    pub(crate) fn parts(&self) -> Option<Parts<'_>> {
        parts_of(self.front()?)
    }

    /// The whole script, where the front is all that came.
    pub(crate) fn script(&self, parts: Parts<'_>) -> Option<&[u8]> {
        if self.lost || self.count != self.front.len() {
            return None;
        }
        Some(self.front.get(parts.script..).unwrap_or(&[]))
    }

    /// The last bytes that came. None where some are lost, or there is no memory.
    pub(crate) fn last(&self, alloc: Global) -> Option<Vec<u8>> {
        if self.lost {
            return None;
        }
        let mut bytes = Vec::from_slice(alloc, &self.earlier).ok()?;
        bytes.extend_from_slice(&self.last).ok()?;
        Some(bytes)
    }

    /// How many bytes came before the last ones.
    pub(crate) fn before_last(&self) -> usize {
        self.count
            .saturating_sub(self.earlier.len())
            .saturating_sub(self.last.len())
    }
}

// Whether a line that begins at this place, or behind it, begins as the separator does.
fn may_separate(front: &[u8], from: usize) -> bool {
    let Some(bytes) = front.get(from..) else {
        return false;
    };
    (from == 0 && bytes.starts_with(b"---")) || memmem::find(bytes, b"\n---").is_some()
}

// The parts of a session, if it has a separator.
fn parts_of(bytes: &[u8]) -> Option<Parts<'_>> {
    let mut from = 0usize;
    for line in bytes.split(is_line_end) {
        let end = from.saturating_add(line.len());
        if without_return(line) == b"---".as_slice() {
            return Some(Parts {
                description: bytes.get(..from)?,
                script: end.saturating_add(1),
            });
        }
        from = end.saturating_add(1);
    }
    None
}

/// A source that gives exactly what another one gives, read for read, and keeps the description and the last lines for
/// what a program says of a refusal. Where there is no memory for that, nothing is kept, and the reads stay.
#[derive(Drop)]
pub struct KeptSource<S> {
    source: S,
    kept: Kept,
}

impl<S: Source + Drop> KeptSource<S> {
    /// Before this source, with nothing read yet.
    pub fn new(alloc: Global, source: S) -> KeptSource<S>
        ensures left { ⟦<KeptSource<S> as Source>⟧.left result ≡ S.left source }
        ensures faults { ⟦<KeptSource<S> as Source>⟧.faults result ≡ S.faults source }
    {
        KeptSource {
            source,
            kept: Kept::new(alloc),
        }
    }

    pub(crate) fn kept(&self) -> &Kept {
        &self.kept
    }
}

impl<S: Source> Source for KeptSource<S> {
    ghost left = { λ k. S.left k.source };

    ghost faults = { λ k. S.faults k.source };

    fn read(&mut self, buf: &mut [u8]) -> Result<usize, Failed> {
        let count = self.source.read(buf)?;
        self.kept.keep(&buf[..count]);
        Ok(count)
    }
}
