// A session that is read whole before it is graded, so that its mark is known.
ghost use Rattle.std.specs.Prelude.{◌≡◌, ◌≤◌, ◌<◌, ◌++◌, false, length, take, Some, IfOk, IfErr, IfSome, OnOk};
ghost use Rattle.std.specs.Io.{ReadsAtMost};
ghost use Rattle.std.specs.Io.KnownBytes.{Consumes, IsAtEnd, ReadConsumes};
ghost use Rattle.rl_bus.specs.Causes.{HasCause};
ghost use Rattle.rl_grade_report.specs.Prelude.{IsCaused, is_complete};

use rl_log::Status;
use rl_report::{Failed, Source, copy_front};
use std::alloc::Global;

const PIECE: usize = 4096;

/// Bytes in memory as a source. It never fails.
#[derive(Drop)]
pub(crate) struct Bytes<'a> {
    /// Those that are left.
    pub(crate) left: &'a [u8],
}

impl Source for Bytes<'_> {
    ghost left = { λ s. Some s.left.now };

    ghost faults = { λ _. 0 };

    fn read(&mut self, buf: &mut [u8]) -> Result<usize, Failed> {
        let count = copy_front(self.left, buf, PIECE);
        self.left = &self.left[count..];
        Ok(count)
    }
}

// Reads once.
fn read_once<S: Source>(source: &mut S, buffer: &mut [u8; PIECE]) -> Result<usize, Status>
    ensures few { IfOk result (λ count. count ≤ length buffer.new) }
    ensures bytes { IfOk result (λ count. Consumes (S.left source.old) (S.left source.new) (take count buffer.new)) }
    ensures end { IfOk result (λ count. count ≡ 0 → IsAtEnd (S.left source.new)) }
    ensures later { S.faults source.old ≤ S.faults source.new }
    ensures broken { IfErr result (λ status. is_complete status ≡ false) }
    ensures cause { IfErr result (λ status. IsCaused status (S.faults source.old) (S.faults source.new) 0 0) }
{
    match source.read(buffer) {
        Ok(count) => Ok(count),
        Err(Failed) => Err(Status::SourceFault),
    }
}

fn append(bytes: &mut Vec<u8>, more: &[u8]) -> Result<(), Status>
    ensures bytes { OnOk result (bytes.new.items ≡ bytes.old.items ++ more.now) }
    ensures memory { IfErr result (λ status. status ≡ Status.Memory) }
{
    match bytes.extend_from_slice(more) {
        Ok(()) => Ok(()),
        Err(_) => Err(Status::Memory),
    }
}

/// All bytes of a source.
///
/// # Errors
///
/// `SourceFault` where the source fails, and `Memory`.
pub fn read_all<S: Source>(alloc: Global, source: &mut S) -> Result<Vec<u8>, Status>
    ensures bytes { IfOk result (λ bytes. IfSome (S.left source.old) (λ all. bytes.items ≡ all)) }
    ensures end { IfOk result (λ _. IsAtEnd (S.left source.new)) }
    ensures later { S.faults source.old ≤ S.faults source.new }
    ensures broken { IfErr result (λ status. is_complete status ≡ false) }
    ensures cause { IfErr result (λ status. IsCaused status (S.faults source.old) (S.faults source.new) 0 0) }
{
    let mut bytes = Vec::new(alloc);
    let mut buffer = [0u8; PIECE];
    for _ in 0..u64::MAX {
        let count = read_once(source, &mut buffer)?;
        if count == 0 {
            return Ok(bytes);
        }
        append(&mut bytes, &buffer[..count])?;
    }
    Err(Status::Memory)
}
