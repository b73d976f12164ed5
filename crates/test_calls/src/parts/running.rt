// What the command does with its words, over parts in memory.
ghost use Rattle.std.specs.Prelude.{◌<◌, ◌^◌, IfOk, length, map};

use regrun::{Status, regrun};
use rl_apb::fresh_adapters;
use rl_bus::{Adapter, Adapters};
use rl_report::{MemSink, MemSource};
use std::alloc::{AllocError, Global};
use std::test::Fail;

/// An adapter of each kind.
pub(crate) fn adapters(alloc: Global) -> Result<Adapters, AllocError>
    ensures { IfOk result (λ adapters. length (map standing adapters.items) < 2 ^ 32) }
{
    let (plain, apb) = fresh_adapters();
    let mut adapters: Adapters = Vec::new(alloc);
    adapters.push(Box::new(alloc, plain)?)?;
    adapters.push(Box::new(alloc, apb)?)?;
    Ok(adapters)
}

fn owned(alloc: Global, words: &[&str]) -> Result<Vec<String>, AllocError> {
    let mut owned = Vec::new(alloc);
    for word in words {
        owned.push(String::from_str(alloc, word)?)?;
    }
    Ok(owned)
}

fn run_over(
    alloc: Global,
    words: &[String],
    source: &mut MemSource,
    sink: &mut MemSink,
) -> Result<Status, AllocError> {
    let mut adapters = adapters(alloc)?;
    Ok(regrun(alloc, words, source, sink, &mut adapters))
}

/// The status, and what was written to a sink that takes three bytes at a call. The source gives pieces of so many bytes,
/// and the source and the sink fail at these calls.
pub(crate) fn ran(
    alloc: Global,
    words: &[&str],
    session: &[u8],
    piece: usize,
    source_fails: &[u64],
    sink_fails: &[u64],
) -> Result<(Status, Vec<u8>), Fail> {
    let words = owned(alloc, words)?;
    let mut source = MemSource::new(session.to_vec(alloc)?, piece, source_fails.to_vec(alloc)?);
    let mut sink = MemSink::new(alloc, 3, 4096, sink_fails.to_vec(alloc)?)?;
    let status = run_over(alloc, &words, &mut source, &mut sink)?;
    Ok((status, sink.written().to_vec(alloc)?))
}
