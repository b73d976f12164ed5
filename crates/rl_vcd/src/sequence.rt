// The lines of a log around the events of a sequence.
ghost use Rattle.std.specs.Prelude.{◌≡◌};
ghost use Rattle.rl_log.specs.Entry.{begin_text, closing_text, over_text, sequence_text, tally_text};
ghost use Rattle.rl_report.specs.Pieces.{PutsText};

use itoa::Buffer;
use rl_log::Counts;
use rl_report::{Failed, Sink, put_all, put_pieces};
use rl_script::{PathRef, Sequence};

// The block that a sequence goes over, or `*` for the whole chip.
fn over<'a>(block: &Option<PathRef<'a>>) -> &'a [u8]
    ensures { result.now ≡ over_text block.now }
{
    match block {
        None => b"*",
        Some(block) => block.text(),
    }
}

// Writes the name of a sequence, and the block that it goes over.
fn put_sequence<K: Sink>(
    sink: &mut K,
    which: Sequence,
    block: &Option<PathRef<'_>>,
) -> Result<(), Failed>
    ensures { PutsText K.Sink sink.old sink.new (sequence_text which block.now) result }
{
    let pieces: [&[u8]; 3] = [b"seq ", which.name(), b" "];
    put_pieces(sink, &pieces)?;
    put_all(sink, over(block))
}

// Writes what was counted of a sequence.
fn put_counts<K: Sink>(sink: &mut K, counts: &Counts) -> Result<(), Failed>
    ensures { PutsText K.Sink sink.old sink.new
        (tally_text counts.now.events counts.now.differences counts.now.errors) result }
{
    let mut steps = Buffer::new();
    let mut differences = Buffer::new();
    let mut errors = Buffer::new();
    let pieces: [&[u8]; 7] = [
        b": ",
        steps.format(counts.events).as_bytes(),
        b" steps, ",
        differences.format(counts.differences).as_bytes(),
        b" differences, ",
        errors.format(counts.errors).as_bytes(),
        b" bus errors\n",
    ];
    put_pieces(sink, &pieces)
}

/// Writes the line before the events of a sequence.
pub(crate) fn put_sequence_begin<K: Sink>(
    sink: &mut K,
    which: Sequence,
    block: &Option<PathRef<'_>>,
) -> Result<(), Failed>
    ensures { PutsText K.Sink sink.old sink.new (begin_text which block.now) result }
{
    put_sequence(sink, which, block)?;
    put_all(sink, b": begin\n")
}

/// Writes the line after the events of a sequence.
pub(crate) fn put_sequence_end<K: Sink>(
    sink: &mut K,
    which: Sequence,
    block: &Option<PathRef<'_>>,
    counts: &Counts,
) -> Result<(), Failed>
    ensures { PutsText K.Sink sink.old sink.new
        (closing_text which block.now counts.now.events counts.now.differences counts.now.errors) result }
{
    put_sequence(sink, which, block)?;
    put_counts(sink, counts)
}
