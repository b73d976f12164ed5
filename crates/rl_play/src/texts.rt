// The last lines of a log.
ghost use Rattle.std.specs.Prelude.{◌≡◌, ◌≢◌, Some, None};
ghost use Rattle.rl_report.specs.Pieces.{PutsText};
ghost use Rattle.rl_log.specs.Entry.{over_text, sequence_text, begin_text, closing_text};
ghost use Rattle.rl_log.specs.Log.{refused_by};
ghost use Rattle.rl_log.specs.Texts.{reason_text, refused_text, end_text};
ghost use Rattle.rl_play.specs.Texts.{counts_text, refused_so_text};

use itoa::Buffer;
use rl_log::{Counts, LineRefusal};
use rl_report::{Failed, Sink, put_all, put_pieces, text_beside};
use rl_script::{LineFault, PathRef, Sequence};

fn reason(refusal: LineRefusal) -> &'static [u8]
    ensures { result.now ≡ reason_text refusal }
{
    text_beside! {
        refusal: LineRefusal;
        TooLong b"too long", NotAscii b"not ascii", NoSuchCommand b"no such command", WrongCount b"wrong count",
        BadName b"bad name", BadNumber b"bad number", NumberTooLarge b"number too large",
        CountOutOfRange b"count out of range", NoSuchName b"no such name", TooManyLines b"too many lines"
    }
}

/// Why a line that doesn't read is refused, or none where memory ran out.
pub fn refusal_of(fault: LineFault) -> Option<LineRefusal>
    ensures refusal { fault ≢ LineFault.Memory → result ≡ Some (refused_by fault) }
    ensures memory { fault ≡ LineFault.Memory → result ≡ None }
{
    match fault {
        LineFault::TooLong => Some(LineRefusal::TooLong),
        LineFault::NotAscii => Some(LineRefusal::NotAscii),
        LineFault::NoSuchCommand => Some(LineRefusal::NoSuchCommand),
        LineFault::WrongCount => Some(LineRefusal::WrongCount),
        LineFault::BadName => Some(LineRefusal::BadName),
        LineFault::BadNumber => Some(LineRefusal::BadNumber),
        LineFault::NumberTooLarge => Some(LineRefusal::NumberTooLarge),
        LineFault::CountOutOfRange => Some(LineRefusal::CountOutOfRange),
        LineFault::Memory => None,
    }
}

/// Writes that a line was refused, for a reason that is given as text.
pub fn put_refused_so<K: Sink>(sink: &mut K, number: u64, reason: &[u8]) -> Result<(), Failed>
    ensures { PutsText K.Sink sink.old sink.new (refused_so_text number reason.now) result }
{
    let mut buffer = Buffer::new();
    let pieces: [&[u8]; 5] = [
        b"refused line ",
        buffer.format(number).as_bytes(),
        b": ",
        reason,
        b"\n",
    ];
    put_pieces(sink, &pieces)
}

/// Writes that a line was refused.
pub fn put_line_refused<K: Sink>(
    sink: &mut K,
    number: u64,
    refusal: LineRefusal,
) -> Result<(), Failed>
    ensures { PutsText K.Sink sink.old sink.new (refused_text number refusal) result }
{
    put_refused_so(sink, number, reason(refusal))
}

// Writes what was counted, behind a beginning, with a word for the events.
fn put_counts<K: Sink>(
    sink: &mut K,
    begin: &[u8],
    events: &[u8],
    counts: &Counts,
) -> Result<(), Failed>
    ensures { PutsText K.Sink sink.old sink.new (counts_text begin.now events.now counts.now) result }
{
    let mut count = Buffer::new();
    let mut differences = Buffer::new();
    let mut errors = Buffer::new();
    let pieces: [&[u8]; 7] = [
        begin,
        count.format(counts.events).as_bytes(),
        events,
        differences.format(counts.differences).as_bytes(),
        b" differences, ",
        errors.format(counts.errors).as_bytes(),
        b" bus errors\n",
    ];
    put_pieces(sink, &pieces)
}

// Writes the last line of a whole log.
pub(crate) fn put_end<K: Sink>(sink: &mut K, counts: &Counts) -> Result<(), Failed>
    ensures { PutsText K.Sink sink.old sink.new (end_text counts.now) result }
{
    put_counts(sink, b"end: ", b" events, ", counts)
}

// The block that a sequence goes over, or `*` for the whole chip.
fn over<'a>(block: &Option<PathRef<'a>>) -> &'a [u8]
    ensures { result.now ≡ over_text block.now }
{
    match block {
        None => b"*",
        Some(block) => block.text(),
    }
}

// Writes the name of a sequence, and the block that it goes over.
fn put_sequence<K: Sink>(
    sink: &mut K,
    which: Sequence,
    block: &Option<PathRef<'_>>,
) -> Result<(), Failed>
    ensures { PutsText K.Sink sink.old sink.new (sequence_text which block.now) result }
{
    let pieces: [&[u8]; 3] = [b"seq ", which.name(), b" "];
    put_pieces(sink, &pieces)?;
    put_all(sink, over(block))
}

// Writes the line before the events of a sequence.
pub(crate) fn put_sequence_begin<K: Sink>(
    sink: &mut K,
    which: Sequence,
    block: &Option<PathRef<'_>>,
) -> Result<(), Failed>
    ensures { PutsText K.Sink sink.old sink.new (begin_text which block.now) result }
{
    put_sequence(sink, which, block)?;
    put_all(sink, b": begin\n")
}

// Writes the line after the events of a sequence.
pub(crate) fn put_sequence_end<K: Sink>(
    sink: &mut K,
    which: Sequence,
    block: &Option<PathRef<'_>>,
    counts: &Counts,
) -> Result<(), Failed>
    ensures { PutsText K.Sink sink.old sink.new
        (closing_text which block.now counts.now.events counts.now.differences counts.now.errors) result }
{
    put_sequence(sink, which, block)?;
    put_counts(sink, b": ", b" steps, ", counts)
}
