// Pieces of text into a sink.
ghost use Rattle.std.specs.Prelude.{◌≡◌, ◌≤◌, [], length, map, OnOk};
ghost use Rattle.rl_report.specs.Pieces.{GathersTo, PutsText, SinkStays, joined};

use crate::text::Text;
use crate::{Failed, Sink};

// A text with no more than this has room for what is pushed without a further look.
const FULL: usize = 384;

/// Writes the whole piece. After a fault a prefix of it was written. An empty piece makes no call.
pub fn put_all<K: Sink>(sink: &mut K, piece: &[u8]) -> Result<(), Failed>
    ensures { PutsText K.Sink sink.old sink.new piece.now result }
{
    let mut rest = piece;
    while !rest.is_empty() {
        let count = sink.write(rest)?;
        rest = &rest[count..];
    }
    Ok(())
}

/// Writes these pieces, one after another. After a fault a prefix of them was written.
pub fn put_pieces<K: Sink>(sink: &mut K, pieces: &[&[u8]]) -> Result<(), Failed>
    ensures { PutsText K.Sink sink.old sink.new (joined (map (λ piece. piece.now) pieces.now)) result }
{
    let mut text = Text::new();
    gather_pieces(sink, &mut text, pieces)?;
    put_all(sink, text.as_bytes())
}

// Gathers these pieces, one after another.
fn gather_pieces<K: Sink>(sink: &mut K, text: &mut Text, pieces: &[&[u8]]) -> Result<(), Failed>
    ensures bytes { GathersTo K.Sink sink.old sink.new text.old text.new
        (joined (map (λ piece. piece.now) pieces.now)) result }
    ensures stays { SinkStays K.Sink sink.old sink.new result }
{
    for piece in pieces {
        gather(sink, text, piece)?;
    }
    Ok(())
}

// Writes what the text has, and empties it.
#[cold]
fn write_out<K: Sink>(sink: &mut K, text: &mut Text) -> Result<(), Failed>
    ensures bytes { GathersTo K.Sink sink.old sink.new text.old text.new [] result }
    ensures empty { OnOk result (text.new ≡ []) }
    ensures stays { SinkStays K.Sink sink.old sink.new result }
{
    put_all(sink, text.as_bytes())?;
    text.clear();
    Ok(())
}

// Makes room behind the text, where it has too little.
#[inline]
pub(crate) fn make_room<K: Sink>(sink: &mut K, text: &mut Text) -> Result<(), Failed>
    ensures bytes { GathersTo K.Sink sink.old sink.new text.old text.new [] result }
    ensures room { OnOk result (length text.new ≤ 384) }
    ensures stays { SinkStays K.Sink sink.old sink.new result }
{
    if text.len() > FULL {
        return write_out(sink, text);
    }
    Ok(())
}

// Writes a piece that the text has no room for, behind what the text has.
#[cold]
fn write_through<K: Sink>(sink: &mut K, text: &mut Text, piece: &[u8]) -> Result<(), Failed>
    ensures bytes { GathersTo K.Sink sink.old sink.new text.old text.new piece.now result }
    ensures empty { OnOk result (text.new ≡ []) }
    ensures stays { SinkStays K.Sink sink.old sink.new result }
{
    write_out(sink, text)?;
    put_all(sink, piece)
}

// Appends a piece to a text that is written later.
#[inline(always)]
pub(crate) fn gather<K: Sink>(sink: &mut K, text: &mut Text, piece: &[u8]) -> Result<(), Failed>
    ensures bytes { GathersTo K.Sink sink.old sink.new text.old text.new piece.now result }
    ensures room { OnOk result (length text.new ≤ 384) }
    ensures stays { SinkStays K.Sink sink.old sink.new result }
{
    if text.len() + piece.len() > FULL {
        return write_through(sink, text, piece);
    }
    text.push(piece);
    Ok(())
}
