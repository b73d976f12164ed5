// The text of a layout.
ghost use Rattle.std.specs.Prelude.{◌≡◌, ◌+◌, ◌<◌, ◌≤◌, ◌++◌, drop, length};
ghost use Rattle.rl_policy.specs.Bits.{bit};
ghost use Rattle.rl_map.specs.Layout.{IsSound};
ghost use Rattle.rl_map.specs.LayoutText.{rights_text, lane_text, lanes_text, layout_text};
ghost use Rattle.rl_map.specs.Maps.{IsBuiltWith};
ghost use Rattle.rl_report.specs.Pieces.{PutsText};
ghost use Rattle.rl_session.specs.LayoutPieces.{heading_text, word_line, words_text, places_text};

use crate::digits::front;
use itoa::{Buffer, write_digits};
use rl_map::{Layout, Word, has_right};
use rl_model::{Chip, Rights};
use rl_policy::spell;
use rl_report::{Failed, Sink, put_all, put_pieces};

fn has_lane(word: &Word, lane: u32) -> bool
    requires { lane < 8 }
    ensures { result ≡ bit word.now.lanes lane }
{
    word.lanes >> lane & 1 == 1
}

// Spells what a lane has, before a place of a text. Answers where it begins.
fn spell_lane(text: &mut [u8; 32], end: usize, word: &Word, lane: u32) -> usize
    requires lane { lane < 8 }
    requires room { 4 ≤ end }
    requires within { end ≤ 32 }
    ensures room { end ≤ result + 4 }
    ensures within { result ≤ end }
    ensures text { drop result text.new ≡ lane_text word.now lane ++ drop end text.old }
{
    if !has_lane(word, lane) {
        text[end - 1] = b'-';
        text[end - 2] = b' ';
        return end - 2;
    }
    let start = write_digits(u64::from(word.bytes[lane as usize]), text, end) - 1;
    text[start] = b' ';
    start
}

// Spells the lanes at the end of a text, from the highest down. Answers where they begin.
fn spell_lanes(text: &mut [u8; 32], word: &Word, bytes: u32) -> usize
    requires { bytes ≤ 8 }
    ensures within { result ≤ 32 }
    ensures text { drop result text.new ≡ lanes_text bytes word.now }
{
    let mut start = 32;
    for lane in 0..bytes {
        start = spell_lane(text, start, word, lane);
    }
    start
}

// Writes a word of a port whose root map has this name.
fn put_word<K: Sink>(sink: &mut K, root: &[u8], bytes: u32, word: &Word) -> Result<(), Failed>
    requires { bytes ≤ 8 }
    ensures { PutsText K.Sink sink.old sink.new (word_line root.now bytes word.now) result }
{
    let mut digits = [0u8; 16];
    let len = spell(&mut digits, word.address);
    let address = front(&digits, len);
    let mut text = [0u8; 32];
    let start = spell_lanes(&mut text, word, bytes);
    let lanes = &text[start..];
    let pieces: [&[u8]; 7] = [b"  ", root, b" 0x", address, b":", lanes, b"\n"];
    put_pieces(sink, &pieces)
}

// Writes the words of a place's first location.
fn put_words<K: Sink>(sink: &mut K, layout: &Layout, place: u32) -> Result<(), Failed>
    requires place { place < length layout.now.places }
    requires sound { IsSound layout.now }
    ensures { PutsText K.Sink sink.old sink.new (words_text layout.now place) result }
{
    let port = layout.port_of(place);
    let root = layout.map_name(layout.port_map(port));
    let bytes = layout.port_bytes(port);
    for k in 0..layout.words(place) {
        put_word(sink, root, bytes, &layout.word(place, 0, k))?;
    }
    Ok(())
}

fn rights_text(rights: Rights) -> &'static [u8]
    ensures { result.now ≡ rights_text rights }
{
    if has_right(rights, false) {
        if has_right(rights, true) {
            b"rw"
        } else {
            b"ro"
        }
    } else {
        b"wo"
    }
}

// Writes a name behind a word.
fn put_named<K: Sink>(sink: &mut K, word: &[u8], name: &[u8]) -> Result<(), Failed>
    ensures { PutsText K.Sink sink.old sink.new (word.now ++ name.now) result }
{
    put_all(sink, word)?;
    put_all(sink, name)
}

// Writes where a place stands, before its words.
fn put_heading<K: Sink>(
    sink: &mut K,
    chip: &Chip,
    layout: &Layout,
    place: u32,
) -> Result<(), Failed>
    requires place { place < length layout.now.places }
    requires built_with { IsBuiltWith layout.now chip.now }
    ensures { PutsText K.Sink sink.old sink.new (heading_text chip.now layout.now place) result }
{
    let rights = rights_text(layout.rights(place));
    put_named(sink, b"place ", chip.path(layout.item(place)))?;
    put_named(sink, b" @", layout.map_name(layout.map_of(place)))?;
    let pieces: [&[u8]; 3] = [b" ", rights, b"\n"];
    put_pieces(sink, &pieces)
}

fn put_place<K: Sink>(sink: &mut K, chip: &Chip, layout: &Layout, place: u32) -> Result<(), Failed>
    requires place { place < length layout.now.places }
    requires sound { IsSound layout.now }
    requires built_with { IsBuiltWith layout.now chip.now }
    ensures { PutsText K.Sink sink.old sink.new
        (heading_text chip.now layout.now place ++ words_text layout.now place) result }
{
    put_heading(sink, chip, layout, place)?;
    put_words(sink, layout, place)
}

fn put_places<K: Sink>(sink: &mut K, chip: &Chip, layout: &Layout) -> Result<(), Failed>
    requires sound { IsSound layout.now }
    requires built_with { IsBuiltWith layout.now chip.now }
    ensures { PutsText K.Sink sink.old sink.new (places_text chip.now layout.now) result }
{
    for place in 0..layout.places() {
        put_place(sink, chip, layout, place)?;
    }
    Ok(())
}

/// Writes where the items of a layout are: the places in order, each with the words of its first location.
pub fn put_layout<K: Sink>(sink: &mut K, chip: &Chip, layout: &Layout) -> Result<(), Failed>
    requires { IsBuiltWith layout.now chip.now }
    ensures { PutsText K.Sink sink.old sink.new (layout_text chip.now layout.now) result }
{
    let places = layout.places();
    put_places(sink, chip, layout)?;
    let mut count = Buffer::new();
    let pieces: [&[u8]; 3] = [b"end: ", count.format(places).as_bytes(), b" places\n"];
    put_pieces(sink, &pieces)
}
