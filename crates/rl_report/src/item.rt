// The line of a bus item.
ghost use Rattle.std.specs.Prelude.{◌≡◌, ◌+◌, ◌*◌, ◌≤◌, [], ◌∷◌, ◌++◌, length, flat_map};
ghost use Rattle.rl_map.specs.Layout.{port_at};
ghost use Rattle.rl_access.specs.Event.{EventFits, ItemFits};
ghost use Rattle.rl_report.specs.Item.{way_text, answer_text, word_of, transfer_text, item_line};
ghost use Rattle.rl_report.specs.Pieces.{GathersTo, PutsText, SinkStays, joined};

use crate::pieces::gather;
use crate::telling::Telling;
use crate::text::Text;
use crate::{Failed, Sink, put_all};
use itoa::Buffer;
use rl_access::{Model, TraceItem};

// Appends the way of an item.
#[inline]
fn push_way(text: &mut Text, write: bool)
    requires room { length text.old + 8 ≤ 512 }
    ensures text { text.new ≡ text.old ++ way_text write }
    ensures len { length text.new ≤ length text.old + 8 }
{
    if write {
        text.push(b" w 0x");
    } else {
        text.push(b" r 0x");
    }
}

// Appends the answer of an item.
#[inline]
fn push_answer(text: &mut Text, failed: bool)
    requires room { length text.old + 8 ≤ 512 }
    ensures { text.new ≡ text.old ++ answer_text failed }
{
    if failed {
        text.push(b" error\n");
    } else {
        text.push(b" ok\n");
    }
}

// The word that an item carried: of a read the answer's.
fn word_of(item: &TraceItem) -> u64
    ensures { result ≡ word_of item.now }
{
    if item.op.write {
        item.op.word
    } else {
        item.answer.word
    }
}

// Appends an item's way, address, word, byte enables, tag and answer.
#[inline(always)]
fn push_transfer(text: &mut Text, model: &Model, item: &TraceItem)
    requires fits { ItemFits model.now.layout item.now }
    requires room { length text.old + 128 ≤ 512 }
    ensures { text.new ≡ text.old ++
        joined (way_text item.now.op.write
        ∷ transfer_text (port_at model.now.layout item.now.port).bytes item.now
        ∷ answer_text item.now.answer.failed ∷ []) }
{
    let bytes = model.layout().port_bytes(item.port);
    let mut tag = Buffer::new();
    push_way(text, item.op.write);
    text.push_hex(item.op.address);
    text.push(b" 0x");
    text.push_padded(word_of(item), 2 * bytes);
    text.push(b" ");
    text.push_lanes(item.op.lanes, item.op.bytes);
    text.push(b" #");
    text.push(tag.format(item.tag).as_bytes());
    push_answer(text, item.answer.failed);
}

// Gathers the line of a bus item.
#[inline]
fn put_item<K: Sink>(
    sink: &mut K,
    text: &mut Text,
    model: &Model,
    item: &TraceItem,
) -> Result<(), Failed>
    requires { ItemFits model.now.layout item.now }
    ensures bytes { GathersTo K.Sink sink.old sink.new text.old text.new (item_line model.now.layout item.now) result }
    ensures stays { SinkStays K.Sink sink.old sink.new result }
{
    let layout = model.layout();
    gather(sink, text, b"  ")?;
    gather(sink, text, layout.map_name(layout.port_map(item.port)))?;
    push_transfer(text, model, item);
    Ok(())
}

/// Writes the line of a bus item: its port's map, address, word, byte enables, tag and answer.
/// The word of a read is that of the answer.
pub fn write_item<K: Sink>(sink: &mut K, model: &Model, item: &TraceItem) -> Result<(), Failed>
    requires { ItemFits model.now.layout item.now }
    ensures { PutsText K.Sink sink.old sink.new (item_line model.now.layout item.now) result }
{
    let mut text = Text::new();
    put_item(sink, &mut text, model, item)?;
    put_all(sink, text.as_bytes())
}

impl<'a> Telling<'a> {
    // Gathers the lines of an event's items.
    pub(crate) fn put_items<K: Sink>(&self, sink: &mut K, text: &mut Text) -> Result<(), Failed>
        requires { EventFits self.now.model.now self.now.event.now }
        ensures bytes { GathersTo K.Sink sink.old sink.new text.old text.new
            (flat_map (item_line self.now.model.now.layout) self.now.event.now.trace) result }
        ensures stays { SinkStays K.Sink sink.old sink.new result }
    {
        for k in 0..self.event.trace.len() {
            put_item(sink, text, self.model, &self.event.trace.item(k))?;
        }
        Ok(())
    }
}
