// The text of an event.
ghost use Rattle.rl_access.specs.Event.{EventFits};
ghost use Rattle.rl_report.specs.Event.{event_line, event_text};
ghost use Rattle.rl_report.specs.Pieces.{GathersTo, PutsText, SinkStays};

use crate::pieces::gather;
use crate::telling::Telling;
use crate::text::Text;
use crate::{Failed, Sink, put_all};
use rl_access::{Event, Model};

impl<'a> Telling<'a> {
    // Gathers the line of an event.
    fn put_line<K: Sink>(&self, sink: &mut K, text: &mut Text) -> Result<(), Failed>
        requires { EventFits self.now.model.now self.now.event.now }
        ensures bytes { GathersTo K.Sink sink.old sink.new text.old text.new
            (event_line self.now.model.now self.now.event.now) result }
        ensures stays { SinkStays K.Sink sink.old sink.new result }
    {
        self.put_op(sink, text)?;
        self.put_result(sink, text)?;
        gather(sink, text, b"\n")
    }
}

/// Writes the line of an event: the operation in canonical spelling, and what came of it.
pub fn write_event_line<K: Sink>(sink: &mut K, model: &Model, event: &Event) -> Result<(), Failed>
    requires { EventFits model.now event.now }
    ensures { PutsText K.Sink sink.old sink.new (event_line model.now event.now) result }
{
    let mut text = Text::new();
    Telling { model, event }.put_line(sink, &mut text)?;
    put_all(sink, text.as_bytes())
}

/// Writes an event: its line, and a line for each item that it sent. It takes no memory.
///
/// # Examples
///
/// The event of `write ctrl 0x3` over a bus of one byte, on a device as described:
///
/// ```text
/// write ctrl 0x3 @bus: ok mirror 0x03
///   bus w 0x0 0x03 1 #0 ok
/// ```
pub fn write_event<K: Sink>(sink: &mut K, model: &Model, event: &Event) -> Result<(), Failed>
    requires { EventFits model.now event.now }
    ensures { PutsText K.Sink sink.old sink.new (event_text model.now event.now) result }
{
    let mut text = Text::new();
    let telling = Telling { model, event };
    telling.put_line(sink, &mut text)?;
    telling.put_items(sink, &mut text)?;
    put_all(sink, text.as_bytes())
}
