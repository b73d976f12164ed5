// The line of an event, as far as the signal of operations has room for it.
ghost use Rattle.std.specs.Prelude.{◌≡◌, ◌≤◌, length, take, []};
ghost use Rattle.rl_access.specs.Event.{EventFits};
ghost use Rattle.rl_vcd.specs.Label.{label_of};
ghost use Rattle.rl_report.specs.Event.{event_line};
ghost use Rattle.rl_report.specs.Lines.{first_line};

use memchr::memchr;
use rl_access::{Event, Model as Registers};
use rl_report::{Failed, Sink, Text, write_event_line};
use std::marker::Model;

const ROOM: usize = 127;

/// A sink that takes no more than 127 bytes.
#[derive(Drop)]
pub struct Label {
    text: Text,
}

impl Model for Label {
    ghost use Rattle.std.specs.Prelude.{ℕ, List, length, ◌≤◌};

    ghost Value = { List ℕ };

    ghost view = { λ l. l.text };

    ghost invariant = { λ l. length l.text ≤ 127 };
}

// The first line of a text.
fn first_line(text: &[u8]) -> &[u8]
    ensures { result.now ≡ first_line text.now }
{
    match memchr(b'\n', text) {
        Some(len) => &text[..len],
        None => text,
    }
}

impl Label {
    /// With no text.
    pub(crate) fn new() -> Label
        ensures { result ≡ [] }
    {
        Label { text: Text::new() }
    }

    // It is 127 at most.
    fn len(&self) -> usize
        ensures len { result ≡ length self.now }
        ensures within { result ≤ 127 }
    {
        self.text.len()
    }

    /// Takes the line of an event, as far as there is room for it.
    pub(crate) fn take_event(&mut self, model: &Registers, event: &Event)
        requires { EventFits model.now event.now }
        ensures { self.new ≡ take 127 (event_line model.now event.now) }
    {
        self.text.clear();
        let _ = write_event_line(self, model, event);
        let _ = self.len();
    }

    /// The text without its line end.
    pub(crate) fn line(&self) -> &[u8]
        ensures { result.now ≡ first_line self.now }
    {
        first_line(self.text.as_bytes())
    }
}

impl Sink for Label {
    ghost use Rattle.std.specs.Prelude.{Some, ◌-◌, ◌^◌};
    ghost use Rattle.rl_vcd.specs.Label.{faults_of};

    ghost written = { λ l. Some l };

    ghost faults = { λ l. faults_of l };

    ghost ends = { λ _. 2 ^ 64 - 1 };

    // It fails where it is full.
    fn write(&mut self, piece: &[u8]) -> Result<usize, Failed> {
        let count = piece.len().min(ROOM - self.len());
        if count == 0 {
            return Err(Failed);
        }
        self.text.push(&piece[..count]);
        Ok(count)
    }

    fn finish(&mut self) -> Result<(), Failed> {
        Ok(())
    }
}
