// Where the log of a run goes.
ghost use Rattle.std.specs.Prelude.{◌≡◌, OnOk};
ghost use Rattle.std.specs.Io.KnownBytes.{Keeps};
ghost use Rattle.rl_bus.specs.Causes.{HasCause};
ghost use Rattle.rl_access.specs.Event.{EventFits};
ghost use Rattle.rl_report.specs.Event.{event_text};
ghost use Rattle.rl_report.specs.Pieces.{Puts};

use rl_access::{Event, Model};
use rl_report::{Failed, Sink};

/// A sink that takes whole events. It may keep bytes back, and may leave out the text where nobody can read it.
pub trait Log: Sink {
    /// Nothing is kept back of what was written.
    ghost is_out: { Self → Type 0 };

    /// Writes an event: its line, and a line for each item that it sent.
    fn event(&mut self, model: &Model, event: &Event) -> Result<(), Failed>
        requires { EventFits model.now event.now }
        ensures bytes { Puts (Self.written self.old) (Self.written self.new) (event_text model.now event.now) result }
        ensures cause { HasCause (Self.faults self.old) (Self.faults self.new) result }
        ensures ends_kept { Self.ends self.new ≡ Self.ends self.old }
        ensures same_target { Self.target self.new ≡ Self.target self.old };

    /// Writes what was kept back. A fault loses nothing of it.
    fn flush(&mut self) -> Result<(), Failed>
        ensures told { Keeps (Self.written self.old) (Self.written self.new) }
        ensures out { OnOk result (is_out self.new) }
        ensures cause { HasCause (Self.faults self.old) (Self.faults self.new) result }
        ensures ends_kept { Self.ends self.new ≡ Self.ends self.old }
        ensures same_target { Self.target self.new ≡ Self.target self.old };
}
