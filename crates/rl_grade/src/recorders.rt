// Who looks at the events of a run.
ghost use Rattle.std.specs.Prelude.{◌≡◌, drop};
ghost use Rattle.rl_grade.specs.Find.{front};

use crate::seen::Seen;
use rl_access::{Event, Model, Op, Recorder};
use rl_bus::Failed;

/// Goes up to the first event that shows more than the one of its number without the flaw.
#[derive(Drop)]
pub(crate) struct Watch<'a> {
    /// What the events that are still to come show without the flaw.
    pub(crate) base: &'a [Seen],
    /// The operation of that event, and what it shows more.
    pub(crate) found: Option<(Op, Seen)>,
}

/// Keeps what each event shows, and counts the items.
#[derive(Drop)]
pub(crate) struct Keep {
    pub(crate) seen: Vec<Seen>,
    pub(crate) items: u64,
    /// Memory ran out.
    pub(crate) is_full: bool,
}

/// The first of these, or nothing where there is none.
pub(crate) fn front(base: &[Seen]) -> Seen
    ensures { result ≡ front base.now }
{
    match base.first() {
        Some(seen) => *seen,
        None => Seen::NOTHING,
    }
}

/// Those after the first.
pub(crate) fn behind(base: &[Seen]) -> &[Seen]
    ensures { result.now ≡ drop 1 base.now }
{
    if base.is_empty() { base } else { &base[1..] }
}

impl Recorder for Watch<'_> {
    ghost use Rattle.std.specs.Prelude.{◌^◌, ◌-◌, if◌then◌else◌, is_some};
    ghost use Rattle.rl_grade.specs.Record.{Passes, Finds};

    // At its end once it has found something.
    ghost faults = { λ w. if is_some w.found then 2 ^ 64 - 1 else 0 };

    ghost takes = { λ old model event new. Passes old.base.now old.found event new.base.now new.found };

    ghost breaks = { λ old model event new. Finds old.base.now event new.found };

    fn step(&mut self, _model: &Model, event: &Event) -> Result<(), Failed> {
        let new = Seen::of(event).beside(front(self.base));
        if new.shows() {
            self.found = Some((event.op, new));
            return Err(Failed);
        }
        self.base = behind(self.base);
        Ok(())
    }
}

impl Recorder for Keep {
    ghost use Rattle.std.specs.Prelude.{◌^◌, ◌-◌, if◌then◌else◌, true};
    ghost use Rattle.rl_grade.specs.Record.{Keeps};

    // At its end once memory has run out.
    ghost faults = { λ k. if k.is_full then 2 ^ 64 - 1 else 0 };

    ghost takes = { λ old model event new. Keeps old.seen.items old.items event new.seen.items new.items };

    ghost breaks = { λ old model event new. new.is_full ≡ true };

    fn step(&mut self, _model: &Model, event: &Event) -> Result<(), Failed> {
        if self.seen.push(Seen::of(event)).is_err() {
            self.is_full = true;
            return Err(Failed);
        }
        self.items = self.items.saturating_add(u64::from(event.trace.len()));
        Ok(())
    }
}
