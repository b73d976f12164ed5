//! The event of an access that is over.
ghost use Rattle.std.specs.Prelude.{◌≡◌, ◌<◌, ◌≤◌, ◌^◌, ◌+◌, [], true, false, length, Ok};
ghost use Rattle.rl_map.specs.Layout.{place_at, words_of};
ghost use Rattle.rl_split.specs.Access.{all_bytes, joined};
ghost use Rattle.rl_model.specs.Fields.{size_of};
ghost use Rattle.rl_access.specs.Event.{EventFits, ItemFits, IsEndWithin};
ghost use Rattle.rl_access.specs.Items.{words_answered};
ghost use Rattle.rl_access.specs.Operation.{has_end, digits_of};
ghost use Rattle.rl_access.specs.Rules.{grant, named};
ghost use Rattle.rl_weave.specs.Access.{op_of, IsWovenOn};
ghost use Rattle.rl_weave.specs.Step.{good_end, event_with};

use crate::access::Access;
use crate::woven::Woven;
use rl_access::{End, Event, Model, Op, Trace, TraceItem};
use rl_split::{Answers, join_whole};

impl Woven {
    /// Ends the access with its last item, and records it in the event.
    pub(crate) fn close(&mut self, model: &Model, item: TraceItem, event: &mut Event)
        requires on { IsWovenOn model.now self.old }
        requires item { ItemFits model.now.layout item }
        requires room { length self.old.items < self.old.words }
        requires last { item.answer.failed ≡ false → length self.old.items + 1 ≡ self.old.words }
        ensures event { event.new ≡ event_with model.now self.old item }
        ensures fits { EventFits model.now event.new }
        ensures left { self.new ≡ record self.old { items = [] } }
    {
        // The call tells that the model is sound.
        let _ = model.layout();
        let word = self.items.len();
        event.op = op_used(model, &self.access, self.place);
        self.give_items(item, &mut event.trace);
        let end = if item.answer.failed {
            End::BusError { word }
        } else {
            good_end(model, &self.access, self.place, &event.trace)
        };
        model.conclude(self.access.reg, end, 0, event);
    }
}

/// The operation as its event names it: with the map of the place used.
fn op_used(model: &Model, access: &Access, place: u32) -> Op
    requires { grant model.now (op_of access.now) ≡ Ok place }
    ensures { result ≡ named model.now (op_of access.now) }
{
    let reg = access.reg;
    let map = Some(model.layout().map_of(place));
    match access.value {
        Some(value) => Op::OtherWrite { reg, map, value },
        None => Op::OtherRead { reg, map },
    }
}

/// How an access ends of which no item failed.
fn good_end(model: &Model, access: &Access, place: u32, items: &Trace) -> End
    requires place { place < length model.now.layout.places }
    requires bytes { (place_at model.now.layout place).bytes ≡ size_of model.now.chip access.now.reg }
    requires whole { length items.now ≡ length (words_of model.now.layout place 0) }
    ensures end { result ≡ good_end model.now access.now.reg place access.now.value items.now }
    ensures ends { has_end (op_of access.now) result ≡ true }
    ensures within { IsEndWithin (digits_of model.now.chip (op_of access.now)) result }
{
    match access.value {
        Some(_) => End::Done,
        None => End::Value {
            value: value_read(model, place, items),
        },
    }
}

/// The value that the items of a read brought.
fn value_read(model: &Model, place: u32, items: &Trace) -> u64
    requires place { place < length model.now.layout.places }
    requires whole { length items.now ≡ length (words_of model.now.layout place 0) }
    ensures value { result ≡ joined model.now.layout place 0
        (all_bytes (place_at model.now.layout place).bytes) (words_answered items.now) }
    ensures fits { result < 256 ^ (place_at model.now.layout place).bytes }
{
    join_whole(model.layout(), place, &answers_of(items))
}

/// The words that the items answered.
fn answers_of(items: &Trace) -> Answers
    ensures { result ≡ words_answered items.now }
{
    let mut answers = Answers::new();
    for k in 0..items.len() {
        answers.push(items.item(k).answer.word);
    }
    answers
}
