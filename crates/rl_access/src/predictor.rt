//! The predictor that watches the bus.
ghost use Rattle.std.specs.Prelude.{◌≡◌, ◌<◌, ◌≤◌, ◌&&◌, length, slice_set, IfOk, IfSome};
ghost use Rattle.rl_access.specs.Prelude.{IsBuiltWith, IsLocation, IsNothingGathered, place_at};
ghost use Rattle.rl_map.specs.Layout.{words_of};
ghost use Rattle.rl_mirror.specs.Mirror.{IsMirrorOf};
ghost use Rattle.rl_mirror.specs.Reachable.{IsReachable};
ghost use Rattle.rl_access.specs.Gathering.{IsPredictorOf, IsRegisterPlace, no_words, gathered_at, is_next};
ghost use Rattle.rl_access.specs.Gathering.{same_direction, emptied, appended, gathered_with};
ghost use Rattle.rl_access.specs.Observed.{as_register, watched_place, is_whole, value_gathered, reg_in, predicted};
ghost use Rattle.rl_access.specs.Observed.{taken_in, observed, observed_at, word_told, IsWordOf};

use rl_bus::{Answer, BusOp};
use rl_map::{Layout, has_right};
use rl_mirror::Mirror;
use rl_model::{Chip, Item};
use rl_split::{Answers, join_whole};
use std::alloc::{AllocError, Global};

/// The words of a place that were seen so far, all of one direction.
#[derive(Drop)]
pub(crate) struct Gathered {
    pub(crate) write: bool,
    pub(crate) words: Answers,
}

/// What a predictor has gathered of each place: `uvm_reg_predictor` (IEEE 1800.2-2017, 19.3), which predicts from the
/// items that it sees on a bus.
///
/// This project's own is how it gathers: it takes the words of a register in order, and predicts once, at the last one.
#[derive(Drop)]
pub struct Predictor {
    lists: Vec<Gathered>,
}

impl std::marker::Model for Predictor {
    ghost use Rattle.std.specs.Prelude.{List};
    ghost use Rattle.rl_access.specs.declared.predictor.Gathered.{Gathered};

    ghost Value = { List Gathered };

    ghost view = { λ p. p.lists.items };
}

impl Gathered {
    fn new() -> Gathered
        ensures { result ≡ no_words }
    {
        Gathered {
            write: false,
            words: Answers::new(),
        }
    }

    // Whether an operation is at the address of the next word of the place.
    fn awaits(&self, layout: &Layout, place: u32, op: &BusOp) -> bool
        requires location { IsLocation layout.now place 0 }
        requires shorter { length self.now.words < length (words_of layout.now place 0) }
        ensures { result ≡ is_next layout.now place op.now self.now }
    {
        layout.word(place, 0, self.words.len()).address == op.address
    }

    // Whether it also has the direction of the words so far.
    fn goes_on(&self, layout: &Layout, place: u32, op: &BusOp) -> bool
        requires location { IsLocation layout.now place 0 }
        requires shorter { length self.now.words < length (words_of layout.now place 0) }
        ensures { result ≡ (same_direction self.now.write op.now.write && is_next layout.now place op.now self.now) }
    {
        self.write == op.write && self.awaits(layout, place, op)
    }

    // Empties the list before a word of the other direction, or at another address.
    fn make_way(&mut self, layout: &Layout, place: u32, op: &BusOp)
        requires location { IsLocation layout.now place 0 }
        requires shorter { length self.old.words < length (words_of layout.now place 0) }
        ensures emptied { self.new ≡ emptied layout.now place op.now self.old }
        ensures shorter { length self.new.words < length (words_of layout.now place 0) }
    {
        if !self.goes_on(layout, place, op) {
            *self = Gathered::new();
        }
    }

    // Appends the next word, and drops any other one.
    fn append(&mut self, layout: &Layout, place: u32, op: &BusOp, word: u64)
        requires location { IsLocation layout.now place 0 }
        requires shorter { length self.old.words < length (words_of layout.now place 0) }
        requires few { length (words_of layout.now place 0) ≤ 8 }
        ensures appended { self.new ≡ appended layout.now place op.now word self.old }
        ensures most { length self.new.words ≤ length (words_of layout.now place 0) }
    {
        if self.awaits(layout, place, op) {
            self.write = op.write;
            self.words.push(word);
        }
    }

    // Takes the write or the read that the words make as done.
    fn predict(&self, chip: &Chip, layout: &Layout, mirror: &mut Mirror, place: u32)
        requires built_with { IsBuiltWith layout.now chip.now }
        requires mirror { IsMirrorOf chip.now mirror.old }
        requires place { IsRegisterPlace layout.now place }
        requires whole { length self.now.words ≡ length (words_of layout.now place 0) }
        ensures predicted { mirror.new ≡ predicted chip.now layout.now place self.now mirror.old }
        ensures mirror { IsMirrorOf chip.now mirror.new }
        ensures reach { IsReachable chip.now mirror.old → IsReachable chip.now mirror.new }
    {
        let reg = register_at(chip, layout, place);
        let value = self.value(layout, place);
        if self.write {
            mirror.predict_write(chip, reg, value, u64::MAX);
        } else {
            mirror.predict_read(chip, reg, value, u64::MAX);
        }
    }

    // The value that the words bring.
    fn value(&self, layout: &Layout, place: u32) -> u64
        requires place { IsRegisterPlace layout.now place }
        requires whole { length self.now.words ≡ length (words_of layout.now place 0) }
        ensures { result ≡ value_gathered layout.now place self.now }
    {
        // The call tells that the layout is sound.
        let _ = layout.places();
        join_whole(layout, place, &self.words)
    }
}

// The register of a place.
fn register_at(chip: &Chip, layout: &Layout, place: u32) -> u32
    requires built_with { IsBuiltWith layout.now chip.now }
    requires place { IsRegisterPlace layout.now place }
    ensures reg { result ≡ reg_in (place_at layout.now place).item }
    ensures in_range { result < length chip.now.regs }
{
    // The call tells that the chip is sound.
    let _ = chip.regs();
    match layout.item(place) {
        Item::Reg(reg) => reg,
        Item::Mem(_) => 0,
    }
}

// The place, where a register stands there.
fn as_register(layout: &Layout, place: u32) -> Option<u32>
    requires { place < length layout.now.places }
    ensures register { result ≡ as_register (place_at layout.now place).item place }
    ensures there { IfSome result (IsRegisterPlace layout.now) }
{
    match layout.item(place) {
        Item::Reg(_) => Some(place),
        Item::Mem(_) => None,
    }
}

// The place of an item.
fn watched_place(layout: &Layout, port: u32, op: &BusOp) -> Option<u32>
    requires { port < length layout.now.ports }
    ensures watched { result ≡ watched_place layout.now port op.now }
    ensures there { IfSome result (IsRegisterPlace layout.now) }
{
    if !layout.explicit(port) {
        return None;
    }
    match layout.find(port, op.address, op.write) {
        None => None,
        Some(here) => as_register(layout, here.place),
    }
}

// What was written, or what was answered.
fn word_told(op: &BusOp, answer: &Answer) -> u64
    ensures { result ≡ word_told op.now answer.now }
{
    if op.write { op.word } else { answer.word }
}

/// The place that an item of one of its words is of, where a predictor watches. A place with the right of the
/// item's direction is the one that a search by the address finds, so that none is needed.
pub(crate) fn watched_word(layout: &Layout, place: u32, op: &BusOp) -> Option<u32>
    requires place { IsRegisterPlace layout.now place }
    requires word { IsWordOf layout.now place op.now }
    ensures watched { result ≡ watched_place layout.now (place_at layout.now place).port op.now }
    ensures there { IfSome result (IsRegisterPlace layout.now) }
{
    // The call tells that the layout is sound.
    let _ = layout.places();
    let port = layout.port_of(place);
    if layout.explicit(port) && has_right(layout.rights(place), op.write) {
        return Some(place);
    }
    watched_place(layout, port, op)
}

impl Predictor {
    /// A predictor that has gathered nothing, with room for the words of each place.
    pub fn build(alloc: Global, layout: &Layout) -> Result<Predictor, AllocError>
        ensures built { IfOk result (IsPredictorOf layout.now) }
        ensures nothing_gathered { IfOk result IsNothingGathered }
    {
        let mut lists = Vec::new(alloc);
        for _place in 0..layout.places() {
            lists.push(Gathered::new())?;
        }
        Ok(Predictor { lists })
    }

    /// Forgets what was gathered of a place.
    pub(crate) fn forget(&mut self, place: u32)
        requires { place < length self.old }
        ensures { self.new ≡ slice_set self.old place no_words }
    {
        self.lists[place as usize] = Gathered::new();
    }

    /// Takes an item that was seen on a port.
    ///
    /// The words of a register under an explicit root are gathered in order. The last one predicts once, a
    /// write or a read of the whole register. A failed item, a word of the other direction or one at another
    /// address empties what was gathered of its place.
    pub fn observe(
        &mut self,
        chip: &Chip,
        layout: &Layout,
        mirror: &mut Mirror,
        port: u32,
        op: &BusOp,
        answer: &Answer,
    )
        requires port { port < length layout.now.ports }
        requires built_with { IsBuiltWith layout.now chip.now }
        requires predictor { IsPredictorOf layout.now self.old }
        requires mirror { IsMirrorOf chip.now mirror.old }
        ensures gathered { self.new ≡
            (observed chip.now layout.now port op.now answer.now self.old mirror.old).gathered }
        ensures predicted { mirror.new ≡
            (observed chip.now layout.now port op.now answer.now self.old mirror.old).mirror }
        ensures predictor { IsPredictorOf layout.now self.new }
        ensures mirror { IsMirrorOf chip.now mirror.new }
        ensures reach { IsReachable chip.now mirror.old → IsReachable chip.now mirror.new }
    {
        self.see(
            chip,
            layout,
            mirror,
            watched_place(layout, port, op),
            op,
            answer,
        );
    }

    /// Takes an item that was seen, where its place is known. No place means that no predictor watches it.
    pub(crate) fn see(
        &mut self,
        chip: &Chip,
        layout: &Layout,
        mirror: &mut Mirror,
        watched: Option<u32>,
        op: &BusOp,
        answer: &Answer,
    )
        requires built_with { IsBuiltWith layout.now chip.now }
        requires predictor { IsPredictorOf layout.now self.old }
        requires mirror { IsMirrorOf chip.now mirror.old }
        requires watched { IfSome watched (IsRegisterPlace layout.now) }
        ensures gathered { self.new ≡
            (observed_at chip.now layout.now watched op.now answer.now self.old mirror.old).gathered }
        ensures predicted { mirror.new ≡
            (observed_at chip.now layout.now watched op.now answer.now self.old mirror.old).mirror }
        ensures predictor { IsPredictorOf layout.now self.new }
        ensures mirror { IsMirrorOf chip.now mirror.new }
        ensures reach { IsReachable chip.now mirror.old → IsReachable chip.now mirror.new }
    {
        let Some(place) = watched else {
            return;
        };
        if answer.failed {
            self.forget_at(layout, place);
        } else {
            self.take_in(chip, layout, mirror, place, op, word_told(op, answer));
        }
    }

    // Forgets what was gathered of a place of the layout.
    fn forget_at(&mut self, layout: &Layout, place: u32)
        requires predictor { IsPredictorOf layout.now self.old }
        requires place { IsRegisterPlace layout.now place }
        ensures forgotten { self.new ≡ slice_set self.old place no_words }
        ensures predictor { IsPredictorOf layout.now self.new }
    {
        // The call tells that the place has a word, so that an empty list is shorter.
        let _ = layout.words(place);
        self.forget(place);
    }

    // Gathers a word, and predicts where it was the last one of its place.
    fn take_in(
        &mut self,
        chip: &Chip,
        layout: &Layout,
        mirror: &mut Mirror,
        place: u32,
        op: &BusOp,
        word: u64,
    )
        requires built_with { IsBuiltWith layout.now chip.now }
        requires predictor { IsPredictorOf layout.now self.old }
        requires mirror { IsMirrorOf chip.now mirror.old }
        requires place { IsRegisterPlace layout.now place }
        ensures gathered { self.new ≡
            (taken_in chip.now layout.now place
            (gathered_with layout.now place op.now word (gathered_at self.old place)) self.old mirror.old).gathered }
        ensures predicted { mirror.new ≡
            (taken_in chip.now layout.now place
            (gathered_with layout.now place op.now word (gathered_at self.old place)) self.old mirror.old).mirror }
        ensures predictor { IsPredictorOf layout.now self.new }
        ensures mirror { IsMirrorOf chip.now mirror.new }
        ensures reach { IsReachable chip.now mirror.old → IsReachable chip.now mirror.new }
    {
        if self.gather(layout, place, op, word) {
            self.lists[place as usize].predict(chip, layout, mirror, place);
            self.forget(place);
        }
    }

    // Gathers a word, and tells whether the list has all words of its place.
    fn gather(&mut self, layout: &Layout, place: u32, op: &BusOp, word: u64) -> bool
        requires predictor { IsPredictorOf layout.now self.old }
        requires place { IsRegisterPlace layout.now place }
        ensures gathered { self.new ≡
            slice_set self.old place (gathered_with layout.now place op.now word (gathered_at self.old place)) }
        ensures whole { result ≡
            is_whole layout.now place (gathered_with layout.now place op.now word (gathered_at self.old place)) }
        ensures most { length (gathered_with layout.now place op.now word (gathered_at self.old place)).words ≤
            length (words_of layout.now place 0) }
    {
        // The call tells that the layout is sound.
        let _ = layout.places();
        let all = layout.words(place);
        let list = &mut self.lists[place as usize];
        list.make_way(layout, place, op);
        list.append(layout, place, op, word);
        list.words.len() == all
    }
}
