//! A weave: which accesses are open, and the next word of one of them.
ghost use Rattle.std.specs.Prelude.{◌≡◌, ◌<◌, ◌≤◌, ◌==◌, true, map as each, length, slice_get, position, Some};
ghost use Rattle.std.specs.Prelude.{Contains, All, IfOk, IfSome, IfNone, IsTrue, OnOk, OnErr};
ghost use Rattle.rl_weave.specs.Prelude.{EventFits, HasSentNothing, IsNumbered, IsReady, IsSameChip, IsStepOf, IsWeave};
ghost use Rattle.rl_weave.specs.Prelude.{IsWeaveOn, IsWovenOn, ItemFits, adding, appended, empty, end_of, event_told, number_of};
ghost use Rattle.rl_weave.specs.Prelude.{place_used, same_register, scene_of, step_told, stepped, words_left, woven_at};
ghost use Rattle.rl_weave.specs.Prelude.{woven_of};

use crate::access::{Access, WeaveFault};
use crate::granting::granted;
use crate::woven::Woven;
use rl_access::{Event, Model, Trace, TraceItem, send_word};
use rl_bus::{Adapter, Adapters, Device};
use std::alloc::{AllocError, Global};

/// How many accesses a weave holds.
const MOST: usize = 64;

/// Accesses of masters that are open at once, to registers that are all different.
#[derive(Drop)]
pub struct Weave {
    accesses: Vec<Woven>,
    still_open: Vec<u32>,
    fresh: bool,
}

impl std::marker::Model for Weave {
    ghost use Rattle.std.specs.Prelude.{◌≤◌};
    ghost use Rattle.std.specs.Vec.{vec_capacity};
    ghost use Rattle.rl_weave.specs.Weave.{WeaveData, IsWeave};

    ghost Value = { WeaveData };

    ghost view = { λ w. record { accesses = w.accesses.items; still_open = w.still_open.items; fresh = w.fresh } };

    ghost invariant = { λ w. IsWeave (record {
      accesses = w.accesses.items;
      still_open = w.still_open.items;
      fresh = w.fresh;
    }) × (64 ≤ vec_capacity w.accesses) × (64 ≤ vec_capacity w.still_open) };
}

/// What one step did: the item of the word, and the event of the access where the word was its last one.
#[derive(Drop)]
pub struct Step {
    /// The bus item of the word.
    pub item: TraceItem,
    /// The event of the access, where the word was its last one.
    pub end: Option<Event>,
}

/// What one step sent, and whether this ended its access.
#[derive(Clone, Copy, Debug)]
pub struct Sent {
    /// The item of the word.
    pub item: TraceItem,
    /// It was the last one of the access.
    pub over: bool,
}

impl Weave {
    /// A weave with no access, and with room for 64 of them. No later call takes memory.
    pub fn build(alloc: Global) -> Result<Weave, AllocError>
        ensures { IfOk result (λ w. w ≡ empty) }
    {
        Ok(Weave {
            accesses: Vec::with_capacity(alloc, MOST)?,
            still_open: Vec::with_capacity(alloc, MOST)?,
            fresh: true,
        })
    }

    /// Adds an access, which is then open, and answers its number, counted from 0.
    ///
    /// # Examples
    ///
    /// Both registers have a place with both rights under a root that a predictor watches.
    ///
    /// ```text
    /// let mut weave = Weave::build(alloc)?;
    /// weave.add(&model, Access { reg: 0, map: None, value: Some(0x1) }) == Ok(0)
    /// weave.add(&model, Access { reg: 1, map: None, value: None }) == Ok(1)
    /// weave.add(&model, Access { reg: 0, map: None, value: None }) == Err(WeaveFault::SameRegister { other: 0 })
    /// weave.open_count() == 2
    /// ```
    pub fn add(&mut self, model: &Model, access: Access) -> Result<u32, WeaveFault>
        requires fresh { self.old.fresh ≡ true }
        requires numbers { IsNumbered model.now access }
        ensures number { result ≡ number_of self.old model.now access }
        ensures added { OnOk result (self.new ≡ adding self.old model.now access) }
        ensures granted { OnOk result (IsWovenOn model.now (woven_of model.now access)) }
        ensures err { OnErr result (self.new ≡ self.old) }
    {
        if self.accesses.len() >= MOST {
            return Err(WeaveFault::TooMany);
        }
        let place = granted(model, &access)?;
        if let Some(other) = self.same_register(access.reg) {
            return Err(WeaveFault::SameRegister { other });
        }
        Ok(self.append(woven(model, access, place)))
    }

    /// Whether no step was made since `build` or the last `clear`: then nothing was sent.
    pub fn fresh(&self) -> bool
        ensures fresh { result ≡ self.now.fresh }
        ensures unsent { IsTrue result → HasSentNothing self.now }
    {
        self.fresh
    }

    /// How many accesses are open.
    pub fn open_count(&self) -> u32
        ensures count { result ≡ length self.now.still_open }
        ensures few { result ≤ 64 }
        ensures weave { IsWeave self.now }
    {
        self.still_open.len() as u32
    }

    /// The number of the `i`-th open access, counted from 0, in order of adding.
    pub fn nth_open(&self, i: u32) -> u32
        requires { i < length self.now.still_open }
        ensures number { slice_get self.now.still_open i ≡ Some result }
        ensures open { Contains self.now.still_open result }
    {
        self.still_open[i as usize]
    }

    /// Sends the next word of an open access. The event comes where the word failed or was the last one, and
    /// the access is then closed.
    pub fn step<D: Device>(
        &mut self,
        model: &mut Model,
        device: &mut D,
        adapters: &mut Adapters,
        which: u32,
    ) -> Step
        requires open { Contains self.old.still_open which }
        requires ready { IsReady model.old (each standing adapters.old.items) (D.state device.old) }
        requires weave { IsWeaveOn model.old self.old }
        ensures steps { IsStepOf (scene_of standing D.account D.state model.old adapters.old.items device.old)
            (scene_of standing D.account D.state model.new adapters.new.items device.new)
            (woven_at self.old.accesses which) result }
        ensures stepped { self.new ≡ stepped self.old which result.item }
        ensures fewer { words_left self.new < words_left self.old }
        ensures ready { IsReady model.new (each standing adapters.new.items) (D.state device.new) }
        ensures parts { IsSameChip model.old model.new }
        ensures weave { IsWeaveOn model.new self.new }
        ensures item { ItemFits model.new.layout result.item }
        ensures event { IfSome result.end (EventFits model.new) }
    {
        let mut event = Event::blank();
        let sent = self.step_into(model, device, adapters, which, &mut event);
        Step {
            item: sent.item,
            end: if sent.over { Some(event) } else { None },
        }
    }

    /// Sends the next word of an open access. Where the word failed or was the last one the access is closed, and the
    /// event is recorded in one that the caller has.
    pub fn step_into<D: Device>(
        &mut self,
        model: &mut Model,
        device: &mut D,
        adapters: &mut Adapters,
        which: u32,
        event: &mut Event,
    ) -> Sent
        requires open { Contains self.old.still_open which }
        requires ready { IsReady model.old (each standing adapters.old.items) (D.state device.old) }
        requires weave { IsWeaveOn model.old self.old }
        ensures steps { IsStepOf (scene_of standing D.account D.state model.old adapters.old.items device.old)
            (scene_of standing D.account D.state model.new adapters.new.items device.new)
            (woven_at self.old.accesses which) (step_told result event.new) }
        ensures stepped { self.new ≡ stepped self.old which result.item }
        ensures fewer { words_left self.new < words_left self.old }
        ensures ready { IsReady model.new (each standing adapters.new.items) (D.state device.new) }
        ensures parts { IsSameChip model.old model.new }
        ensures weave { IsWeaveOn model.new self.new }
        ensures item { ItemFits model.new.layout result.item }
        ensures event { IsTrue result.over → EventFits model.new event.new }
    {
        // The call tells that the model is sound.
        let _ = model.layout();
        let woven = &self.accesses[which as usize];
        let item = send_word(
            model,
            device,
            adapters,
            woven.place,
            woven.items.len(),
            woven.access.value,
        );
        Sent {
            item,
            over: self.take_in(model, which, item, event),
        }
    }

    /// Empties the weave.
    pub fn clear(&mut self)
        ensures { self.new ≡ empty }
    {
        self.accesses.clear();
        self.still_open.clear();
        self.fresh = true;
    }

    /// The number of the access that has a register.
    fn same_register(&self, reg: u32) -> Option<u32>
        ensures same { result ≡ same_register self.now reg }
        ensures apart { IfNone result (All (λ v. v.access.reg ≡ reg → ⊥) self.now.accesses) }
    {
        // A weave that is opened is known to have at most 64 accesses.
        let _ = &self.fresh;
        match place_of(&self.accesses, reg) {
            Some(number) => Some(number as u32),
            None => None,
        }
    }

    /// Appends an access, which is then open: its number.
    fn append(&mut self, woven: Woven) -> u32
        requires room { length self.old.accesses < 64 }
        requires apart { All (λ v. v.access.reg ≡ woven.access.reg → ⊥) self.old.accesses }
        requires short { length woven.items < woven.words }
        requires unsent { length woven.items ≡ 0 }
        ensures number { result ≡ length self.old.accesses }
        ensures appended { self.new ≡ appended self.old woven }
    {
        let number = self.accesses.len() as u32;
        if self.accesses.push(woven).is_err() || self.still_open.push(number).is_err() {
            unreachable!();
        }
        number
    }

    /// Keeps the item of an access or, where it is the last one, closes the access. It answers which.
    fn take_in(&mut self, model: &Model, which: u32, item: TraceItem, event: &mut Event) -> bool
        requires open { Contains self.old.still_open which }
        requires on { IsWeaveOn model.now self.old }
        requires item { ItemFits model.now.layout item }
        ensures end { event_told result event.new ≡ end_of model.now (woven_at self.old.accesses which) item }
        ensures fits { IsTrue result → EventFits model.now event.new }
        ensures stepped { self.new ≡ stepped self.old which item }
        ensures on { IsWeaveOn model.now self.new }
    {
        // The call tells that the model is sound.
        let _ = model.layout();
        self.fresh = false;
        let woven = &mut self.accesses[which as usize];
        if woven.is_over(&item) {
            self.still_open.retain(|&number| number != which);
            woven.close(model, item, event);
            true
        } else {
            woven.items.push(item);
            false
        }
    }
}

/// Where the access that has a register is.
fn place_of(accesses: &[Woven], reg: u32) -> Option<usize>
    ensures { result ≡ position (λ v. v.access.reg == reg) accesses.now }
{
    accesses.iter().position(|woven| woven.access.reg == reg)
}

/// An access that has sent nothing yet.
fn woven(model: &Model, access: Access, place: u32) -> Woven
    requires place { place < length model.now.layout.places }
    requires used { place_used model.now access ≡ place }
    ensures woven { result ≡ woven_of model.now access }
    ensures some { 0 < result.words }
    ensures unsent { length result.items ≡ 0 }
{
    Woven {
        access,
        place,
        words: model.layout().words(place),
        items: Trace::new(),
    }
}
