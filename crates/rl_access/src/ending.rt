//! The events of operations that have ended.
ghost use Rattle.std.specs.Prelude.{◌≡◌, ◌<◌, ◌≤◌, ◌^◌, length, [], true, All, IfSome, Some, None};
ghost use Rattle.rl_access.specs.Prelude.{EventFits, HasNumbers, IsEndWithin, IsTold, ItemFits, count_of};
ghost use Rattle.rl_access.specs.Prelude.{digits_of, event_of, has_end, memory_event, quiet, register_event};
ghost use Rattle.rl_access.specs.Prelude.{register_of};
ghost use Rattle.rl_access.specs.declared.event.End.TheVariants as end;

use crate::asking::Asked;
use crate::event::{End, Event, Op, Refused};
use crate::model::Model;

impl Model {
    /// Fills the event of an operation on a register that has ended and sent nothing.
    pub(crate) fn fill(&self, op: Op, reg: u32, end: End, differ: u64, event: &mut Event)
        requires reg { reg < length self.now.chip.regs }
        requires register { register_of self.now.chip op ≡ Some reg }
        requires numbers { HasNumbers self.now.chip (length self.now.layout.maps) op }
        requires ends { has_end op end ≡ true }
        requires within { IsEndWithin (digits_of self.now.chip op) end }
        requires differ { differ < 2 ^ count_of self.now.chip reg }
        ensures event { event.new ≡
            register_event op reg [] (record { end = end; model = self.now; differ = differ }) }
        ensures fits { EventFits self.now event.new }
    {
        event.begin(op);
        self.conclude(reg, end, differ, event);
    }

    /// Ends the event of an operation on a register, whose items it has: it says how the operation ended and what is
    /// believed of the register, with the fields that a check found to differ.
    pub fn conclude(&self, reg: u32, end: End, differ: u64, event: &mut Event)
        requires reg { reg < length self.now.chip.regs }
        requires register { register_of self.now.chip event.old.op ≡ Some reg }
        requires numbers { HasNumbers self.now.chip (length self.now.layout.maps) event.old.op }
        requires ends { has_end event.old.op end ≡ true }
        requires within { IsEndWithin (digits_of self.now.chip event.old.op) end }
        requires items { All (ItemFits self.now.layout) event.old.trace }
        requires differ { differ < 2 ^ count_of self.now.chip reg }
        ensures event { event.new ≡
            register_event event.old.op reg event.old.trace
            (record { end = end; model = self.now; differ = differ }) }
        ensures fits { EventFits self.now event.new }
    {
        event.end = end;
        let mirror = self.mirror();
        event.mirrored = mirror.mirrored(reg);
        event.desired = mirror.desired(reg);
        event.differ = differ;
    }

    /// Fills the event of an operation on a register that was refused.
    pub(crate) fn refuse(&self, op: Op, reg: u32, why: Refused, event: &mut Event)
        requires told { IsTold self.now op reg }
        requires ends { has_end op (end.Refused why) ≡ true }
        ensures event { event.new ≡ register_event op reg [] (quiet (end.Refused why) self.now) }
        ensures fits { EventFits self.now event.new }
    {
        self.fill(op, reg, End::Refused { why }, 0, event);
    }

    /// Fills the event of an operation over the bus that was refused.
    pub(crate) fn refuse_asked(&self, asked: Asked, why: Refused, event: &mut Event)
        requires numbers { HasNumbers self.now.chip (length self.now.layout.maps) asked.op }
        requires register { register_of self.now.chip asked.op ≡ asked.reg }
        requires reg_in { IfSome asked.reg (λ reg. reg < length self.now.chip.regs) }
        ensures event { event.new ≡ event_of self.now asked.op [] (quiet (end.Refused why) self.now) }
        ensures fits { EventFits self.now event.new }
    {
        event.begin(asked.op);
        let end = End::Refused { why };
        match asked.reg {
            Some(reg) => self.conclude(reg, end, 0, event),
            None => self.conclude_memory(end, 0, event),
        }
    }

    /// Fills the event of an operation on a memory that was refused.
    pub(crate) fn refuse_memory(&self, op: Op, why: Refused, event: &mut Event)
        requires register { register_of self.now.chip op ≡ None }
        requires numbers { HasNumbers self.now.chip (length self.now.layout.maps) op }
        requires ends { has_end op (end.Refused why) ≡ true }
        ensures event { event.new ≡ memory_event op [] (quiet (end.Refused why) self.now) }
        ensures fits { EventFits self.now event.new }
    {
        self.fill_memory(op, End::Refused { why }, event);
    }

    /// Ends the event of an operation on a memory, whose items it has.
    pub(crate) fn conclude_memory(&self, end: End, differ: u64, event: &mut Event)
        requires register { register_of self.now.chip event.old.op ≡ None }
        requires numbers { HasNumbers self.now.chip (length self.now.layout.maps) event.old.op }
        requires ends { has_end event.old.op end ≡ true }
        requires within { IsEndWithin (digits_of self.now.chip event.old.op) end }
        requires items { All (ItemFits self.now.layout) event.old.trace }
        requires differ { differ ≤ 1 }
        ensures event { event.new ≡
            memory_event event.old.op event.old.trace (record { end = end; model = self.now; differ = differ }) }
        ensures fits { EventFits self.now event.new }
    {
        event.end = end;
        event.mirrored = 0;
        event.desired = 0;
        event.differ = differ;
    }

    /// Fills the event of an operation on no register that has ended and sent nothing.
    pub(crate) fn fill_memory(&self, op: Op, end: End, event: &mut Event)
        requires register { register_of self.now.chip op ≡ None }
        requires numbers { HasNumbers self.now.chip (length self.now.layout.maps) op }
        requires ends { has_end op end ≡ true }
        requires within { IsEndWithin (digits_of self.now.chip op) end }
        ensures event { event.new ≡ memory_event op [] (record { end = end; model = self.now; differ = 0 }) }
        ensures fits { EventFits self.now event.new }
    {
        event.begin(op);
        self.conclude_memory(end, 0, event);
    }
}
