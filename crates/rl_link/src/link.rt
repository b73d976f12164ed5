// The device.
ghost use Rattle.std.specs.Prelude.{◌≡◌, ◌+◌, ◌-◌, ◌^◌, ◌<◌, ◌≤◌, ◌↔◌, min, [], None, Some, Err, IsSome, codes, true, false};
ghost use Rattle.std.specs.Prelude.{IsNone, is_some, IsOk, IfOk, OnOk, IfErr, OnErr, IfSome, if◌then◌else◌, option_map};
ghost use Rattle.rl_bus.specs.Account as ask;
ghost use Rattle.rl_link.specs.Account.{account_of};
ghost use Rattle.rl_link.specs.Answers.{failure, answer_to, done_by, is_unknown};
ghost use Rattle.rl_link.specs.Causes.{IsCauseOfBreak};
ghost use Rattle.rl_link.specs.Coming.{HoldsAnswer};
ghost use Rattle.rl_link.specs.Message.{break_text, unknown_text};
ghost use Rattle.rl_link.specs.Peer.{CountsLines, TakesAnswer, TakesDone, BrokeBehind, KeepsOn, OnlyTalks};
ghost use Rattle.rl_link.specs.Peer.{Tells, TellsBreak, TellsDone, broken_for, broken_off, counted};
ghost use Rattle.rl_link.specs.Prelude.{Appends, Asks, IsStep, IsPortOf, IsCellOf, IsFieldOf, IsWidth, poked};
ghost use Rattle.rl_link.specs.Prelude.{reset_by, hw_set, carried_by, tag_of, IsWellFormed, IsReplyTo, answered_by};
ghost use Rattle.rl_link.specs.Prelude.{AppendsFront, Puts};
ghost use Rattle.rl_link.specs.Requests.{name_at, transfer_line, reset_line, hw_line};

use crate::answer::{Cause, Said, answer_to, done_by, is_unknown};
use crate::message::{put_break, put_undone, put_unknown};
use crate::names::Names;
use crate::request::{put_hw, put_reset, put_transfer};
use crate::talk::Talk;
use rl_bus::{Answer, BusOp, Cell, Device, Response, Transfer, carried, response_to};
use rl_report::{Sink, Source};
use std::alloc::{AllocError, Global};

/// What a link goes over, and what it reports.
#[derive(Drop)]
pub struct Streams<S, K, N, M> {
    /// Where answers come from.
    pub source: S,
    /// Where requests go.
    pub sink: K,
    /// Lines for the log, after `# `.
    pub notes: N,
    /// What is reported to the user.
    pub messages: M,
}

/// How a link broke.
#[derive(Clone, Copy, Debug, PartialEq, Eq)]
pub struct Break {
    /// Why it broke.
    pub cause: Cause,
    /// The number of the line that the peer wrote, or owed, counted from 1 through all its lines.
    pub line: u64,
}

/// A device behind two streams, which doesn't report its state.
///
/// A transfer goes out as one line, and the peer's next line that is an answer answers it. A reset and a change
/// by the hardware go the same way. There is no backdoor: a deposit breaks the link, and a peek, which can't fail,
/// gives 0, so a caller's model has none either. Once something went wrong, the link is broken: nothing is sent
/// or read any more, and each transfer fails.
///
/// Two more sinks get what a log can't say of its items. The notes are lines for the log itself, after `# `: how the
/// link broke, and what the peer didn't do. The messages are for the user: what the peer chatters, unknown values, and
/// how the link broke. Where one of them fails, the link goes on.
#[derive(Drop)]
pub struct Link<S: Source, K: Sink, N: Sink, M: Sink> {
    /// The two streams to the peer.
    pub talk: Talk<S, K>,
    /// The names of ports, reset kinds and fields.
    pub names: Names,
    /// Where the lines for the log go.
    pub notes: N,
    /// Where the lines for the user go.
    pub messages: M,
    /// The last request.
    pub request: Vec<u8>,
    /// How often a transfer failed or the link broke. It stays at the end of `u64`.
    pub errors: u64,
    /// How many resets and changes by the hardware the peer didn't do. It stays at the end of `u64`.
    pub undone: u64,
    /// How it broke at first, where it did.
    pub broken: Option<Break>,
}

// Says what an answer has of unknown bits, where it has any.
#[tactic(auto, using(crate::proofs::SentLemmas::tells_put))]
fn tell_unknown<S: Source, K: Sink, M: Sink>(
    said: Said,
    talk: &Talk<S, K>,
    request: &[u8],
    messages: &mut M,
)
    ensures quiet { is_unknown said ≡ false → messages.new ≡ messages.old }
    ensures told { is_unknown said ≡ true → Tells M.Sink messages.old messages.new
        (unknown_text (min (talk.now.lines + 1) (2 ^ 64 - 1)) talk.now.held request.now) }
{
    if is_unknown(said) {
        let line = talk.lines.saturating_add(1);
        // Where it can't be told, the item fails all the same.
        let _ = put_unknown(messages, line, talk.held.bytes(), request);
    }
}

// Sends what stands in the buffer, and takes the answer to a transfer.
#[tactic(auto, using(crate::proofs::ComingLemmas::answers_here, crate::proofs::SentLemmas::by_whole))]
fn transfer_over<S: Source, K: Sink, M: Sink>(
    talk: &mut Talk<S, K>,
    request: &[u8],
    op: &BusOp,
    messages: &mut M,
) -> Result<Answer, Cause>
    requires { IsWidth op.now.bytes }
    ensures sent { Puts (K.written talk.old.sink) (K.written talk.new.sink) request.now result }
    ensures answer { IfOk result (TakesAnswer S.left talk.old talk.new op.now) }
    ensures small { IfOk result (λ answer. answer.word < 256 ^ op.now.bytes) }
    ensures out_first { result ≡ Err Cause.Unsent → talk.new.source ≡ talk.old.source }
    ensures lines { CountsLines S.left talk.old talk.new }
    ensures fresh { OnOk result (HoldsAnswer talk.old.held → ⊥) }
    ensures cause { IfErr result
        (IsCauseOfBreak S.Source K.Sink (answer_to op.now.write op.now.bytes) talk.old talk.new) }
{
    let said = talk.ask(request, messages)?;
    let answer = answer_to(op.write, op.bytes, said)?;
    tell_unknown(said, talk, request, messages);
    talk.take_line();
    Ok(answer)
}

// Sends what stands in the buffer, and takes the line that says whether it was done.
#[tactic(auto, using(crate::proofs::ComingLemmas::done_here, crate::proofs::SentLemmas::by_whole))]
fn done_over<S: Source, K: Sink, N: Sink, M: Sink>(
    talk: &mut Talk<S, K>,
    request: &[u8],
    notes: &mut N,
    messages: &mut M,
) -> Result<bool, Cause>
    ensures sent { Puts (K.written talk.old.sink) (K.written talk.new.sink) request.now result }
    ensures done { IfOk result (TakesDone S.left talk.old talk.new) }
    ensures out_first { result ≡ Err Cause.Unsent → talk.new.source ≡ talk.old.source }
    ensures lines { CountsLines S.left talk.old talk.new }
    ensures fresh { OnOk result (HoldsAnswer talk.old.held → ⊥) }
    ensures cause { IfErr result (IsCauseOfBreak S.Source K.Sink done_by talk.old talk.new) }
{
    let said = talk.ask(request, messages)?;
    let done = done_by(said)?;
    if !done {
        // Where the log can't be told, the count tells.
        let _ = put_undone(notes, talk.held.bytes(), request);
    }
    talk.take_line();
    Ok(done)
}

const FAILED: Answer = Answer {
    word: 0,
    failed: true,
};

impl<S: Source + Drop, K: Sink + Drop, N: Sink + Drop, M: Sink + Drop> Link<S, K, N, M> {
    /// A link over these streams, to a peer that knows the ports, kinds and fields by these names.
    pub fn build(
        alloc: Global,
        names: Names,
        streams: Streams<S, K, N, M>,
    ) -> Result<Link<S, K, N, M>, AllocError>
        ensures names { IfOk result (λ link. link.names ≡ names) }
        ensures streams { IfOk result (λ link. (link.talk.source ≡ streams.source) × (link.talk.sink ≡ streams.sink)) }
        ensures told { IfOk result (λ link. (link.notes ≡ streams.notes) × (link.messages ≡ streams.messages)) }
        ensures empty { IfOk result (λ link. link.talk.held ≡ []) }
        ensures whole { IfOk result (λ link. (link.broken ≡ None) × (link.errors ≡ 0) × (link.undone ≡ 0)) }
    {
        let Streams {
            source,
            sink,
            notes,
            messages,
        } = streams;
        Ok(Link {
            talk: Talk::build(alloc, source, sink)?,
            names,
            notes,
            messages,
            request: Vec::new(alloc),
            errors: 0,
            undone: 0,
            broken: None,
        })
    }
}

impl<S: Source, K: Sink, N: Sink, M: Sink> Link<S, K, N, M> {
    /// Looks whether an answer is held that nothing was asked for, which breaks the link: once all was sent.
    pub fn close(&mut self)
        ensures broken { IsNone self.old.broken → IfSome self.new.broken (λ broken. broken.cause ≡ Cause.Unasked) }
        ensures exact { IsNone self.old.broken → (IsSome self.new.broken ↔ HoldsAnswer self.old.talk.held) }
        ensures kept { IsSome self.old.broken → self.new ≡ self.old }
        ensures streams { (self.new.talk.source ≡ self.old.talk.source) × (self.new.talk.sink ≡ self.old.talk.sink) }
        ensures names { self.new.names ≡ self.old.names }
        ensures errors { self.new.errors ≡ self.old.errors }
        ensures undone { self.new.undone ≡ self.old.undone }
    {
        if self.broken.is_none()
            && let Err(cause) = self.talk.skim(&mut self.messages)
        {
            self.break_for(cause);
        }
    }

    // Counts a failure.
    fn count(&mut self)
        ensures counted { self.new ≡ record self.old { errors = min (self.old.errors + 1) (2 ^ 64 - 1) } }
        ensures later { self.old.errors ≤ self.new.errors }
    {
        self.errors = self.errors.saturating_add(1);
    }

    // Says how it broke, in the log and to the user. Where it can't be told, the exit status tells.
    #[tactic(auto, using(crate::proofs::SentLemmas::tells_put))]
    fn tell(&mut self, broken: Break)
        ensures only { self.new ≡ record self.old { notes = self.new.notes; messages = self.new.messages } }
        ensures notes { Tells N.Sink self.old.notes self.new.notes
            (break_text (codes "# ") broken self.old.talk.held self.old.request.items) }
        ensures messages { Tells M.Sink self.old.messages self.new.messages
            (break_text [] broken self.old.talk.held self.old.request.items) }
    {
        let held = self.talk.held.bytes();
        let _ = put_break(&mut self.notes, b"# ", broken, held, &self.request);
        let _ = put_break(&mut self.messages, &[], broken, held, &self.request);
    }

    // Breaks it. The first time is remembered, and told.
    fn break_for(&mut self, cause: Cause)
        ensures broken { self.new ≡ broken_for self.old cause self.new }
        ensures told { TellsBreak N.Sink self.old self.new }
        ensures messages { IsNone self.old.broken → IfSome self.new.broken (λ broken. Tells M.Sink
            self.old.messages self.new.messages
            (break_text [] broken self.new.talk.held self.new.request.items)) }
    {
        if self.broken.is_none() {
            let line = self.talk.lines.saturating_add(1);
            let broken = Break { cause, line };
            self.broken = Some(broken);
            self.tell(broken);
        }
    }

    // Counts a failure of the link itself, which breaks it.
    fn break_off(&mut self, cause: Cause)
        ensures later { self.old.errors ≤ self.new.errors }
        ensures broken { self.new ≡ broken_off self.old cause self.new }
        ensures line { IsNone self.old.broken → BrokeBehind self.new.talk.lines self.new.broken }
        ensures told { TellsBreak N.Sink self.old self.new }
    {
        self.count();
        self.break_for(cause);
    }

    // Whether it isn't broken.
    fn going(&self) -> Result<(), Cause>
        ensures { IsOk result ↔ IsNone self.now.broken }
    {
        match self.broken {
            Some(broken) => Err(broken.cause),
            None => Ok(()),
        }
    }

    #[tactic(auto, using(crate::proofs::ComingLemmas::takes_none))]
    fn try_transfer(&mut self, port: u32, op: &BusOp, tag: u64) -> Result<Answer, Cause>
        requires { IsWidth op.now.bytes }
        ensures going { OnOk result (IsNone self.old.broken) }
        ensures sent { Puts (K.written self.old.talk.sink) (K.written self.new.talk.sink)
            (transfer_line (name_at self.old.names.ports port) op.now tag) result }
        ensures answer { IfOk result (TakesAnswer S.left self.old.talk self.new.talk op.now) }
        ensures small { IfOk result (λ answer. answer.word < 256 ^ op.now.bytes) }
        ensures out_first { result ≡ Err Cause.Unsent → self.new.talk.source ≡ self.old.talk.source }
        ensures only { OnlyTalks S.left self.old self.new }
        ensures notes { self.new.notes ≡ self.old.notes }
        ensures fresh { OnOk result (HoldsAnswer self.old.talk.held → ⊥) }
        ensures cause { IsNone self.old.broken → IfErr result
            (IsCauseOfBreak S.Source K.Sink (answer_to op.now.write op.now.bytes) self.old.talk self.new.talk) }
    {
        self.going()?;
        put_transfer(&mut self.request, self.names.port(port), op, tag)?;
        transfer_over(&mut self.talk, &self.request, op, &mut self.messages)
    }

    #[tactic(auto, using(crate::proofs::ComingLemmas::takes_none))]
    fn try_reset(&mut self, kind: u32) -> Result<bool, Cause>
        ensures going { OnOk result (IsNone self.old.broken) }
        ensures sent { Puts (K.written self.old.talk.sink) (K.written self.new.talk.sink)
            (reset_line (name_at self.old.names.kinds kind)) result }
        ensures done { IfOk result (TakesDone S.left self.old.talk self.new.talk) }
        ensures only { OnlyTalks S.left self.old self.new }
        ensures fresh { OnOk result (HoldsAnswer self.old.talk.held → ⊥) }
        ensures cause { IsNone self.old.broken → IfErr result
            (IsCauseOfBreak S.Source K.Sink done_by self.old.talk self.new.talk) }
    {
        self.going()?;
        put_reset(&mut self.request, self.names.kind(kind))?;
        done_over(
            &mut self.talk,
            &self.request,
            &mut self.notes,
            &mut self.messages,
        )
    }

    #[tactic(auto, using(crate::proofs::ComingLemmas::takes_none))]
    fn try_hw(&mut self, field: u32, value: u64) -> Result<bool, Cause>
        ensures going { OnOk result (IsNone self.old.broken) }
        ensures sent { Puts (K.written self.old.talk.sink) (K.written self.new.talk.sink)
            (hw_line (name_at self.old.names.fields field) value) result }
        ensures done { IfOk result (TakesDone S.left self.old.talk self.new.talk) }
        ensures only { OnlyTalks S.left self.old self.new }
        ensures fresh { OnOk result (HoldsAnswer self.old.talk.held → ⊥) }
        ensures cause { IsNone self.old.broken → IfErr result
            (IsCauseOfBreak S.Source K.Sink done_by self.old.talk self.new.talk) }
    {
        self.going()?;
        put_hw(&mut self.request, self.names.field(field), value)?;
        done_over(
            &mut self.talk,
            &self.request,
            &mut self.notes,
            &mut self.messages,
        )
    }

    // What comes of a reset or a change: one that wasn't done counts, and a failure of the link breaks it.
    fn settle(&mut self, done: Result<bool, Cause>)
        ensures later { self.old.errors ≤ self.new.errors }
        ensures done { IfOk done (λ is. self.new ≡ record self.old { undone = counted self.old.undone is }) }
        ensures broken { IfErr done (λ cause. self.new ≡ broken_off self.old cause self.new) }
        ensures line { IsNone self.old.broken → BrokeBehind self.new.talk.lines self.new.broken }
        ensures told { OnErr done (TellsBreak N.Sink self.old self.new) }
    {
        match done {
            Ok(true) => {}
            Ok(false) => self.undone = self.undone.saturating_add(1),
            Err(cause) => self.break_off(cause),
        }
    }
}

impl<S: Source, K: Sink, N: Sink, M: Sink> Device for Link<S, K, N, M> {
    ghost use Rattle.std.specs.Prelude.{None};

    ghost state = { λ _. None };

    ghost account = { λ link. account_of S.left K.written link };

    #[tactic(auto, using(crate::proofs::SentLemmas::front_whole))]
    fn transfer(&mut self, port: u32, transfer: &Transfer) -> Response
        requires well_formed { IsWellFormed transfer.now }
        requires port { IsPortOf None port }
        ensures reply { IsReplyTo transfer.now result }
        ensures small { (answered_by result).word < 256 ^ (carried_by transfer.now).bytes }
        ensures asked { Asks (account_of S.left K.written self.old) (account_of S.left K.written self.new)
            (ask.transfer port (carried_by transfer.now) (tag_of transfer.now) (answered_by result)) }
        ensures step { IsStep None None port (carried_by transfer.now) (answered_by result) }

        // Unless the link is broken, the whole request goes out, and the line that comes for it tells the answer: no
        // answer was held before.
        ensures sent { IsNone self.new.broken → Appends (K.written self.old.talk.sink) (K.written self.new.talk.sink)
            (transfer_line (name_at self.old.names.ports port) (carried_by transfer.now) (tag_of transfer.now)) }
        ensures answer { IsNone self.new.broken → TakesAnswer S.left self.old.talk self.new.talk
            (carried_by transfer.now) (answered_by result) }
        ensures fresh { IsNone self.new.broken → HoldsAnswer self.old.talk.held → ⊥ }

        // It breaks for a cause alone.
        ensures breaks { IsNone self.old.broken → IfSome self.new.broken (λ broken. IsCauseOfBreak S.Source K.Sink
            (answer_to (carried_by transfer.now).write (carried_by transfer.now).bytes)
            self.old.talk self.new.talk broken.cause) }

        // Where it breaks in this call, a front of the request went out, and nothing was read before all of it was.
        ensures front { AppendsFront (K.written self.old.talk.sink) (K.written self.new.talk.sink)
            (transfer_line (name_at self.old.names.ports port) (carried_by transfer.now) (tag_of transfer.now)) }
        ensures failed { IsSome self.new.broken → answered_by result ≡ failure }

        // Once it is broken, nothing is sent or read, and it stays broken as it was. Each line of the peer that is
        // taken counts one, and the number of a break is that of the line behind them.
        ensures keeps { KeepsOn S.left self.old self.new }
        ensures undone { self.new.undone ≡ self.old.undone }

        // A break is told in the log and to the user, with its cause and its line, and nothing else in the log.
        ensures told { TellsBreak N.Sink self.old self.new }
    {
        let op = carried(transfer);
        let answer = match self.try_transfer(port, &op, transfer.tag()) {
            Ok(answer) => answer,
            Err(cause) => {
                self.break_off(cause);
                return response_to(transfer, FAILED);
            }
        };
        if answer.failed {
            self.count();
        }
        response_to(transfer, answer)
    }

    fn peek(&self, _cell: Cell) -> u64 {
        0
    }

    fn poke(&mut self, cell: Cell, value: u64)
        requires cell { IsCellOf None cell }
        ensures step { option_map (λ s. poked s cell value) None ≡ None }
        ensures asked { Asks (account_of S.left K.written self.old) (account_of S.left K.written self.new)
            (ask.poke cell value) }
        ensures broken { IsSome self.new.broken }
        ensures silent { self.new.talk ≡ self.old.talk }
        ensures first { IsSome self.old.broken → self.new.broken ≡ self.old.broken }
    {
        self.break_off(Cause::Backdoor);
    }

    fn reset(&mut self, kind: u32)
        ensures step { option_map (λ s. reset_by s kind) None ≡ None }
        ensures asked { Asks (account_of S.left K.written self.old) (account_of S.left K.written self.new)
            (ask.reset kind) }
        ensures sent { IsNone self.new.broken → Appends (K.written self.old.talk.sink) (K.written self.new.talk.sink)
            (reset_line (name_at self.old.names.kinds kind)) }
        ensures done { IsNone self.new.broken → TellsDone S.left self.old self.new }
        ensures fresh { IsNone self.new.broken → HoldsAnswer self.old.talk.held → ⊥ }
        ensures breaks { IsNone self.old.broken → IfSome self.new.broken (λ broken.
            IsCauseOfBreak S.Source K.Sink done_by self.old.talk self.new.talk broken.cause) }
        ensures keeps { KeepsOn S.left self.old self.new }
    {
        let done = self.try_reset(kind);
        self.settle(done);
    }

    fn hw(&mut self, field: u32, value: u64)
        requires field { IsFieldOf None field }
        ensures step { option_map (λ s. hw_set s field value) None ≡ None }
        ensures asked { Asks (account_of S.left K.written self.old) (account_of S.left K.written self.new)
            (ask.hw field value) }
        ensures sent { IsNone self.new.broken → Appends (K.written self.old.talk.sink) (K.written self.new.talk.sink)
            (hw_line (name_at self.old.names.fields field) value) }
        ensures done { IsNone self.new.broken → TellsDone S.left self.old self.new }
        ensures fresh { IsNone self.new.broken → HoldsAnswer self.old.talk.held → ⊥ }
        ensures breaks { IsNone self.old.broken → IfSome self.new.broken (λ broken.
            IsCauseOfBreak S.Source K.Sink done_by self.old.talk self.new.talk broken.cause) }
        ensures keeps { KeepsOn S.left self.old self.new }
    {
        let done = self.try_hw(field, value);
        self.settle(done);
    }
}
