// Requests, and the lines that answer them.
ghost use Rattle.std.specs.Prelude.{◌≡◌, [], ◌+◌, ◌-◌, ◌^◌, ◌<◌, ◌≤◌, min, Ok, Err, length};
ghost use Rattle.std.specs.Prelude.{IfOk, OnOk, OnErr, IfErr, IfSome, MatchOption};
ghost use Rattle.std.specs.Io.KnownBytes.{Keeps};
ghost use Rattle.rl_bus.specs.Causes.{Rose};
ghost use Rattle.rl_report.specs.Lines.{first_line, after_line};
ghost use Rattle.rl_report.specs.Pieces.{Puts};
ghost use Rattle.rl_link.specs.Answers.{said_in};
ghost use Rattle.rl_link.specs.Causes.{IsCauseOfLine, IsCauseOfReading, IsCauseOfAsking};
ghost use Rattle.rl_link.specs.Coming.{coming, Skips, Takes, Hears, HasLine, HoldsAnswer, IsLine};

use crate::answer::{Cause, Said, is_nothing, says};
use crate::held::Held;
use crate::message::put_chatter;
use rl_report::{Failed, Sink, Source, put_all};
use std::alloc::{AllocError, Global};

const MOST: usize = 4096;

// A peer that writes so many lines behind a request, none of which is an answer, doesn't answer.
const MOST_CHATTER: u64 = 10_000;

/// Two streams to a peer: requests go to the sink, and answers come from the source.
#[derive(Drop)]
pub struct Talk<S: Source, K: Sink> {
    /// Where answers come from.
    pub source: S,
    /// Where requests go.
    pub sink: K,
    /// What was read and isn't used yet.
    pub held: Held,
    /// How many lines were taken, whatever they say. It stays at the end of `u64`.
    pub lines: u64,
}

// How long the line in front is, where its end is held too.
fn front_len(held: &Held) -> Result<Option<usize>, Cause>
    ensures found { IfOk result (λ found. MatchOption found
        ((first_line held.now ≡ held.now) × (length held.now ≤ 4096)) (IsLine held.now)) }
    ensures too_long { OnErr result (4096 < length (first_line held.now)) }
    ensures cause { IfErr result (λ cause. cause ≡ Cause.TooLong) }
{
    let found = held.line_len();
    if found.unwrap_or(held.bytes().len()) > MOST {
        return Err(Cause::TooLong);
    }
    Ok(found)
}

// Reads until a whole line stands in front. Answers how long it is.
#[tactic(auto, using(crate::proofs::ComingLemmas::ends_still, crate::proofs::ComingLemmas::long_here))]
fn next_line<S: Source>(held: &mut Held, source: &mut S) -> Result<usize, Cause>
    ensures coming { Keeps (coming held.old (S.left source.old)) (coming held.new (S.left source.new)) }
    ensures line { IfOk result (IsLine held.new) }
    ensures closed { result ≡ Err Cause.Closed → IfSome (coming held.new (S.left source.new))
        (λ bytes. first_line bytes ≡ bytes) }
    ensures too_long { result ≡ Err Cause.TooLong → IfSome (coming held.new (S.left source.new))
        (λ bytes. 4096 < length (first_line bytes)) }
    ensures unread { result ≡ Err Cause.Unread → Rose (S.faults source.old) (S.faults source.new) }
    ensures later { S.faults source.old ≤ S.faults source.new }
    ensures cause { IfErr result IsCauseOfLine }
{
    loop {
        if let Some(len) = front_len(held)? {
            return Ok(len);
        }
        match held.take_more(source) {
            Ok(0) => return Err(Cause::Closed),
            Ok(_) => {}
            Err(Failed) => return Err(Cause::Unread),
        }
    }
}

// What the line in front says, of so many bytes.
fn front_says(held: &Held, len: usize) -> Said
    requires { IsLine held.now len }
    ensures { result ≡ said_in (first_line held.now) }
{
    says(&held.bytes()[..len])
}

// Drops the line in front, of so many bytes, and its end.
fn pass_line(held: &mut Held, lines: &mut u64, len: usize)
    requires { IsLine held.old len }
    ensures held { held.new ≡ after_line held.old }
    ensures lines { lines.new ≡ min (lines.old + 1) (2 ^ 64 - 1) }
{
    held.pass(len + 1);
    *lines = lines.saturating_add(1);
}

// Drops the line in front, which is no answer, and passes it on.
fn pass_on<M: Sink>(held: &mut Held, lines: &mut u64, messages: &mut M, len: usize)
    requires { IsLine held.old len }
    ensures held { held.new ≡ after_line held.old }
    ensures lines { lines.new ≡ min (lines.old + 1) (2 ^ 64 - 1) }
{
    // Where it can't be told, the session goes on all the same.
    let _ = put_chatter(messages, &held.bytes()[..len]);
    pass_line(held, lines, len);
}

// Passes over what is held already. What is an answer there was asked for by nobody.
fn skim<M: Sink>(held: &mut Held, lines: &mut u64, messages: &mut M) -> Result<(), Cause>
    ensures skips { (left : _) → Skips (coming held.old left) (coming held.new left) }
    ensures lines { (left : _) → Takes lines.old lines.new (coming held.old left) (coming held.new left) }
    ensures later { min lines.old (2 ^ 64 - 1) ≤ lines.new }
    ensures quiet { OnOk result (HoldsAnswer held.old → ⊥) }
    ensures unasked { OnErr result (HoldsAnswer held.old) }
    ensures fault { IfErr result (λ cause. cause ≡ Cause.Unasked) }
{
    while let Some(len) = held.line_len() {
        if !is_nothing(front_says(held, len)) {
            return Err(Cause::Unasked);
        }
        pass_on(held, lines, messages, len);
    }
    Ok(())
}

// Reads until a line that is an answer stands in front.
#[tactic(auto, using(crate::proofs::ComingLemmas::by_reading))]
fn hear<S: Source, M: Sink>(
    held: &mut Held,
    lines: &mut u64,
    source: &mut S,
    messages: &mut M,
) -> Result<Said, Cause>
    ensures skips { Skips (coming held.old (S.left source.old)) (coming held.new (S.left source.new)) }
    ensures lines { Takes lines.old lines.new
        (coming held.old (S.left source.old)) (coming held.new (S.left source.new)) }
    ensures heard { IfOk result (λ said. IfSome (coming held.old (S.left source.old))
        (λ bytes. Hears bytes said (coming held.new (S.left source.new)))) }
    ensures front { OnOk result (HasLine held.new) }
    ensures closed { result ≡ Err Cause.Closed → IfSome (coming held.new (S.left source.new))
        (λ bytes. first_line bytes ≡ bytes) }
    ensures too_long { result ≡ Err Cause.TooLong → IfSome (coming held.new (S.left source.new))
        (λ bytes. 4096 < length (first_line bytes)) }
    ensures too_many { result ≡ Err Cause.TooMany → min (lines.old + 10000) (2 ^ 64 - 1) ≤ lines.new }
    ensures cause { IfErr result IsCauseOfReading }
    ensures unread { result ≡ Err Cause.Unread → Rose (S.faults source.old) (S.faults source.new) }
    ensures later { S.faults source.old ≤ S.faults source.new }
{
    for passed in 0..MOST_CHATTER {
        let len = next_line(held, source)?;
        let said = front_says(held, len);
        if !is_nothing(said) {
            return Ok(said);
        }
        pass_on(held, lines, messages, len);
    }
    Err(Cause::TooMany)
}

impl<S: Source + Drop, K: Sink + Drop> Talk<S, K> {
    /// Over these streams.
    pub fn build(alloc: Global, source: S, sink: K) -> Result<Talk<S, K>, AllocError>
        ensures streams { IfOk result (λ talk. (talk.source ≡ source) × (talk.sink ≡ sink)) }
        ensures empty { IfOk result (λ talk. talk.held ≡ []) }
    {
        Ok(Talk {
            source,
            sink,
            held: Held::build(alloc)?,
            lines: 0,
        })
    }
}

impl<S: Source, K: Sink> Talk<S, K> {
    /// Sends a request, and then reads the line that answers it, which stays in front. Lines before it that are no
    /// answer are passed on.
    #[tactic(auto, using(crate::proofs::SentLemmas::by_sending, crate::proofs::ComingLemmas::by_hearing))]
    pub fn ask<M: Sink>(&mut self, request: &[u8], messages: &mut M) -> Result<Said, Cause>
        ensures sent { Puts (K.written self.old.sink) (K.written self.new.sink) request.now result }
        ensures skips { Skips (coming self.old.held (S.left self.old.source))
            (coming self.new.held (S.left self.new.source)) }
        ensures heard { IfOk result (λ said. IfSome (coming self.old.held (S.left self.old.source))
            (λ bytes. Hears bytes said (coming self.new.held (S.left self.new.source)))) }
        ensures front { OnOk result (HasLine self.new.held) }

        // Each line that is taken counts one.
        ensures lines { Takes self.old.lines self.new.lines (coming self.old.held (S.left self.old.source))
            (coming self.new.held (S.left self.new.source)) }

        // Nothing is read before the request is out. Nothing is sent, and the call fails, where an answer is held
        // that nothing was asked for.
        ensures out_first { result ≡ Err Cause.Unsent → self.new.source ≡ self.old.source }
        ensures unasked { result ≡ Err Cause.Unasked
            → (self.new.source ≡ self.old.source) × (self.new.sink ≡ self.old.sink) }
        ensures fresh { OnOk result (HoldsAnswer self.old.held → ⊥) }

        // It fails for a cause alone, and no fault is made up.
        ensures held { result ≡ Err Cause.Unasked → HoldsAnswer self.old.held }
        ensures unsent { result ≡ Err Cause.Unsent → Rose (K.faults self.old.sink) (K.faults self.new.sink) }
        ensures unread { result ≡ Err Cause.Unread → Rose (S.faults self.old.source) (S.faults self.new.source) }
        ensures closed { result ≡ Err Cause.Closed → IfSome (coming self.new.held (S.left self.new.source))
            (λ bytes. first_line bytes ≡ bytes) }
        ensures too_long { result ≡ Err Cause.TooLong → IfSome (coming self.new.held (S.left self.new.source))
            (λ bytes. 4096 < length (first_line bytes)) }
        ensures too_many { result ≡ Err Cause.TooMany
            → min (self.old.lines + 10000) (2 ^ 64 - 1) ≤ self.new.lines }
        ensures cause { IfErr result IsCauseOfAsking }
    {
        skim(&mut self.held, &mut self.lines, messages)?;
        if put_all(&mut self.sink, request).is_err() {
            return Err(Cause::Unsent);
        }
        hear(&mut self.held, &mut self.lines, &mut self.source, messages)
    }

    /// Passes over the lines that are held already, none of which may be an answer.
    pub fn skim<M: Sink>(&mut self, messages: &mut M) -> Result<(), Cause>
        ensures quiet { OnOk result (HoldsAnswer self.old.held → ⊥) }
        ensures unasked { OnErr result (HoldsAnswer self.old.held) }
        ensures cause { IfErr result (λ cause. cause ≡ Cause.Unasked) }
        ensures lines { (left : _) → Takes self.old.lines self.new.lines
            (coming self.old.held left) (coming self.new.held left) }
        ensures streams { (self.new.source ≡ self.old.source) × (self.new.sink ≡ self.old.sink) }
    {
        skim(&mut self.held, &mut self.lines, messages)
    }

    /// Takes the line in front.
    pub fn take_line(&mut self)
        requires { HasLine self.old.held }
        ensures { self.new ≡ record self.old {
          held = after_line self.old.held;
          lines = min (self.old.lines + 1) (2 ^ 64 - 1);
        } }
    {
        if let Some(len) = self.held.line_len() {
            pass_line(&mut self.held, &mut self.lines, len);
        }
    }
}
