// Lines over a source, however it is cut into reads.
ghost use Rattle.std.specs.Prelude.{◌≡◌, ◌≢◌, ℕ, ◌+◌, ◌-◌, ◌<◌, ◌≤◌, List, [], true, false, length, take, drop};
ghost use Rattle.std.specs.Prelude.{slice_range, Option, Some, IfSome, IfNone, IfOk, OnOk, OnErr, Ok, Err, IsTrue, ◌↔◌};
ghost use Rattle.std.specs.Prelude.{if◌then◌else◌};
ghost use Rattle.std.specs.Io.KnownBytes.{prepend_known};
ghost use Rattle.rl_report.specs.Prelude.{first_line, strip_last, input_of, HoldsLine, IsLaterPhase, SamePhase};
ghost use Rattle.rl_report.specs.Prelude.{Keeps, HasCause, Rose, Hands, HeadIs, TakesNoHead, Takes};

use crate::opening::{Part, next_part};
use crate::window::refill;
use crate::{Failed, Head, HeadFault, Source};
use memchr::memchr;
use std::alloc::{AllocError, Global};
use std::marker::Model;

const BUFFER: usize = 8192;

const MAX_LINE: usize = 4096;

const MAX_HEAD: usize = 1_048_576;

/// What a call of `next_line` answers.
#[derive(Clone, Copy, Debug, PartialEq, Eq)]
pub enum Got {
    /// `line` has the next line.
    Line,
    /// The next line has more than 4,096 bytes before its end.
    TooLong,
    /// There is no further line.
    End,
}

// What was taken of the bytes before the separator.
#[derive(Clone, Copy)]
enum Taken {
    Last(Head),
    Text { ends: bool },
    Nothing,
}

/// Reads a source line by line, over a buffer of 8,192 bytes.
///
/// It reads only when it holds no whole line, and never again once a read met the end.
#[derive(Drop)]
pub struct LineReader {
    buffer: Vec<u8>,
    start: usize,
    end: usize,
    // How long the first line is of what stands between these places.
    size: usize,
    // The last line stands in the buffer from here on, and before the next read it is copied.
    line_start: usize,
    line_len: usize,
    line: Vec<u8>,
    copied: bool,
    asked: bool,
    found: bool,
    refused: bool,
    ended: bool,
    closed: bool,
}

impl Model for LineReader {
    ghost use Rattle.std.specs.Prelude.{◌≡◌, ◌+◌, ◌≤◌, if◌then◌else◌, length, slice_range, take, vec_len};
    ghost use Rattle.rl_report.specs.Lines.{first_line};
    ghost use Rattle.rl_report.specs.Reading.{Reading};

    ghost Value = { Reading };

    ghost view = { λ r. record {
      pending = slice_range r.buffer.items r.start r.end;
      line = (if r.copied then take r.line_len r.line.items
          else slice_range r.buffer.items r.line_start (r.line_start + r.line_len));
      asked = r.asked;
      found = r.found;
      refused = r.refused;
      ended = r.ended;
      closed = r.closed;
    } };

    ghost invariant = { λ r. (r.start ≤ r.end) × (r.end ≤ 8192) × (vec_len r.buffer ≡ 8192)
        × (vec_len r.line ≡ 4096) × (r.line_len ≤ 4096) × (r.line_start + r.line_len ≤ 8192)
        × (r.size ≡ length (first_line (slice_range r.buffer.items r.start r.end))) };
}

// What is answered at the end of an input with no separator, where so many bytes are left and there is room for
// so many.
fn missing(left: usize, room: usize) -> Head
    ensures missing { left ≤ room → result ≡ Head.Missing }
    ensures too_long { room < left → result ≡ Head.TooLong }
{
    if left > room {
        Head::TooLong
    } else {
        Head::Missing
    }
}

// An empty line comes first. It needs no search.
fn starts_with_end(bytes: &[u8]) -> bool
    ensures { IsTrue result → length (first_line bytes.now) ≡ 0 }
{
    matches!(bytes, [b'\n', ..])
}

// How long the first line is.
fn line_len(bytes: &[u8]) -> usize
    ensures { result ≡ length (first_line bytes.now) }
{
    if starts_with_end(bytes) {
        return 0;
    }
    memchr(b'\n', bytes).unwrap_or(bytes.len())
}

// A line without the carriage return at its end.
pub(crate) fn without_return(line: &[u8]) -> &[u8]
    ensures value { result.now ≡ strip_last 13 line.now }
    ensures front { take (length result.now) line.now ≡ result.now }
    ensures shorter { length result.now ≤ length line.now }
{
    match line {
        [front @ .., b'\r'] => front,
        _ => line,
    }
}

// Copies the last line out of the buffer, where that wasn't done.
fn keep_line(line: &mut [u8], copied: &mut bool, buffer: &[u8], start: usize, len: usize)
    requires fits { len ≤ length line.old }
    requires within { start + len ≤ length buffer.now }
    ensures copied { copied.new ≡ true }
    ensures line { take len line.new ≡ (if copied.old then take len line.old
        else slice_range buffer.now start (start + len)) }
{
    if !*copied {
        line[..len].copy_from_slice(&buffer[start..start + len]);
        *copied = true;
    }
}

// Reads once, behind what stands between the two places. That grows, or the end is met. Measures its first line.
fn fill<S: Source>(
    buffer: &mut [u8],
    start: &mut usize,
    end: &mut usize,
    size: &mut usize,
    ended: &mut bool,
    source: &mut S,
) -> Result<(), Failed>
    requires room { length buffer.old ≡ 8192 }
    requires ordered { start.old ≤ end.old }
    requires within { end.old ≤ length buffer.old }
    requires short { end.old - start.old ≤ 4096 }
    requires size { size.old ≡ length (first_line (slice_range buffer.old start.old end.old)) }
    requires going { ended.old ≡ false }
    ensures ordered { start.new ≤ end.new }
    ensures within { end.new ≤ length buffer.new }
    ensures size { size.new ≡ length (first_line (slice_range buffer.new start.new end.new)) }
    ensures input { Keeps (prepend_known (slice_range buffer.old start.old end.old) (S.left source.old))
        (if ended.new then Some (slice_range buffer.new start.new end.new)
        else prepend_known (slice_range buffer.new start.new end.new) (S.left source.new)) }
    ensures grows { OnOk result (ended.new ≡ false → end.old - start.old < end.new - start.new) }
    ensures kept { OnErr result ((slice_range buffer.new start.new end.new ≡ slice_range buffer.old start.old end.old)
        × (ended.new ≡ false)) }
    ensures cause { HasCause (S.faults source.old) (S.faults source.new) result }
{
    let count = refill(buffer, start, end, source)?;
    *size = line_len(&buffer[*start..*end]);
    *ended = count == 0;
    Ok(())
}

impl LineReader {
    /// A reader that has read nothing.
    pub fn build(alloc: Global) -> Result<LineReader, AllocError>
        ensures { IfOk result (λ r. r ≡ record {
          pending = [];
          line = [];
          asked = false;
          found = false;
          refused = false;
          ended = false;
          closed = false;
        }) }
    {
        Ok(LineReader {
            buffer: vec![in alloc; 0; BUFFER]?,
            start: 0,
            end: 0,
            size: 0,
            line_start: 0,
            line_len: 0,
            line: vec![in alloc; 0; MAX_LINE]?,
            copied: false,
            asked: false,
            found: false,
            refused: false,
            ended: false,
            closed: false,
        })
    }

    /// Hands out the next line. A fault loses no byte, and the next call goes on with the same line.
    ///
    /// # Examples
    ///
    /// The source has the bytes `show a`, a line feed, and `show b`.
    ///
    /// ```text
    /// reader.next_line(&mut source) == Ok(Got::Line)
    /// reader.line() == b"show a"
    /// reader.next_line(&mut source) == Ok(Got::Line)
    /// reader.line() == b"show b"
    /// reader.next_line(&mut source) == Ok(Got::End)
    /// ```
    pub fn next_line<S: Source>(&mut self, source: &mut S) -> Result<Got, Failed>
        requires found { self.old.found ≡ true }
        requires going { self.old.refused ≡ false }

        // However the source is cut into reads.
        ensures got { IfOk result (λ got. IfSome (input_of self.old (S.left source.old))
            (λ bytes. Hands bytes got self.new (S.left source.new))) }
        ensures none_lost { OnErr result (Keeps (input_of self.old (S.left source.old))
            (input_of self.new (S.left source.new))) }
        ensures line { result ≢ Ok Got.Line → self.new.line ≡ self.old.line }

        // It reads only where it holds no whole line, and never again after the end.
        ensures unread { HoldsLine self.old → source.new ≡ source.old }
        ensures unread_at_end { self.old.ended ≡ true → source.new ≡ source.old }
        ensures asks { OnErr result (HoldsLine self.old → ⊥) }
        ensures none_whole { OnErr result ((first_line self.new.pending ≡ self.new.pending)
            × (self.new.ended ≡ false)) }
        ensures held { length self.new.pending ≤ 8192 }

        // After the end it answers the end again.
        ensures end { result ≡ Ok Got.End → (self.new.ended ≡ true) × (self.new.pending ≡ []) }
        ensures again { self.old.ended ≡ true → self.old.pending ≡ [] → result ≡ Ok Got.End }
        ensures closed { result ≡ Ok Got.End → self.new.closed ≡ true }
        ensures still { result ≢ Ok Got.End → self.new.closed ≡ self.old.closed }

        ensures phase { IsLaterPhase self.old self.new }
        ensures refused { self.new.refused ≡ true ↔ result ≡ Ok Got.TooLong }
        ensures cause { HasCause (S.faults source.old) (S.faults source.new) result }
    {
        loop {
            if let Some(got) = self.take_line() {
                return Ok(got);
            }
            self.take_more(source)?;
        }
    }

    /// Whether the next line is here already, so that no read is needed for it.
    pub fn holds_line(&self) -> bool
        ensures { IsTrue result ↔ HoldsLine self.now }
    {
        self.size < self.end - self.start
    }

    /// Reads the bytes before the separator, the first line that is `---`.
    pub fn read_head<S: Source>(
        &mut self,
        source: &mut S,
        head: &mut Vec<u8>,
    ) -> Result<Head, HeadFault>
        requires empty { head.old.items ≡ [] }
        requires first { self.old.asked ≡ false }
        // However the source is cut into reads.
        ensures head { IfOk result (λ answer. IfSome (input_of self.old (S.left source.old))
            (λ bytes. HeadIs bytes answer head.new.items self.new (S.left source.new))) }
        ensures at_fault { result ≡ Err HeadFault.Source → IfSome (input_of self.old (S.left source.old))
            (λ bytes. TakesNoHead bytes (S.left source.new)) }
        ensures held { result ≡ Ok Head.Found → length self.new.pending ≤ 8192 }
        ensures asked { self.new.asked ≡ true }
        ensures found { (self.new.found ≡ true) ↔ (result ≡ Ok Head.Found) }
        ensures refused { self.new.refused ≡ self.old.refused }
        ensures ended { self.old.ended ≡ true → self.new.ended ≡ true }
        ensures closed { self.new.closed ≡ self.old.closed }
        ensures line { self.new.line ≡ self.old.line }
        ensures later { S.faults source.old ≤ S.faults source.new }
        ensures cause { result ≡ Err HeadFault.Source → Rose (S.faults source.old) (S.faults source.new) }
    {
        self.begin();
        let mut starts = true;
        loop {
            let Ok(taken) = self.take_part(starts, head) else {
                return Err(HeadFault::Memory);
            };
            match taken {
                Taken::Last(answer) => return Ok(answer),
                Taken::Text { ends } => starts = ends,
                Taken::Nothing => {
                    if self.take_more(source).is_err() {
                        return Err(HeadFault::Source);
                    }
                }
            }
        }
    }

    // Takes what stands at the front of what is held, without a read.
    fn take_part(&mut self, starts: bool, head: &mut Vec<u8>) -> Result<Taken, AllocError>
        requires { length head.old.items ≤ 1048576 }
        ensures took { IfOk result (λ taken. Takes self.old head.old.items starts taken self.new head.new.items) }
        ensures phase { SamePhase self.old self.new }
        ensures found { (result ≡ Ok (Taken.Last Head.Found) → self.new.found ≡ true)
            × (result ≢ Ok (Taken.Last Head.Found) → self.new.found ≡ self.old.found) }
        ensures line { self.new.line ≡ self.old.line }
        ensures held { length self.new.pending ≤ 8192 }
    {
        let room = MAX_HEAD - head.len();
        match next_part(self.pending(), self.first_len(), starts, self.has_ended()) {
            Part::Separator { size } => {
                self.pass_separator(size);
                Ok(Taken::Last(Head::Found))
            }
            Part::End => Ok(Taken::Last(missing(self.pending().len(), room))),
            Part::Unclear => Ok(Taken::Nothing),
            Part::Text { size, .. } if size > room => Ok(Taken::Last(Head::TooLong)),
            Part::Text { size, ends } => {
                head.extend_from_slice(&self.pending()[..size])?;
                self.pass(size);
                Ok(Taken::Text { ends })
            }
        }
    }

    fn begin(&mut self)
        ensures { self.new ≡ record self.old { asked = true; found = false } }
    {
        self.asked = true;
        self.found = false;
    }

    // What it has taken and not handed out.
    fn pending(&self) -> &[u8]
        ensures bytes { result.now ≡ self.now.pending }
        ensures held { length self.now.pending ≤ 8192 }
    {
        &self.buffer[self.start..self.end]
    }

    // How long the first line is of what is pending.
    fn first_len(&self) -> usize
        ensures { result ≡ length (first_line self.now.pending) }
    {
        self.size
    }

    fn has_ended(&self) -> bool
        ensures { result ≡ self.now.ended }
    {
        self.ended
    }

    // Drops so many bytes of what is pending.
    fn pass(&mut self, size: usize)
        requires { size ≤ length self.old.pending }
        ensures { self.new ≡ record self.old { pending = drop size self.old.pending } }
    {
        self.start += size;
        self.size = line_len(&self.buffer[self.start..self.end]);
    }

    // Drops the separator's line, of so many bytes.
    fn pass_separator(&mut self, size: usize)
        requires { size ≤ length self.old.pending }
        ensures { self.new ≡ record self.old { pending = drop size self.old.pending; found = true } }
    {
        self.pass(size);
        self.found = true;
    }

    // Hands out what it can without a read.
    fn take_line(&mut self) -> Option<Got>
        requires { self.old.refused ≡ false }
        ensures got { IfSome result (λ got. (left : Option (List ℕ)) → IfSome (input_of self.old left)
            (λ bytes. Hands bytes got self.new left)) }
        ensures line { result ≢ Some Got.Line → self.new.line ≡ self.old.line }
        ensures refused { (self.new.refused ≡ true) ↔ (result ≡ Some Got.TooLong) }
        ensures held { length self.new.pending ≤ 8192 }
        ensures end { result ≡ Some Got.End → (self.new.ended ≡ true) × (self.new.pending ≡ []) }
        ensures again { self.old.ended ≡ true → self.old.pending ≡ [] → result ≡ Some Got.End }
        ensures closed { result ≡ Some Got.End → self.new.closed ≡ true }
        ensures still { result ≢ Some Got.End → self.new.closed ≡ self.old.closed }
        ensures phase { IsLaterPhase self.old self.new }
        ensures kept { IfNone result (self.new ≡ self.old) }
        ensures short { IfNone result (length self.old.pending ≤ 4096) }
        ensures none_whole { IfNone result (first_line self.old.pending ≡ self.old.pending) }
        ensures going { IfNone result (self.old.ended ≡ false) }
    {
        let held = self.end - self.start;
        let size = self.size;
        if size > MAX_LINE {
            self.refused = true;
            return Some(Got::TooLong);
        }
        if size < held {
            self.hand_out(size, size + 1);
            return Some(Got::Line);
        }
        if !self.ended {
            return None;
        }
        if held == 0 {
            self.closed = true;
            return Some(Got::End);
        }
        self.hand_out(size, size);
        Some(Got::Line)
    }

    // Hands out a line of this size, and drops what was taken from what is pending.
    fn hand_out(&mut self, size: usize, taken: usize)
        requires short { size ≤ 4096 }
        requires ordered { size ≤ taken }
        requires within { taken ≤ length self.old.pending }
        ensures { self.new ≡ record self.old {
          pending = drop taken self.old.pending;
          line = strip_last 13 (take size self.old.pending);
        } }
    {
        let line = without_return(&self.buffer[self.start..self.start + size]);
        self.line_len = line.len();
        self.line_start = self.start;
        self.copied = false;
        self.pass(taken);
    }

    // Reads once. What is pending grows, or the end is met.
    fn take_more<S: Source>(&mut self, source: &mut S) -> Result<(), Failed>
        requires short { length self.old.pending ≤ 4096 }
        requires none_whole { first_line self.old.pending ≡ self.old.pending }
        requires going { self.old.ended ≡ false }
        ensures input { Keeps (input_of self.old (S.left source.old)) (input_of self.new (S.left source.new)) }
        ensures grows { OnOk result (self.new.ended ≡ false → length self.old.pending < length self.new.pending) }
        ensures held { length self.new.pending ≤ 8192 }
        ensures kept { OnErr result ((self.new.pending ≡ self.old.pending) × (self.new.ended ≡ false)) }
        ensures line { self.new.line ≡ self.old.line }
        ensures phase { SamePhase self.old self.new }
        ensures found { self.new.found ≡ self.old.found }
        ensures cause { HasCause (S.faults source.old) (S.faults source.new) result }
    {
        keep_line(
            &mut self.line,
            &mut self.copied,
            &self.buffer,
            self.line_start,
            self.line_len,
        );
        fill(
            &mut self.buffer,
            &mut self.start,
            &mut self.end,
            &mut self.size,
            &mut self.ended,
            source,
        )
    }

    /// The last line that was handed out, without its line end. It is empty before the first.
    pub fn line(&self) -> &[u8]
        ensures { result.now ≡ self.now.line }
    {
        if self.copied {
            return &self.line[..self.line_len];
        }
        &self.buffer[self.line_start..self.line_start + self.line_len]
    }
}
