// What a program says of a session on standard error.
use crate::description::put_refused;
use crate::kept_sink::{Heard, KeptSink};
use crate::kept_source::{Kept, KeptSource, Parts};
use crate::lines::{is_line_end, line_number};
use crate::message::Message;
use crate::script::{Lines, put_refused_line};
use crate::unread::put_unread;
use memchr::{memchr, memrchr};
use rl_report::{Sink, Source};
use std::alloc::Global;

// Puts what is wrong with a refused line, where it is at hand.
fn put_wrong_word(
    alloc: Global,
    message: &mut Message,
    kept: &Kept,
    parts: Parts<'_>,
    number: usize,
) -> Option<()> {
    let description = str::from_utf8(parts.description).ok()?;
    let from = parts.script.checked_sub(kept.before_last());
    let last = kept.last(alloc)?;
    let lines = Lines {
        bytes: last.get(from.unwrap_or(0)..).unwrap_or(&[]),
        first: from.is_some(),
    };
    put_refused_line(alloc, message, description, lines, number)
}

// Puts what there is to tell of a refused line, from what the log says behind `refused line `.
fn put_line_refusal(alloc: Global, message: &mut Message, kept: &Kept, told: &str) -> Option<()> {
    let (number, reason) = told.split_once(": ")?;
    let number = number.parse::<usize>().ok()?;
    let parts = kept.parts()?;
    let separator = line_number(parts.description, usize::MAX);
    message.put_line(separator.saturating_add(number));
    message.put(reason);
    // Where no more can be told, the line and the reason are.
    let _ = put_wrong_word(alloc, message, kept, parts, number);
    Some(())
}

// Puts what there is to tell of a refused description, from what the log says behind `refused description`.
fn put_description_refusal(
    alloc: Global,
    message: &mut Message,
    kept: &Kept,
    told: &str,
) -> Option<()> {
    let description = kept.parts()?.description;
    if told == ": not toml" {
        return put_unread(alloc, message, description);
    }
    put_refused(
        alloc,
        message,
        str::from_utf8(description).ok()?,
        told.trim_start(),
    )
}

// The line of a session with no separator that looks like one.
fn put_no_separator(message: &mut Message, kept: &Kept) -> Option<()> {
    for (number, line) in kept.front()?.split(is_line_end).enumerate() {
        if line.trim_ascii().starts_with(b"---") {
            message.put_line(number.saturating_add(1));
            message.put("no separator: this line isn't exactly `---`");
            return Some(());
        }
    }
    None
}

// Puts what there is to tell of a refusal, from the last line of the log.
fn put_refusal(alloc: Global, message: &mut Message, kept: &Kept, last: &str) -> Option<()> {
    let told = last.strip_prefix("refused ")?;
    if let Some(told) = told.strip_prefix("line ") {
        put_line_refusal(alloc, message, kept, told)
    } else if let Some(told) = told.strip_prefix("description") {
        put_description_refusal(alloc, message, kept, told)
    } else if told == "session: no separator" {
        put_no_separator(message, kept)
    } else {
        None
    }
}

// Says what there is to tell of a refusal.
fn tell_refusal<W: Sink>(alloc: Global, program: &str, messages: &mut W, kept: &Kept, last: &str) {
    let mut message = Message::of(alloc, program);
    if put_refusal(alloc, &mut message, kept, last).is_some() {
        message.tell(messages);
    }
}

// A note on what did nothing.
fn tell_note<W: Sink>(alloc: Global, program: &str, messages: &mut W, words: &[&str]) {
    let mut message = Message::of(alloc, program);
    message.put("note: ");
    for word in words {
        message.put_word(word);
    }
    message.tell(messages);
}

// Whether a line of a script says nothing.
fn is_blank(line: &[u8]) -> bool {
    let line = line.trim_ascii();
    line.is_empty() || line.starts_with(b"#")
}

// Whether the whole script is at hand, and has no operation.
fn has_no_operation(kept: &Kept, parts: Parts<'_>) -> bool {
    let Some(script) = kept.script(parts) else {
        return false;
    };
    for line in script.split(is_line_end) {
        if !is_blank(line) {
            return false;
        }
    }
    true
}

// Whether a key begins behind these bytes: no letter is right before it, and no `#` in its line.
fn begins_key(before: &[u8]) -> bool {
    let line = match memrchr(b'\n', before) {
        Some(end) => before.get(end..).unwrap_or(before),
        None => before,
    };
    let joins = match before {
        [.., byte] => byte.is_ascii_alphanumeric() || *byte == b'_',
        [] => false,
    };
    !joins && memchr(b'#', line).is_none()
}

// Whether a key ends before these bytes: a value follows.
fn ends_key(rest: &[u8]) -> bool {
    let rest = rest.strip_prefix(b"\"").unwrap_or(rest);
    rest.trim_ascii_start().starts_with(b"=")
}

// Whether a key stands between these bytes.
fn is_key(before: Option<&[u8]>, rest: Option<&[u8]>) -> bool {
    begins_key(before.unwrap_or(&[])) && ends_key(rest.unwrap_or(&[]))
}

// The first key of a text that is HARD in other letters, and its place.
fn other_hard(text: &[u8]) -> Option<(usize, &[u8])> {
    for (place, word) in text.windows(4).enumerate() {
        let end = place.saturating_add(4);
        if word.eq_ignore_ascii_case(b"HARD")
            && word != b"HARD".as_slice()
            && is_key(text.get(..place), text.get(end..))
        {
            return Some((place, word));
        }
    }
    None
}

// A note on the first reset kind that is HARD in other letters.
fn tell_kind<W: Sink>(alloc: Global, program: &str, messages: &mut W, text: &[u8]) {
    let Some((place, word)) = other_hard(text) else {
        return;
    };
    let mut message = Message::of(alloc, program);
    message.put("note: ");
    message.put_line(line_number(text, place));
    message.put("the reset kind ");
    message.put_word(str::from_utf8(word).unwrap_or(""));
    message.put(" is another one than HARD");
    message.tell(messages);
}

const NO_STEP: &str = " made no step";

// The notes on sequences that made no step.
fn tell_idle<W: Sink>(alloc: Global, program: &str, messages: &mut W, heard: &Heard) {
    let (idle, more) = heard.idle();
    for name in str::from_utf8(idle).unwrap_or("").lines() {
        tell_note(alloc, program, messages, &["seq ", name, NO_STEP]);
    }
    if more > 0 {
        tell_note(alloc, program, messages, &["further sequences", NO_STEP]);
    }
}

// The notes on a session that was run, of which the log's last line gives these counts.
fn tell_notes<W: Sink>(alloc: Global, program: &str, messages: &mut W, kept: &Kept, counts: &str) {
    let Some(parts) = kept.parts() else {
        return;
    };
    tell_kind(alloc, program, messages, parts.description);
    if !counts.ends_with(" places") && has_no_operation(kept, parts) {
        tell_note(alloc, program, messages, &["the script has no operation"]);
    }
}

/// Says on standard error what helps, a line each. Of a session that was refused it gives the line of the input, the
/// reason, the word that is wrong and the name that is nearest to it; of one that was run, what may not be meant.
///
/// Where there is no memory, or no more to say than the log does, nothing is said.
///
/// # Examples
///
/// The log ends with `refused line 3: no such name`, and the line in the script is `check uart.ctlr`:
///
/// ```text
/// regrun: line 350: no such name: uart.ctlr (uart.ctrl?)
/// ```
pub fn advise<S: Source + Drop, K: Sink + Drop, W: Sink>(
    alloc: Global,
    program: &str,
    source: &KeptSource<S>,
    sink: &KeptSink<K>,
    messages: &mut W,
) {
    let last = str::from_utf8(sink.heard().last()).unwrap_or("");
    tell_refusal(alloc, program, messages, source.kept(), last);
    tell_idle(alloc, program, messages, sink.heard());
    if let Some(counts) = last.strip_prefix("end: ") {
        tell_notes(alloc, program, messages, source.kept(), counts);
    }
}
