// Why a description is no TOML.
use crate::lines::line_number;
use crate::message::Message;
use rl_policy::{NumberText, read_number};
use std::alloc::Global;
use toml::de::Error;

// What the reader says of an integer that it can't hold.
const TOO_LARGE: &str = "number out of range";

// The largest integer of TOML.
const MOST_INTEGER: u64 = 0x7fff_ffff_ffff_ffff;

// What ends a word.
const ENDS: [char; 6] = [' ', '\t', '\n', '\x0c', '\r', ','];

// What stands from a place on, up to a blank, a comma or the line's end.
fn word_at(text: &str, place: usize) -> &str {
    let rest = text.get(place..).unwrap_or("");
    rest.split(ENDS).next().unwrap_or("")
}

// Whether a word is a number that no integer of TOML has.
fn is_too_large(word: &str) -> bool {
    match read_number(word.as_bytes()) {
        NumberText::Value(number) => number > MOST_INTEGER,
        NumberText::TooLarge => true,
        NumberText::Bad => false,
    }
}

// Puts where a text is no TOML, and what was expected there.
fn put_error(message: &mut Message, text: &str, error: &Error) -> Option<()> {
    let place = error.span()?.start;
    let word = word_at(text, place);
    message.put_line(line_number(text.as_bytes(), place));
    message.put("not toml: ");
    if error.message() != TOO_LARGE && !is_too_large(word) {
        message.put(error.message());
    } else {
        message.put_word(word);
        message.put(" is above 2^63-1, the largest integer of TOML; write it as a text, in quotes");
    }
    Some(())
}

/// Puts why a description can't be read: where it is no UTF-8, or no TOML.
pub(crate) fn put_unread(alloc: Global, message: &mut Message, description: &[u8]) -> Option<()> {
    match str::from_utf8(description) {
        Err(error) => {
            message.put_line(line_number(description, error.valid_up_to()));
            message.put("not toml: bytes that are no UTF-8");
            Some(())
        }
        Ok(text) => put_error(message, text, &toml::table_from_str(alloc, text).err()?),
    }
}
