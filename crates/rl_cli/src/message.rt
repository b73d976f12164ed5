// A line for standard error.
use crate::near::Nearest;
use itoa::Buffer;
use rl_policy::spell;
use rl_report::{Sink, put_all};
use std::alloc::Global;

// No word is shown longer.
const MOST_WORD: usize = 100;

/// A line for standard error, as it grows.
#[derive(Drop)]
pub(crate) struct Message {
    text: String,
    // There was memory for all of it.
    whole: bool,
}

impl Message {
    /// Behind the program's name.
    pub(crate) fn of(alloc: Global, program: &str) -> Message {
        let mut message = Message {
            text: String::new(alloc),
            whole: true,
        };
        message.put(program);
        message.put(": ");
        message
    }

    pub(crate) fn put(&mut self, text: &str) {
        self.whole &= self.text.push_str(text).is_ok();
    }

    pub(crate) fn put_number(&mut self, number: usize) {
        self.put(Buffer::new().format(number));
    }

    /// The number as `0x` and hexadecimal digits.
    pub(crate) fn put_hex(&mut self, number: u8) {
        let mut digits = [0u8; 16];
        let len = spell(&mut digits, number.into());
        self.put("0x");
        self.put(str::from_utf8(&digits[..len]).unwrap_or(""));
    }

    /// `line N: `, with lines counted from 1.
    pub(crate) fn put_line(&mut self, number: usize) {
        self.put("line ");
        self.put_number(number);
        self.put(": ");
    }

    /// A word of the session, in one line and not too long.
    pub(crate) fn put_word(&mut self, word: &str) {
        for (count, letter) in word.chars().enumerate() {
            if count >= MOST_WORD {
                return self.put("..");
            }
            let shown = if letter.is_control() { '?' } else { letter };
            self.whole &= self.text.push(shown).is_ok();
        }
    }

    /// `: WORD`, and ` (NAME?)` where a name is near that is another one.
    pub(crate) fn put_wrong(&mut self, nearest: Nearest<'_>) {
        self.put(": ");
        self.put_word(nearest.word);
        if let Some(name) = nearest.best {
            self.put(" (");
            self.put_word(name);
            self.put("?)");
        }
    }

    /// Writes the whole line, where there was memory for it.
    pub(crate) fn tell<W: Sink>(mut self, messages: &mut W) {
        self.put("\n");
        if self.whole {
            let _ = put_all(messages, self.text.as_bytes());
        }
    }
}
