// What a line of the peer says, and what it answers.
ghost use Rattle.std.specs.Prelude.{◌≡◌, ◌<◌, ◌≤◌, ◌^◌, nat_lt, length, IfOk, false};
ghost use Rattle.rl_bus.specs.Lanes.{IsWidth};
ghost use Rattle.std.specs.Char.{is_ascii_whitespace};
ghost use Rattle.std.specs.List.{position_or_len, list_any, list_all};
ghost use Rattle.rl_policy.specs.Numbers.{has_hex_prefix};
ghost use Rattle.rl_link.specs.Answers.{bare, first_word, said_in, said_by, said_behind, is_nothing, value_said};
ghost use Rattle.rl_link.specs.Answers.{is_unknown_digit, is_any_digit, digits_in, is_unknown_text, is_unknown, sole};
ghost use Rattle.rl_link.specs.Answers.{written_by, read_by, answer_to, done_by};

use rl_bus::Answer;
use rl_policy::{NumberText, read_number};
use std::alloc::AllocError;

/// What a line of the peer says.
#[derive(Clone, Copy, Debug, PartialEq, Eq)]
pub enum Said {
    /// It doesn't begin with the word `ok`, `error` or `none`: the peer may write such lines at any time.
    Nothing,
    /// `ok`
    Done,
    /// `ok WORD`
    Word(u64),
    /// `ok` and a word with digits that are `x` or `z`, as simulators print them: bits of it are unknown.
    Unknown,
    /// `error`
    Error,
    /// `none`: the peer has nothing that does this.
    Unable,
    /// Anything else that begins with the word `ok`, `error` or `none`.
    Unclear,
}

/// Why a link broke.
#[derive(Clone, Copy, Debug, PartialEq, Eq)]
pub enum Cause {
    /// The request couldn't be written.
    Unsent,
    /// The answer couldn't be read.
    Unread,
    /// The peer's output ended before the answer.
    Closed,
    /// A line has more than 4,096 bytes.
    TooLong,
    /// Behind a request there were 10,000 lines that are no answer.
    TooMany,
    /// An answer came to nothing that was asked.
    Unasked,
    /// The answer is none that the request can have.
    Unclear,
    /// The word read is wider than the bus.
    TooWide,
    /// Something was asked of the backdoor, and a link has none.
    Backdoor,
    /// Memory was wanting.
    Memory,
}

impl From<AllocError> for Cause {
    ghost use Rattle.std.specs.Prelude.{◌≡◌};
    ghost use Rattle.rl_link.specs.declared.answer.Cause.{Cause};

    ghost from_gives = { λ _ cause. cause ≡ Cause.Memory };

    fn from(_: AllocError) -> Cause {
        Cause::Memory
    }
}

// Whether it is a digit as simulators print it where a bit is unknown, or isn't driven.
fn is_unknown_digit(digit: u8) -> bool
    ensures { result ≡ is_unknown_digit digit }
{
    matches!(digit, b'x' | b'X' | b'z' | b'Z')
}

fn has_hex_prefix(text: &[u8]) -> bool
    ensures { result ≡ has_hex_prefix text.now }
{
    text.len() > 1 && text[0] == b'0' && (text[1] == b'x' || text[1] == b'X')
}

// The digits of a word, without `0x` before them.
fn digits_in(text: &[u8]) -> &[u8]
    ensures { result.now ≡ digits_in text.now }
{
    if has_hex_prefix(text) {
        &text[2..]
    } else {
        text
    }
}

// Whether a digit is an unknown one, or hexadecimal.
fn is_any_digit(digit: u8) -> bool
    ensures { result ≡ is_any_digit digit }
{
    is_unknown_digit(digit) || char::from(digit).is_digit(16)
}

// Whether one of the digits is unknown.
fn has_unknown(digits: &[u8]) -> bool
    ensures { result ≡ list_any is_unknown_digit digits.now }
{
    digits.iter().any(|digit| is_unknown_digit(*digit))
}

// Whether each is an unknown one, or hexadecimal.
fn are_digits(digits: &[u8]) -> bool
    ensures { result ≡ list_all is_any_digit digits.now }
{
    digits.iter().all(|digit| is_any_digit(*digit))
}

// Whether a text is a word with unknown bits.
fn is_unknown_text(text: &[u8]) -> bool
    ensures { result ≡ is_unknown_text text.now }
{
    let digits = digits_in(text);
    has_unknown(digits) && are_digits(digits)
}

// What stands behind `ok`, where something does.
fn value_said(text: &[u8]) -> Said
    ensures { result ≡ value_said text.now }
{
    match read_number(text) {
        NumberText::Value(word) => Said::Word(word),
        NumberText::Bad | NumberText::TooLarge => {
            if is_unknown_text(text) {
                Said::Unknown
            } else {
                Said::Unclear
            }
        }
    }
}

// A line without the white space at its ends.
fn bare(line: &[u8]) -> &[u8]
    ensures { result.now ≡ bare line.now }
{
    line.trim_ascii()
}

// How many bytes stand before the first white space.
fn word_len(text: &[u8]) -> usize
    ensures len { result ≡ position_or_len is_ascii_whitespace text.now }
    ensures within { result ≤ length text.now }
{
    text.iter()
        .position(|byte| byte.is_ascii_whitespace())
        .unwrap_or(text.len())
}

// The bytes before the first white space.
fn first_word(text: &[u8]) -> &[u8]
    ensures { result.now ≡ first_word text.now }
{
    &text[..word_len(text)]
}

// What a word says that nothing stands behind.
fn sole(said: Said, rest: &[u8]) -> Said
    ensures { result ≡ sole said rest.now }
{
    if rest.is_empty() { said } else { Said::Unclear }
}

// What a word says, with what stands behind it.
fn said_behind(word: &[u8], rest: &[u8]) -> Said
    ensures { result ≡ said_behind word.now rest.now }
{
    if word == b"ok".as_slice() {
        if rest.is_empty() {
            Said::Done
        } else {
            value_said(rest)
        }
    } else if word == b"error".as_slice() {
        sole(Said::Error, rest)
    } else if word == b"none".as_slice() {
        sole(Said::Unable, rest)
    } else {
        Said::Nothing
    }
}

// What a text without white space at its ends says.
fn said_by(text: &[u8]) -> Said
    ensures { result ≡ said_by text.now }
{
    let word = first_word(text);
    said_behind(word, bare(&text[word.len()..]))
}

/// Whether it is a line that says nothing.
pub(crate) fn is_nothing(said: Said) -> bool
    ensures { result ≡ is_nothing said }
{
    matches!(said, Said::Nothing)
}

/// Whether it is a word with unknown bits.
pub(crate) fn is_unknown(said: Said) -> bool
    ensures { result ≡ is_unknown said }
{
    matches!(said, Said::Unknown)
}

// What a line says.
pub(crate) fn says(line: &[u8]) -> Said
    ensures { result ≡ said_in line.now }
{
    said_by(bare(line))
}

const FAILED: Answer = Answer {
    word: 0,
    failed: true,
};

fn read(word: u64) -> Answer
    ensures { result ≡ record { word = word; failed = false } }
{
    Answer {
        word,
        failed: false,
    }
}

// Whether a bus of this width carries the word.
fn fits(bytes: u8, word: u64) -> bool
    requires { IsWidth bytes }
    ensures { result ≡ nat_lt word (256 ^ bytes) }
{
    match bytes {
        1 => word < 0x100,
        2 => word < 0x1_0000,
        4 => word < 0x1_0000_0000,
        _ => true,
    }
}

// What is answered to a write by a line that says this.
fn written_by(said: Said) -> Result<Answer, Cause>
    ensures { result ≡ written_by said }
{
    match said {
        Said::Done => Ok(read(0)),
        Said::Error | Said::Unable => Ok(FAILED),
        Said::Nothing | Said::Word(_) | Said::Unknown | Said::Unclear => Err(Cause::Unclear),
    }
}

// What is answered to a read on a bus of this width.
fn read_by(bytes: u8, said: Said) -> Result<Answer, Cause>
    requires { IsWidth bytes }
    ensures { result ≡ read_by bytes said }
{
    match said {
        Said::Word(word) if fits(bytes, word) => Ok(read(word)),
        Said::Word(_) => Err(Cause::TooWide),
        Said::Unknown | Said::Unable | Said::Error => Ok(FAILED),
        Said::Nothing | Said::Done | Said::Unclear => Err(Cause::Unclear),
    }
}

// What is answered to a transfer.
pub(crate) fn answer_to(write: bool, bytes: u8, said: Said) -> Result<Answer, Cause>
    requires { IsWidth bytes }
    ensures answer { result ≡ answer_to write bytes said }
    ensures small { IfOk result (λ answer. answer.word < 256 ^ bytes) }
{
    if write {
        written_by(said)
    } else {
        read_by(bytes, said)
    }
}

// Whether what was asked, and is no transfer, was done.
pub(crate) fn done_by(said: Said) -> Result<bool, Cause>
    ensures { result ≡ done_by said }
{
    match said {
        Said::Done => Ok(true),
        Said::Error | Said::Unable => Ok(false),
        Said::Nothing | Said::Word(_) | Said::Unknown | Said::Unclear => Err(Cause::Unclear),
    }
}
