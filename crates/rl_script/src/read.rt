//! What a line says.
ghost use Rattle.std.specs.Prelude.{◌≡◌, ◌≢◌, ◌-◌, length, drop, Ok, Err, IfOk, MatchResult};
ghost use Rattle.rl_script.specs.declared.fault.LineFault.TheVariants.{Memory};
ghost use Rattle.std.specs.List.{list_all};
ghost use Rattle.rl_script.specs.Words.{words_of};
ghost use Rattle.rl_script.specs.Reading.{AreAscii, Gives, read_of, item_of, burst_of, reset_of, seq_of};
ghost use Rattle.rl_script.specs.Spelling.{IsLine, HasGoodCount};
ghost use Rattle.rl_script.specs.Kept.{kept_burst_at};
ghost use Rattle.rl_script.specs.Cut.{operands_of};
ghost use Rattle.rl_script.specs.Said.{line_said};
ghost use Rattle.rl_script.specs.Reading as spec;

use crate::command::{Command, Item};
use crate::fault::LineFault;
use crate::line::{Line, Sequence};
use crate::line_ref::{ItemLine, LineRef};
use crate::operands::{
    block_of, map_if, map_of, map_word, name_of, number_at, numbers_at, path_at, path_of, value_if,
    word_at, word_or,
};
use crate::values::Values;
use crate::words::{count_words, next_word};
use std::alloc::Global;

const MOST_BYTES: usize = 4096;

/// Reads a line, without its line end: what it says, or the first condition that it fails.
///
/// Memory is taken for the paths, names and values of the answer alone.
///
/// # Examples
///
/// ```text
/// let line = read_line(alloc, b"write  a 5 @bus # once")?;
/// write_line(alloc, &line)? == b"write a 0x5 @bus"
/// read_line(alloc, b"write a") == Err(LineFault::WrongCount)
/// read_line(alloc, b"write a 5x") == Err(LineFault::BadNumber)
/// ```
pub fn read_line(alloc: Global, bytes: &[u8]) -> Result<Line, LineFault>
    // Which line or which fault it is, unless memory runs out.
    ensures read { MatchResult result (λ line. read_of bytes.now ≡ Ok line)
        (λ fault. fault ≢ Memory → read_of bytes.now ≡ Err fault) }
    // Paths are paths, names are names, and counts are in range.
    ensures line { IfOk result (λ line. IsLine line × HasGoodCount line) }
{
    let line = read_line_ref(alloc, bytes)?;
    Ok(line.into_line(alloc)?)
}

/// Reads a line as `read_line` does, and leaves its paths and names where they are.
///
/// Memory is taken for the values of a burst alone.
#[tactic(auto, unfolding(crate::specs::Reading::read_of, crate::specs::Reading::by_words))]
pub fn read_line_ref(alloc: Global, bytes: &[u8]) -> Result<LineRef<'_>, LineFault>
    // Which line or which fault it is, unless memory runs out.
    ensures { MatchResult result (λ line. read_of bytes.now ≡ Ok (line_said line))
        (λ fault. fault ≢ Memory → read_of bytes.now ≡ Err fault) }
{
    if bytes.len() > MOST_BYTES {
        return Err(LineFault::TooLong);
    }
    if !are_ascii(bytes) {
        return Err(LineFault::NotAscii);
    }
    let Some((word, rest)) = next_word(bytes) else {
        return Ok(LineRef::Blank);
    };
    // By `return`, since the value of a `match` is copied once more.
    match Command::named(word) {
        Some(Command::OnItem(item)) => return read_item(item, rest),
        Some(Command::BurstWrite) => return read_burst_write(alloc, rest),
        Some(Command::Reset) => return read_reset(rest),
        Some(Command::Seq) => return read_seq(rest),
        None => return Err(LineFault::NoSuchCommand),
    }
}

fn is_ascii(byte: u8) -> bool
    ensures { result ≡ spec.is_ascii byte }
{
    matches!(byte, b'\t' | b' '..=b'~')
}

fn all_ascii(bytes: &[u8]) -> bool
    ensures { result ≡ list_all spec.is_ascii bytes.now }
{
    // To the end, with no branch in between, so that many bytes are tested at once.
    bytes.iter().fold(true, |all, byte| all & is_ascii(*byte))
}

/// By chunks of 16 bytes, since a chunk is tested at once and a byte by itself takes as long. The
/// last chunk goes first, and the others may end within it.
fn are_ascii(bytes: &[u8]) -> bool
    ensures { result ≡ list_all spec.is_ascii bytes.now }
{
    match bytes.split_last_chunk::<16>() {
        Some((_, last)) => all_ascii(last) && chunks_are_ascii(bytes),
        None => all_ascii(bytes),
    }
}

fn chunks_are_ascii(bytes: &[u8]) -> bool
    requires { AreAscii (drop (length bytes.now - 16) bytes.now) }
    ensures { result ≡ list_all spec.is_ascii bytes.now }
{
    let mut rest = bytes;
    while let Some((chunk, after)) = rest.split_first_chunk::<16>() {
        if !all_ascii(chunk) {
            return false;
        }
        rest = after;
    }
    true
}

/// A command on an item. Its words are cut from the left, in place of being counted first.
#[tactic(auto, unfolding(crate::proofs::CutLemmas::item_cut), using(crate::proofs::CutLemmas::cut_is))]
fn read_item(item: Item, text: &[u8]) -> Result<LineRef<'_>, LineFault>
    requires { AreAscii text.now }
    ensures { Gives line_said result (item_of item (words_of text.now)) }
{
    let row = item.row();
    let (path, rest) = word_at(text)?;
    let (first, rest) = word_or(row.numbers >= 1, path, rest)?;
    let (second, rest) = word_or(row.numbers >= 2, first, rest)?;
    let (named, map) = map_word(row.map, second, rest)?;
    read_operands(item, path, first, second, named, map)
}

/// The operands, once it is known that there are as many words as there should be.
// Inlined, so that the answer doesn't go through memory.
#[inline(always)]
#[tactic(auto, unfolding(crate::specs::Cut::operands_of))]
fn read_operands<'a>(
    item: Item,
    path: &'a [u8],
    first: &[u8],
    second: &[u8],
    named: bool,
    map: &'a [u8],
) -> Result<LineRef<'a>, LineFault>
    ensures { Gives line_said result (operands_of item path.now first.now second.now named map.now) }
{
    let numbers = item.row().numbers;
    let path = path_of(path)?;
    let first = value_if(numbers >= 1, first)?;
    let second = value_if(numbers >= 2, second)?;
    let map = map_of(named, map)?;
    if !item.may_count(second) {
        return Err(LineFault::CountOutOfRange);
    }
    Ok(LineRef::OnItem(ItemLine {
        item,
        path,
        first,
        second,
        map,
    }))
}

fn read_burst_write(alloc: Global, text: &[u8]) -> Result<LineRef<'_>, LineFault>
    requires { AreAscii text.now }
    ensures { Gives line_said result (burst_of (words_of text.now)) }
{
    let words = count_words(false, text);
    let fixed = 2 + usize::from(words.has_map);
    if words.count <= fixed {
        return Err(LineFault::WrongCount);
    }
    read_burst(alloc, words.count - fixed, words.has_map, text)
}

#[tactic(auto, unfolding(crate::specs::Kept::kept_burst_at, crate::specs::Reading::burst_by))]
fn read_burst(
    alloc: Global,
    count: usize,
    named: bool,
    text: &[u8],
) -> Result<LineRef<'_>, LineFault>
    requires { AreAscii text.now }
    ensures { Gives line_said result (kept_burst_at count named (words_of text.now)) }
{
    let (mem, rest) = path_at(text)?;
    let (first, rest) = number_at(rest)?;
    let (values, rest) = numbers_at(alloc, count, rest)?;
    let map = map_if(named, rest)?;
    let values = Values::of(values).ok_or(LineFault::CountOutOfRange)?;
    Ok(LineRef::BurstWrite {
        mem,
        first,
        values,
        map,
    })
}

#[tactic(auto, unfolding(crate::specs::Reading::reset_of))]
fn read_reset(text: &[u8]) -> Result<LineRef<'_>, LineFault>
    requires { AreAscii text.now }
    ensures { Gives line_said result (reset_of (words_of text.now)) }
{
    if count_words(false, text).count != 1 {
        return Err(LineFault::WrongCount);
    }
    let (word, _) = word_at(text)?;
    let kind = name_of(word)?;
    Ok(LineRef::Reset { kind })
}

#[tactic(auto, unfolding(crate::specs::Reading::seq_of))]
fn read_seq(text: &[u8]) -> Result<LineRef<'_>, LineFault>
    requires { AreAscii text.now }
    ensures { Gives line_said result (seq_of (words_of text.now)) }
{
    let Some((word, rest)) = next_word(text) else {
        return Err(LineFault::NoSuchCommand);
    };
    let Some(which) = Sequence::named(word) else {
        return Err(LineFault::NoSuchCommand);
    };
    if count_words(false, rest).count != 1 {
        return Err(LineFault::WrongCount);
    }
    let (word, _) = word_at(rest)?;
    let block = block_of(word)?;
    Ok(LineRef::Seq { which, block })
}
