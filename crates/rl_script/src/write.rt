//! The canonical spelling of a line.
ghost use Rattle.std.specs.Prelude.{◌≡◌, ◌∷◌, [], ◌++◌, map, IfOk, OnOk};
ghost use Rattle.rl_policy.specs.Numbers.{spelled};
ghost use Rattle.rl_script.specs.Commands.{command_name, sequence_name};
ghost use Rattle.rl_script.specs.Spelling.{spaced, joined, map_words, numbers_in, said_words, burst_words};
ghost use Rattle.rl_script.specs.Spelling.{other_words, block_word, words_of_line, spelling, MayBeWritten};

use crate::command::{Command, Item};
use crate::line::{Line, Sequence};
use crate::line_ref::ItemLine;
use crate::names::{IdentRef, Path, name_ref};
use rl_policy::spell;
use std::alloc::{AllocError, Global};

/// Writes a line in its canonical spelling: single spaces, no comment, each number as `0x` and
/// lower-case digits with no zero in front, the map last. A blank line is the empty text.
#[tactic(auto, unfolding(crate::specs::Spelling::spelling))]
pub fn write_line(alloc: Global, line: &Line) -> Result<Vec<u8>, AllocError>
    requires { MayBeWritten line.now }
    ensures { IfOk result (λ text. text.items ≡ spelling line.now) }
{
    let mut out = Vec::new(alloc);
    put_line(&mut out, line)?;
    Ok(out)
}

fn put_line(out: &mut Vec<u8>, line: &Line) -> Result<(), AllocError>
    ensures { OnOk result (out.new.items ≡ out.old.items ++ joined (words_of_line line.now)) }
{
    match line.on_item() {
        Some(said) => put_item(out, &said),
        None => put_other(out, line),
    }
}

/// Writes a line that is on no one item, or has many values.
fn put_other(out: &mut Vec<u8>, line: &Line) -> Result<(), AllocError>
    ensures { OnOk result (out.new.items ≡ out.old.items ++ joined (other_words line.now)) }
{
    match line {
        Line::BurstWrite {
            mem,
            first,
            values,
            map,
        } => put_burst(out, mem, *first, values.items(), &name_ref(map)),
        Line::Reset { kind } => put_words(out, Command::Reset.name(), kind.text()),
        Line::Seq { which, block } => put_sequence(out, *which, block),
        _ => Ok(()),
    }
}

fn put_word(out: &mut Vec<u8>, word: &[u8]) -> Result<(), AllocError>
    ensures { OnOk result (out.new.items ≡ out.old.items ++ spaced (word.now ∷ [])) }
{
    out.push(b' ')?;
    out.extend_from_slice(word)
}

fn put_number(out: &mut Vec<u8>, number: u64) -> Result<(), AllocError>
    ensures { OnOk result (out.new.items ≡ out.old.items ++ spaced (spelled number ∷ [])) }
{
    let mut digits = [0u8; 16];
    let len = spell(&mut digits, number);
    out.extend_from_slice(b" 0x")?;
    out.extend_from_slice(&digits[..len])
}

fn put_numbers(out: &mut Vec<u8>, numbers: &[u64]) -> Result<(), AllocError>
    ensures { OnOk result (out.new.items ≡ out.old.items ++ spaced (map spelled numbers.now)) }
{
    for number in numbers {
        put_number(out, *number)?;
    }
    Ok(())
}

/// Writes as many of two numbers as a command has.
fn put_as_many(out: &mut Vec<u8>, item: Item, first: u64, second: u64) -> Result<(), AllocError>
    ensures { OnOk result (out.new.items ≡ out.old.items ++ spaced (map spelled (numbers_in item first second))) }
{
    match item.row().numbers {
        0 => Ok(()),
        1 => put_number(out, first),
        _ => put_numbers(out, &[first, second]),
    }
}

fn put_map(out: &mut Vec<u8>, map: &Option<IdentRef<'_>>) -> Result<(), AllocError>
    ensures { OnOk result (out.new.items ≡ out.old.items ++ spaced (map_words map.now)) }
{
    match map {
        Some(name) => {
            out.extend_from_slice(b" @")?;
            out.extend_from_slice(name.text())
        }
        None => Ok(()),
    }
}

/// Writes a command and one word.
fn put_words(out: &mut Vec<u8>, name: &[u8], word: &[u8]) -> Result<(), AllocError>
    ensures { OnOk result (out.new.items ≡ out.old.items ++ joined (name.now ∷ word.now ∷ [])) }
{
    out.extend_from_slice(name)?;
    put_word(out, word)
}

fn put_item(out: &mut Vec<u8>, said: &ItemLine<'_>) -> Result<(), AllocError>
    ensures { OnOk result (out.new.items ≡ out.old.items ++ joined (said_words said.now)) }
{
    put_words(out, said.item.name(), said.path.text())?;
    put_as_many(out, said.item, said.first, said.second)?;
    put_map(out, &said.map)
}

fn put_burst(
    out: &mut Vec<u8>,
    mem: &Path,
    first: u64,
    values: &[u64],
    map: &Option<IdentRef<'_>>,
) -> Result<(), AllocError>
    ensures { OnOk result (out.new.items ≡ out.old.items ++ joined (burst_words mem.now first values.now map.now)) }
{
    put_words(out, Command::BurstWrite.name(), mem.text())?;
    put_number(out, first)?;
    put_numbers(out, values)?;
    put_map(out, map)
}

fn put_sequence(out: &mut Vec<u8>, which: Sequence, block: &Option<Path>) -> Result<(), AllocError>
    ensures { OnOk result (out.new.items ≡ out.old.items
        ++ joined (command_name Command.Seq ∷ sequence_name which ∷ block_word block.now ∷ [])) }
{
    put_words(out, Command::Seq.name(), which.name())?;
    match block {
        Some(path) => put_word(out, path.text()),
        None => put_word(out, b"*"),
    }
}
