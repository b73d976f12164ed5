// Flaws that are tried at once, of each register one at most.
ghost use Rattle.std.specs.Prelude.{◌≡◌, ◌<◌, [], ◌∷◌, ◌++◌, All, None, is_none, length, slice_index_or};
ghost use Rattle.std.specs.Prelude.{IfOk, IfSome, OnOk};
ghost use Rattle.rl_grade.specs.Batch.{AreChosen, chosen_flaws, with_answer, with_answers};
ghost use Rattle.rl_grade.specs.Hidden.{IsThere};

use crate::grade::Graded;
use crate::register::{blank, keep_number, register_with};
use crate::seen::Find;
use rl_bench::Flaw;
use rl_model::Chip;
use std::alloc::{AllocError, Global};

// Whether the flaw of a number has no answer yet.
fn is_open(known: &[Option<Graded>], number: usize) -> bool
    ensures { result ≡ is_none (slice_index_or known.now number None) }
{
    number >= known.len() || known[number].is_none()
}

/// Chooses of each register the first flaw that has no answer yet, by its number.
pub(crate) fn choose(
    alloc: Global,
    chip: &Chip,
    flaws: &[Flaw],
    known: &[Option<Graded>],
) -> Result<Vec<Option<usize>>, AllocError>
    requires { All (IsThere chip.now) flaws.now }
    ensures { IfOk result (λ chosen. AreChosen chip.now flaws.now chosen.items) }
{
    let mut chosen = blank(alloc, chip.regs() as usize)?;
    for number in 0..flaws.len() {
        if is_open(known, number) {
            let reg = register_with(chip, flaws[number]);
            keep_number(&mut chosen, reg, number);
        }
    }
    Ok(chosen)
}

// Appends a flaw, if one is chosen.
fn push_chosen(
    batch: &mut Vec<Flaw>,
    flaws: &[Flaw],
    number: Option<usize>,
) -> Result<(), AllocError>
    requires { IfSome number (λ number. number < length flaws.now) }
    ensures { OnOk result (batch.new.items ≡ batch.old.items ++ chosen_flaws flaws.now (number ∷ [])) }
{
    if let Some(number) = number {
        batch.push(flaws[number])?;
    }
    Ok(())
}

/// The flaws that are chosen, register by register.
pub(crate) fn batch_of(
    alloc: Global,
    flaws: &[Flaw],
    chosen: &[Option<usize>],
) -> Result<Vec<Flaw>, AllocError>
    requires { All (λ number. IfSome number (λ number. number < length flaws.now)) chosen.now }
    ensures { IfOk result (λ batch. batch.items ≡ chosen_flaws flaws.now chosen.now) }
{
    let mut batch = Vec::new(alloc);
    for number in chosen {
        push_chosen(&mut batch, flaws, *number)?;
    }
    Ok(batch)
}

// Keeps the answer of a flaw, if one is chosen.
fn keep_answer(
    known: &mut Vec<Option<Graded>>,
    flaws: &[Flaw],
    number: Option<usize>,
    found: Option<Find>,
)
    requires { IfSome number (λ number. number < length flaws.now) }
    ensures { known.new.items ≡ with_answer flaws.now number found known.old.items }
{
    if let Some(number) = number {
        if number < known.len() {
            known[number] = Some(Graded {
                flaw: flaws[number],
                found,
            });
        }
    }
}

/// Keeps the answers of the chosen flaws, each the find of its register.
pub(crate) fn keep_answers(
    known: &mut Vec<Option<Graded>>,
    flaws: &[Flaw],
    chosen: &[Option<usize>],
    found: &[Option<Find>],
)
    requires inside { All (λ number. IfSome number (λ number. number < length flaws.now)) chosen.now }
    requires size { length found.now ≡ length chosen.now }
    ensures { known.new.items ≡ with_answers flaws.now chosen.now found.now known.old.items }
{
    for reg in 0..chosen.len() {
        keep_answer(known, flaws, chosen[reg], found[reg]);
    }
}
