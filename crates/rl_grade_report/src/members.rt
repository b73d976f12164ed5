// The members of a group of flaws: bits and items by number, policies by name, addresses.
ghost use Rattle.std.specs.Prelude.{◌≡◌, ◌++◌, ◌<◌, [], ◌∷◌, codes, length, map, All, OnOk, IfOk};
ghost use Rattle.rl_flaw.specs.Flaws.{IsFlawOf};
ghost use Rattle.rl_grade_report.specs.Members.{follows, number_text, ranges_text, wrong_bit, number_of, word_text};
ghost use Rattle.rl_grade_report.specs.Members.{words_text, policies_text, members_text};
ghost use Rattle.rl_policy.specs.Names.{name_of};
ghost use Rattle.rl_policy.specs.Numbers.{hex_digits};
ghost use Rattle.rl_report.specs.Pieces.{joined};

use itoa::Buffer;
use rl_bench::Flaw;
use rl_map::Layout;
use rl_model::Chip;
use rl_policy::{POLICIES, Policy, spell};
use rl_session::{front, push_pieces};
use std::alloc::{AllocError, Global};

// Whether the number at a place is one more than the one before it.
fn follows(numbers: &[u64], place: usize) -> bool
    ensures { result ≡ follows numbers.now place }
{
    if place == 0 || place >= numbers.len() {
        return false;
    }
    let before = numbers[place - 1];
    let here = numbers[place];
    before < here && here - before == 1
}

// Appends the number at a place: behind a space where a run begins, behind a dash where a longer one ends.
fn push_number(text: &mut Vec<u8>, numbers: &[u64], place: usize) -> Result<(), AllocError>
    requires { place < length numbers.now }
    ensures { OnOk result (text.new.items ≡ text.old.items ++ number_text numbers.now place) }
{
    let mut digits = Buffer::new();
    let number = digits.format(numbers[place]).as_bytes();
    if !follows(numbers, place) {
        let pieces: [&[u8]; 2] = [b" ", number];
        return push_pieces(text, &pieces);
    }
    if !follows(numbers, place + 1) {
        let pieces: [&[u8]; 2] = [b"-", number];
        return push_pieces(text, &pieces);
    }
    Ok(())
}

// Appends ascending numbers by their runs.
fn push_ranges(text: &mut Vec<u8>, numbers: &[u64]) -> Result<(), AllocError>
    ensures { OnOk result (text.new.items ≡ text.old.items ++ ranges_text numbers.now) }
{
    for place in 0..numbers.len() {
        push_number(text, numbers, place)?;
    }
    Ok(())
}

// The bit in which a value of a reset is wrong.
fn wrong_bit(chip: &Chip, field: u32, kind: u32, value: u64) -> u64
    requires field { field < length chip.now.fields }
    requires kind { kind < length chip.now.kinds }
    ensures { result ≡ wrong_bit chip.now field kind value }
{
    let right = chip.reset_of(field, kind).unwrap_or(0);
    u64::from((value ^ right).trailing_zeros())
}

// The number by which a flaw is told among those of its sort.
fn number_of(chip: &Chip, layout: &Layout, flaw: Flaw) -> u64
    requires { IsFlawOf chip.now layout.now flaw }
    ensures { result ≡ number_of chip.now flaw }
{
    match flaw {
        Flaw::Stuck { bit, .. } => u64::from(bit),
        Flaw::OtherReset { field, kind, value } => wrong_bit(chip, field, kind, value),
        Flaw::ErrorNth { nth } => nth,
        Flaw::OtherPolicy { .. } | Flaw::ErrorRange { .. } | Flaw::Deaf { .. } => 0,
    }
}

// The numbers of these flaws.
fn numbers_of(
    alloc: Global,
    chip: &Chip,
    layout: &Layout,
    flaws: &[Flaw],
) -> Result<Vec<u64>, AllocError>
    requires { All (IsFlawOf chip.now layout.now) flaws.now }
    ensures { IfOk result (λ numbers. numbers.items ≡ map (number_of chip.now) flaws.now) }
{
    let mut numbers = Vec::new(alloc);
    for flaw in flaws {
        numbers.push(number_of(chip, layout, *flaw))?;
    }
    Ok(numbers)
}

fn push_policy(text: &mut Vec<u8>, policy: Policy) -> Result<(), AllocError>
    ensures { OnOk result (text.new.items ≡ text.old.items ++ joined (codes " " ∷ name_of policy ∷ [])) }
{
    let pieces: [&[u8]; 2] = [b" ", policy.name().as_bytes()];
    push_pieces(text, &pieces)
}

fn push_address(text: &mut Vec<u8>, address: u64) -> Result<(), AllocError>
    ensures { OnOk result (text.new.items ≡ text.old.items ++ joined (codes " 0x" ∷ hex_digits address ∷ [])) }
{
    let mut digits = [0u8; 16];
    let len = spell(&mut digits, address);
    let pieces: [&[u8]; 2] = [b" 0x", front(&digits, len)];
    push_pieces(text, &pieces)
}

// Appends the word by which a flaw is told among those of its sort.
fn push_word(text: &mut Vec<u8>, flaw: Flaw) -> Result<(), AllocError>
    ensures { OnOk result (text.new.items ≡ text.old.items ++ word_text flaw) }
{
    match flaw {
        Flaw::OtherPolicy { policy, .. } => push_policy(text, policy),
        Flaw::ErrorRange { from, .. } => push_address(text, from),
        Flaw::Stuck { .. } | Flaw::OtherReset { .. } | Flaw::ErrorNth { .. } | Flaw::Deaf { .. } =>
            Ok(()),
    }
}

fn push_words(text: &mut Vec<u8>, flaws: &[Flaw]) -> Result<(), AllocError>
    ensures { OnOk result (text.new.items ≡ text.old.items ++ words_text flaws.now) }
{
    for flaw in flaws {
        push_word(text, *flaw)?;
    }
    Ok(())
}

// Appends what the flaws of one sort are told by, of which this is one.
pub(crate) fn push_members(
    alloc: Global,
    text: &mut Vec<u8>,
    chip: &Chip,
    layout: &Layout,
    one: Flaw,
    flaws: &[Flaw],
) -> Result<(), AllocError>
    requires { All (IsFlawOf chip.now layout.now) flaws.now }
    ensures { OnOk result (text.new.items ≡ text.old.items ++ members_text chip.now one flaws.now) }
{
    match one {
        Flaw::Stuck { .. } | Flaw::OtherReset { .. } | Flaw::ErrorNth { .. } => {
            let numbers = numbers_of(alloc, chip, layout, flaws)?;
            push_ranges(text, &numbers)
        }
        Flaw::OtherPolicy { .. } => push_policies(text, flaws),
        Flaw::ErrorRange { .. } | Flaw::Deaf { .. } => push_words(text, flaws),
    }
}

fn push_policies(text: &mut Vec<u8>, flaws: &[Flaw]) -> Result<(), AllocError>
    ensures { OnOk result (text.new.items ≡ text.old.items ++ policies_text flaws.now) }
{
    if flaws.len() + 1 < POLICIES.len() {
        return push_words(text, flaws);
    }
    let mut digits = Buffer::new();
    let pieces: [&[u8]; 2] = [b" all ", digits.format(flaws.len()).as_bytes()];
    push_pieces(text, &pieces)
}
