// The line of a place.
ghost use Rattle.std.specs.Prelude.{◌≡◌, ◌++◌, ◌<◌, length, OnOk};
ghost use Rattle.rl_grade.specs.Place.{IsPlaceIn};
ghost use Rattle.rl_grade_report.specs.Lines.{field_name, line_text, place_name, said_text, told_text, unfound_text};
ghost use Rattle.rl_grade_report.specs.Verdict.{AreJudged};

use crate::counts::{CountForm, push_counts};
use crate::groups::push_groups;
use crate::verdict::{Judged, VERDICTS, Verdict, flaws_with};
use rl_grade::Place;
use rl_map::Layout;
use rl_model::{Chip, Item};
use std::alloc::{AllocError, Global};

// Appends the path of a field's register, a dot, and its name.
pub(crate) fn push_field(text: &mut Vec<u8>, chip: &Chip, field: u32) -> Result<(), AllocError>
    requires { field < length chip.now.fields }
    ensures { OnOk result (text.new.items ≡ text.old.items ++ field_name chip.now field) }
{
    let reg = chip.field(field).reg;
    text.extend_from_slice(chip.path(Item::Reg(reg)))?;
    text.extend_from_slice(b".")?;
    text.extend_from_slice(chip.field_name(field))
}

fn push_place(text: &mut Vec<u8>, chip: &Chip, place: Place) -> Result<(), AllocError>
    requires { IsPlaceIn chip.now place }
    ensures { OnOk result (text.new.items ≡ text.old.items ++ place_name chip.now place) }
{
    match place {
        Place::OfItem(item) => text.extend_from_slice(chip.path(item)),
        Place::OfField(field) => push_field(text, chip, field),
        Place::OfSession => text.extend_from_slice(b"session"),
    }
}

// Appends the flaws of which this is said, in words.
fn push_said(
    alloc: Global,
    text: &mut Vec<u8>,
    chip: &Chip,
    layout: &Layout,
    judged: &[Judged],
    verdict: Verdict,
) -> Result<(), AllocError>
    requires { AreJudged chip.now layout.now judged.now }
    ensures { OnOk result (text.new.items ≡ text.old.items ++ said_text chip.now layout.now judged.now verdict) }
{
    let flaws = flaws_with(alloc, judged, verdict)?;
    push_groups(alloc, text, verdict.lead(), chip, layout, &flaws)
}

// Appends those that aren't found, by what is said of them.
fn push_unfound(
    alloc: Global,
    text: &mut Vec<u8>,
    chip: &Chip,
    layout: &Layout,
    judged: &[Judged],
) -> Result<(), AllocError>
    requires { AreJudged chip.now layout.now judged.now }
    ensures { OnOk result (text.new.items ≡ text.old.items ++ unfound_text chip.now layout.now judged.now) }
{
    for verdict in VERDICTS {
        push_said(alloc, text, chip, layout, judged, verdict)?;
    }
    Ok(())
}

// Appends the line of a place where some were tried.
fn push_told(
    alloc: Global,
    text: &mut Vec<u8>,
    chip: &Chip,
    layout: &Layout,
    place: Place,
    judged: &[Judged],
) -> Result<(), AllocError>
    requires place { IsPlaceIn chip.now place }
    requires flaws { AreJudged chip.now layout.now judged.now }
    ensures { OnOk result (text.new.items ≡ text.old.items ++ told_text chip.now layout.now place judged.now) }
{
    push_place(text, chip, place)?;
    push_counts(text, judged, b": ", CountForm::Words)?;
    push_unfound(alloc, text, chip, layout, judged)?;
    text.extend_from_slice(b"\n")
}

/// Appends the line of a place: what it is called, how many of its flaws are found, missed, hidden and waived by kind,
/// and those that aren't found in words. Where none was tried there is no line.
///
/// # Errors
///
/// Want of memory.
pub fn push_line(
    alloc: Global,
    text: &mut Vec<u8>,
    chip: &Chip,
    layout: &Layout,
    place: Place,
    judged: &[Judged],
) -> Result<(), AllocError>
    requires place { IsPlaceIn chip.now place }
    requires flaws { AreJudged chip.now layout.now judged.now }
    ensures { OnOk result (text.new.items ≡ text.old.items ++ line_text chip.now layout.now place judged.now) }
{
    if judged.is_empty() {
        return Ok(());
    }
    push_told(alloc, text, chip, layout, place, judged)
}
