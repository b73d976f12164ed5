// Flaws as rows of a description.
ghost use Rattle.std.specs.Prelude.{◌≡◌, ◌++◌, OnOk};
ghost use Rattle.rl_flaw.specs.Flaws.{IsFlawOf};
ghost use Rattle.rl_grade_report.specs.Row.{found_row, found_text, line_note, rows_text};
ghost use Rattle.rl_grade_report.specs.Verdict.{AreJudged};

use crate::keys::{Form, push_flaw};
use crate::pieces::push_after;
use crate::verdict::{Judged, Verdict};
use rl_map::Layout;
use rl_model::Chip;
use std::alloc::AllocError;

/// Appends each flaw of which this is said as a row of a description.
///
/// # Errors
///
/// Want of memory.
pub fn push_rows(
    text: &mut Vec<u8>,
    chip: &Chip,
    layout: &Layout,
    judged: &[Judged],
    verdict: Verdict,
) -> Result<(), AllocError>
    requires { AreJudged chip.now layout.now judged.now }
    ensures { OnOk result (text.new.items ≡ text.old.items ++ rows_text chip.now layout.now judged.now verdict) }
{
    for it in judged {
        if it.has(verdict) {
            push_flaw(text, Form::Row, chip, layout, it.flaw)?;
        }
    }
    Ok(())
}

// Appends the number of the line that finds a flaw, as a comment.
#[tactic(auto, unfolding(rl_report::specs::Pieces::joined))]
fn push_note(text: &mut Vec<u8>, line: u64) -> Result<(), AllocError>
    ensures { OnOk result (text.new.items ≡ text.old.items ++ line_note line) }
{
    push_after(text, b"# line ", line)?;
    text.extend_from_slice(b"\n")?;
    Ok(())
}

// Appends a flaw that is found as a row behind the line that finds it first.
fn push_found(
    text: &mut Vec<u8>,
    chip: &Chip,
    layout: &Layout,
    it: &Judged,
) -> Result<(), AllocError>
    requires { IsFlawOf chip.now layout.now it.now.flaw }
    ensures { OnOk result (text.new.items ≡ text.old.items ++ found_row chip.now layout.now it.now) }
{
    let Ok(find) = it.found else {
        return Ok(());
    };
    push_note(text, find.line)?;
    push_flaw(text, Form::Row, chip, layout, it.flaw)
}

/// Appends each flaw that is found as a row of a description, after a comment with the number of the line of the
/// script that finds it first.
///
/// # Errors
///
/// Want of memory.
pub fn push_found_rows(
    text: &mut Vec<u8>,
    chip: &Chip,
    layout: &Layout,
    judged: &[Judged],
) -> Result<(), AllocError>
    requires { AreJudged chip.now layout.now judged.now }
    ensures { OnOk result (text.new.items ≡ text.old.items ++ found_text chip.now layout.now judged.now) }
{
    for it in judged {
        push_found(text, chip, layout, it)?;
    }
    Ok(())
}
