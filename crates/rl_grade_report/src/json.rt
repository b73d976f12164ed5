// A grading as one object in JSON. Names of a description need no escapes.
ghost use Rattle.std.specs.Prelude.{◌≡◌, ◌++◌, OnOk};
ghost use Rattle.rl_grade_report.specs.Json.{bound_json, counted_json, facts_json, head_json, json_text};
ghost use Rattle.rl_grade_report.specs.Json.{least_json, lists_json, mark_json, missed_json, passed_json, percent_json};
ghost use Rattle.rl_grade_report.specs.Json.{percents_json, share_json, totals_json};
ghost use Rattle.rl_grade_report.specs.Verdict.{AreJudged};

use crate::asked::Asked;
use crate::counts::{CountForm, push_counts};
use crate::facts::Facts;
use crate::keys::{Form, push_flaw, push_hex};
use crate::pieces::{lead, push_after, push_count_if, push_number};
use crate::totals::{Totals, push_tenths, tenths};
use crate::verdict::{Judged, Verdict};
use rl_grade::Share;
use rl_map::Layout;
use rl_model::Chip;
use rl_session::push_pieces;
use std::alloc::AllocError;

fn push_mark(text: &mut Vec<u8>, mark: Option<u64>) -> Result<(), AllocError>
    ensures { OnOk result (text.new.items ≡ text.old.items ++ mark_json mark) }
{
    let Some(mark) = mark else {
        return text.extend_from_slice(b"null");
    };
    push_hex(text, mark)
}

fn push_facts(text: &mut Vec<u8>, facts: Facts) -> Result<(), AllocError>
    ensures { OnOk result (text.new.items ≡ text.old.items ++ facts_json facts) }
{
    text.extend_from_slice(b"{\"session\": {\"mark\": ")?;
    push_mark(text, facts.mark)?;
    push_after(text, b", \"lines\": ", facts.lines)?;
    push_after(text, b", \"events\": ", facts.events)?;
    push_after(text, b", \"items\": ", facts.items)?;
    text.extend_from_slice(b"},\n")?;
    Ok(())
}

#[tactic(auto, unfolding(rl_report::specs::Pieces::joined))]
fn push_share(text: &mut Vec<u8>, share: Share) -> Result<(), AllocError>
    ensures { OnOk result (text.new.items ≡ text.old.items ++ share_json share) }
{
    push_after(text, b"\"share\": {\"first\": ", share.first)?;
    push_after(text, b", \"every\": ", share.every)?;
    text.extend_from_slice(b"},\n")?;
    Ok(())
}

fn push_percent(text: &mut Vec<u8>, found: u64, flaws: u64) -> Result<(), AllocError>
    ensures { OnOk result (text.new.items ≡ text.old.items ++ percent_json found flaws) }
{
    if flaws == 0 {
        return text.extend_from_slice(b"null");
    }
    push_tenths(text, tenths(found, flaws))
}

fn push_counted(text: &mut Vec<u8>, totals: Totals) -> Result<(), AllocError>
    ensures { OnOk result (text.new.items ≡ text.old.items ++ counted_json totals) }
{
    push_after(text, b"\"flaws\": ", totals.flaws)?;
    push_after(text, b", \"found\": ", totals.found)?;
    push_after(text, b", \"missed\": ", totals.missed())?;
    push_after(text, b", \"hidden\": ", totals.hidden)?;
    push_count_if(text, b", \"waived\": ", totals.waived, b"")?;
    push_count_if(text, b", \"needless\": ", totals.needless, b"")?;
    Ok(())
}

fn push_percents(text: &mut Vec<u8>, totals: Totals) -> Result<(), AllocError>
    ensures { OnOk result (text.new.items ≡ text.old.items ++ percents_json totals) }
{
    text.extend_from_slice(b", \"percent\": ")?;
    push_percent(text, totals.found, totals.flaws)?;
    text.extend_from_slice(b", \"percent_findable\": ")?;
    push_percent(text, totals.found, totals.findable())?;
    text.extend_from_slice(b",\n")
}

fn push_totals(text: &mut Vec<u8>, totals: Totals) -> Result<(), AllocError>
    ensures { OnOk result (text.new.items ≡ text.old.items ++ totals_json totals) }
{
    push_counted(text, totals)?;
    push_percents(text, totals)
}

fn push_least(text: &mut Vec<u8>, bound: Option<u64>) -> Result<(), AllocError>
    ensures { OnOk result (text.new.items ≡ text.old.items ++ least_json bound) }
{
    let Some(percent) = bound else {
        return text.extend_from_slice(b"null");
    };
    push_number(text, percent)
}

fn passed_json(is_below: bool) -> &'static [u8]
    ensures { result.now ≡ passed_json is_below }
{
    if is_below { b"false" } else { b"true" }
}

fn push_bound(text: &mut Vec<u8>, bound: Option<u64>, totals: Totals) -> Result<(), AllocError>
    ensures { OnOk result (text.new.items ≡ text.old.items ++ bound_json bound totals) }
{
    text.extend_from_slice(b"\"at_least\": ")?;
    push_least(text, bound)?;
    let pieces: [&[u8]; 3] = [
        b", \"passed\": ",
        passed_json(totals.is_below(bound)),
        b",\n",
    ];
    push_pieces(text, &pieces)
}

// Appends the missed flaws.
fn push_missed(
    text: &mut Vec<u8>,
    chip: &Chip,
    layout: &Layout,
    judged: &[Judged],
) -> Result<(), AllocError>
    requires { AreJudged chip.now layout.now judged.now }
    ensures { OnOk result (text.new.items ≡ text.old.items ++ missed_json chip.now layout.now judged.now) }
{
    let mut told = false;
    for it in judged {
        if it.has(Verdict::Missed) {
            text.extend_from_slice(lead(told, b""))?;
            push_flaw(text, Form::Object, chip, layout, it.flaw)?;
            told = true;
        }
    }
    Ok(())
}

// Appends what stands before the lists.
fn push_head(
    text: &mut Vec<u8>,
    asked: Asked,
    facts: Facts,
    totals: Totals,
) -> Result<(), AllocError>
    ensures { OnOk result (text.new.items ≡ text.old.items ++ head_json asked facts totals) }
{
    push_facts(text, facts)?;
    push_share(text, asked.share)?;
    push_totals(text, totals)?;
    push_bound(text, asked.bound, totals)
}

// Appends the lists.
fn push_lists(
    text: &mut Vec<u8>,
    chip: &Chip,
    layout: &Layout,
    judged: &[Judged],
) -> Result<(), AllocError>
    requires { AreJudged chip.now layout.now judged.now }
    ensures { OnOk result (text.new.items ≡ text.old.items ++ lists_json chip.now layout.now judged.now) }
{
    text.extend_from_slice(b"\"by_kind\": {")?;
    push_counts(text, judged, b"", CountForm::Member)?;
    text.extend_from_slice(b"},\n\"missed_flaws\": [")?;
    push_missed(text, chip, layout, judged)?;
    text.extend_from_slice(b"]}\n")
}

/// Appends one object in JSON. It has the session, which share of its flaws was tried, and how many were found, missed,
/// hidden and, where there are some, waived, in all and by kind. It says whether they are enough, and has those that
/// are missed, each with the keys of its row in a description.
///
/// # Errors
///
/// Want of memory.
pub fn push_json(
    text: &mut Vec<u8>,
    asked: Asked,
    facts: Facts,
    chip: &Chip,
    layout: &Layout,
    judged: &[Judged],
) -> Result<(), AllocError>
    requires { AreJudged chip.now layout.now judged.now }
    ensures { OnOk result (text.new.items ≡ text.old.items ++ json_text asked facts chip.now layout.now judged.now) }
{
    push_head(text, asked, facts, Totals::NONE.with(judged))?;
    push_lists(text, chip, layout, judged)
}
