// How many flaws of a kind are found, missed, hidden and waived.
ghost use Rattle.std.specs.Prelude.{◌≡◌, ◌++◌, OnOk};
ghost use Rattle.rl_grade_report.specs.declared.kind.TheConstants.{KINDS};
ghost use Rattle.rl_grade_report.specs.Counts.{count_in, count_json, count_of, count_text, counts_of, counts_parts};
ghost use Rattle.rl_grade_report.specs.Counts.{found_of, is_found, is_of, is_told, led};

use crate::kind::{KINDS, Kind};
use crate::pieces::{lead, push_after, push_count_if};
use crate::verdict::{Judged, Verdict};
use std::alloc::AllocError;

// How many of some flaws are found, and how many missed, hidden and waived.
#[derive(Clone, Copy)]
struct Counts {
    found: usize,
    missed: usize,
    hidden: usize,
    waived: usize,
}

// How the counts of a kind are written.
#[derive(Clone, Copy)]
pub(crate) enum CountForm {
    // In words, in the line of a place.
    Words,
    // As a member of an object in JSON.
    Member,
}

// Whether it is a flaw of the kind that is found.
fn is_found(it: &Judged, kind: Kind) -> bool
    ensures { result ≡ is_found it.now kind }
{
    kind.has(it.flaw) && it.found.is_ok()
}

// Whether it is a flaw of the kind of which this is said.
fn is_of(it: &Judged, kind: Kind, verdict: Verdict) -> bool
    ensures { result ≡ is_of kind verdict it.now }
{
    kind.has(it.flaw) && it.has(verdict)
}

fn found_of(judged: &[Judged], kind: Kind) -> usize
    ensures { result ≡ found_of judged.now kind }
{
    judged.iter().filter(|it| is_found(it, kind)).count()
}

fn count_of(judged: &[Judged], kind: Kind, verdict: Verdict) -> usize
    ensures { result ≡ count_of judged.now kind verdict }
{
    judged.iter().filter(|it| is_of(it, kind, verdict)).count()
}

// Those of a kind.
fn counts_of(judged: &[Judged], kind: Kind) -> Counts
    ensures { result ≡ counts_of judged.now kind }
{
    Counts {
        found: found_of(judged, kind),
        missed: count_of(judged, kind, Verdict::Missed),
        hidden: count_of(judged, kind, Verdict::Hidden),
        waived: count_of(judged, kind, Verdict::Waived),
    }
}

impl Counts {
    // Whether there are any.
    fn is_told(self) -> bool
        ensures { result ≡ is_told self }
    {
        self.found > 0 || (self.missed > 0 || (self.hidden > 0 || self.waived > 0))
    }
}

// Appends the counts of a kind in words, behind what leads to them.
fn push_words(
    text: &mut Vec<u8>,
    before: &[u8],
    kind: Kind,
    counts: Counts,
) -> Result<(), AllocError>
    ensures { OnOk result (text.new.items ≡ text.old.items ++ before.now ++ count_text kind counts) }
{
    text.extend_from_slice(before)?;
    text.extend_from_slice(kind.name())?;
    push_after(text, b" ", counts.found as u64)?;
    push_after(text, b" found ", counts.missed as u64)?;
    text.extend_from_slice(b" missed")?;
    push_count_if(text, b" ", counts.hidden as u64, b" hidden")?;
    push_count_if(text, b" ", counts.waived as u64, b" waived")?;
    Ok(())
}

// Appends the counts of a kind as a member, behind what leads to it.
fn push_member(
    text: &mut Vec<u8>,
    before: &[u8],
    kind: Kind,
    counts: Counts,
) -> Result<(), AllocError>
    ensures { OnOk result (text.new.items ≡ text.old.items ++ before.now ++ count_json kind counts) }
{
    text.extend_from_slice(before)?;
    text.extend_from_slice(b"\"")?;
    text.extend_from_slice(kind.name())?;
    push_after(text, b"\": {\"found\": ", counts.found as u64)?;
    push_after(text, b", \"missed\": ", counts.missed as u64)?;
    push_after(text, b", \"hidden\": ", counts.hidden as u64)?;
    push_count_if(text, b", \"waived\": ", counts.waived as u64, b"")?;
    text.extend_from_slice(b"}")?;
    Ok(())
}

// Appends the counts of a kind behind what leads to them.
fn push_count(
    text: &mut Vec<u8>,
    before: &[u8],
    form: CountForm,
    kind: Kind,
    counts: Counts,
) -> Result<(), AllocError>
    ensures { OnOk result (text.new.items ≡ text.old.items ++ before.now ++ count_in form kind counts) }
{
    match form {
        CountForm::Words => push_words(text, before, kind, counts),
        CountForm::Member => push_member(text, before, kind, counts),
    }
}

// Appends the counts of the kinds that are there, behind what leads to the first.
pub(crate) fn push_counts(
    text: &mut Vec<u8>,
    judged: &[Judged],
    first: &[u8],
    form: CountForm,
) -> Result<(), AllocError>
    ensures { OnOk result (text.new.items ≡ text.old.items ++ led first.now (counts_parts form judged.now KINDS)) }
{
    let mut told = false;
    for kind in KINDS {
        let counts = counts_of(judged, kind);
        if counts.is_told() {
            push_count(text, lead(told, first), form, kind, counts)?;
            told = true;
        }
    }
    Ok(())
}
