// The last line of a grading.
ghost use Rattle.std.specs.Prelude.{◌≡◌, ◌++◌, OnOk, count_by, is_ok};
ghost use Rattle.rl_grade_report.specs.Totals.{end_text, findable, findable_text, is_below, left_out_text, missed_in};
ghost use Rattle.rl_grade_report.specs.Totals.{percent_text, share_text, tenths, tenths_text, with_judged};
ghost use Rattle.rl_grade_report.specs.Verdict.{has_verdict, is_needless};

use crate::pieces::{push_after, push_count_if};
use crate::verdict::{Judged, Verdict};
use itoa::Buffer;
use rl_session::push_pieces;
use std::alloc::AllocError;

/// How many flaws were tried, how many of them were found, and of those that weren't how many no script finds and how
/// many are waived; and how many are found though they are waived. A count that has come to its end stays there.
#[derive(Clone, Copy, Debug, PartialEq, Eq)]
pub struct Totals {
    /// How many were tried.
    pub flaws: u64,
    /// How many were found.
    pub found: u64,
    /// How many weren't found, aren't waived, and no script finds.
    pub hidden: u64,
    /// How many weren't found and are waived.
    pub waived: u64,
    /// How many were found though they are waived.
    pub needless: u64,
}

// How many of these are found.
fn found_in(judged: &[Judged]) -> u64
    ensures { result ≡ count_by (λ j. is_ok j.found) judged.now }
{
    judged.iter().filter(|it| it.found.is_ok()).count() as u64
}

// Of how many of these this is said.
fn count_with(judged: &[Judged], verdict: Verdict) -> u64
    ensures { result ≡ count_by (λ j. has_verdict verdict j) judged.now }
{
    judged.iter().filter(|it| it.has(verdict)).count() as u64
}

// How many of these are waived, and found all the same.
fn needless_in(judged: &[Judged]) -> u64
    ensures { result ≡ count_by (λ j. is_needless j) judged.now }
{
    judged.iter().filter(|it| it.is_needless()).count() as u64
}

impl Totals {
    /// Before the first flaw.
    pub const NONE: Totals = Totals {
        flaws: 0,
        found: 0,
        hidden: 0,
        waived: 0,
        needless: 0,
    };

    // How many can be found.
    pub(crate) fn findable(self) -> u64
        ensures { result ≡ findable self }
    {
        self.flaws
            .saturating_sub(self.hidden)
            .saturating_sub(self.waived)
    }

    // How many were missed.
    pub(crate) fn missed(self) -> u64
        ensures { result ≡ missed_in self }
    {
        self.findable().saturating_sub(self.found)
    }

    /// With these flaws too.
    pub fn with(self, judged: &[Judged]) -> Totals
        ensures { result ≡ with_judged self judged.now }
    {
        Totals {
            flaws: self.flaws.saturating_add(judged.len() as u64),
            found: self.found.saturating_add(found_in(judged)),
            hidden: self
                .hidden
                .saturating_add(count_with(judged, Verdict::Hidden)),
            waived: self
                .waived
                .saturating_add(count_with(judged, Verdict::Waived)),
            needless: self.needless.saturating_add(needless_in(judged)),
        }
    }

    // Whether fewer of those that can be found were than so many of a hundred.
    pub(crate) fn is_below(self, bound: Option<u64>) -> bool
        ensures { result ≡ is_below bound self }
    {
        let Some(percent) = bound else {
            return false;
        };
        let least = u128::from(percent) * u128::from(self.findable());
        u128::from(self.found) * 100 < least
    }
}

// A share in tenths of a per cent, rounded down.
pub(crate) fn tenths(found: u64, flaws: u64) -> u128
    ensures { result ≡ tenths found flaws }
{
    if flaws == 0 {
        return 0;
    }
    u128::from(found) * 1000 / u128::from(flaws)
}

// Appends tenths of a per cent.
pub(crate) fn push_tenths(text: &mut Vec<u8>, tenths: u128) -> Result<(), AllocError>
    ensures { OnOk result (text.new.items ≡ text.old.items ++ tenths_text tenths) }
{
    let mut whole = Buffer::new();
    let mut tenth = Buffer::new();
    let pieces: [&[u8]; 3] = [
        whole.format(tenths / 10).as_bytes(),
        b".",
        tenth.format(tenths % 10).as_bytes(),
    ];
    push_pieces(text, &pieces)
}

// Appends tenths of a per cent between a comma and what stands behind them.
fn push_percent(text: &mut Vec<u8>, tenths: u128, behind: &[u8]) -> Result<(), AllocError>
    ensures { OnOk result (text.new.items ≡ text.old.items ++ percent_text tenths behind.now) }
{
    text.extend_from_slice(b", ")?;
    push_tenths(text, tenths)?;
    text.extend_from_slice(behind)?;
    Ok(())
}

// Appends a share, where there is a flaw.
fn push_share(text: &mut Vec<u8>, found: u64, flaws: u64, behind: &[u8]) -> Result<(), AllocError>
    ensures { OnOk result (text.new.items ≡ text.old.items ++ share_text found flaws behind.now) }
{
    if flaws == 0 {
        return Ok(());
    }
    push_percent(text, tenths(found, flaws), behind)
}

// Appends the share of those that can be found, where these are some and not all.
fn push_findable(text: &mut Vec<u8>, totals: Totals) -> Result<(), AllocError>
    ensures { OnOk result (text.new.items ≡ text.old.items ++ findable_text totals) }
{
    if totals.findable() == totals.flaws {
        return Ok(());
    }
    push_share(
        text,
        totals.found,
        totals.findable(),
        b" % of those that can be found",
    )
}

// Appends how many flaws are left out of those that can be found, and how many needn't be.
fn push_left_out(text: &mut Vec<u8>, totals: Totals) -> Result<(), AllocError>
    ensures { OnOk result (text.new.items ≡ text.old.items ++ left_out_text totals) }
{
    push_count_if(text, b", ", totals.hidden, b" hidden")?;
    push_count_if(text, b", ", totals.waived, b" waived")?;
    push_count_if(text, b", ", totals.needless, b" needless waivers")
}

/// Appends the last line of a grading: how many flaws were tried, found, missed, hidden and waived, how many waivers
/// are needless, the share that was found, and that of those that can be found.
///
/// # Errors
///
/// Want of memory.
pub fn push_end(text: &mut Vec<u8>, totals: Totals) -> Result<(), AllocError>
    ensures { OnOk result (text.new.items ≡ text.old.items ++ end_text totals) }
{
    push_after(text, b"end: ", totals.flaws)?;
    push_after(text, b" flaws, ", totals.found)?;
    push_after(text, b" found, ", totals.missed())?;
    text.extend_from_slice(b" missed")?;
    push_left_out(text, totals)?;
    push_share(text, totals.found, totals.flaws, b" % found")?;
    push_findable(text, totals)?;
    text.extend_from_slice(b"\n")?;
    Ok(())
}
