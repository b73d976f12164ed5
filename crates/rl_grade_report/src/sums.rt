// The sums of shares that are all of one grading, each once.
ghost use Rattle.std.specs.Prelude.{◌≡◌, ◌==◌, find, slice_get};
ghost use Rattle.std.specs.List.{list_any, range_with_len};
ghost use Rattle.rl_grade_report.specs.Sums.{has_share, is_of, lacking_in, other_in, plus, sum_of, sums_from};
ghost use Rattle.rl_grade_report.specs.Sums.{sums_in, twice_in};

use crate::said::Head;
use crate::shares::{Part, Unfit};
use crate::totals::Totals;
use rl_grade::Share;

// Whether a share is of the grading of this one.
fn is_of(part: Part, first: Head) -> bool
    ensures { result ≡ is_of first part }
{
    part.head.mark == first.mark && part.head.share.every == first.share.every
}

// The first that is of another grading.
fn other_in(parts: &[Part], first: Head) -> Option<Part>
    ensures { result ≡ other_in first parts.now }
{
    parts.iter().copied().find(|part| !is_of(*part, first))
}

// Whether the share of this number came.
fn has_share(parts: &[Part], number: u64) -> bool
    ensures { result ≡ has_share number parts.now }
{
    parts.iter().any(|part| part.head.share.first == number)
}

// The first that comes once more behind it.
fn twice_in(parts: &[Part]) -> Option<Part>
    ensures { result ≡ twice_in parts.now }
{
    for (place, part) in parts.iter().enumerate() {
        if has_share(&parts[place + 1..], part.head.share.first) {
            return Some(*part);
        }
    }
    None
}

// The least number up to this one whose share didn't come.
fn lacking_in(parts: &[Part], every: u64) -> Option<u64>
    ensures { result ≡ lacking_in every parts.now }
{
    for before in 0..every {
        if !has_share(parts, before + 1) {
            return Some(before + 1);
        }
    }
    None
}

fn plus(sums: Totals, more: Totals) -> Totals
    ensures { result ≡ plus sums more }
{
    Totals {
        flaws: sums.flaws.saturating_add(more.flaws),
        found: sums.found.saturating_add(more.found),
        hidden: sums.hidden.saturating_add(more.hidden),
        waived: sums.waived.saturating_add(more.waived),
        needless: sums.needless.saturating_add(more.needless),
    }
}

// The sums of their totals.
fn sum_of(parts: &[Part]) -> Totals
    ensures { result ≡ sum_of parts.now }
{
    let mut sums = Totals::NONE;
    for part in parts {
        sums = plus(sums, part.totals);
    }
    sums
}

// The sums of shares of which this is the first.
fn sums_from(first: Head, parts: &[Part]) -> Result<Totals, Unfit>
    ensures { result ≡ sums_from first parts.now }
{
    if let Some(part) = other_in(parts, first) {
        return Err(Unfit::OfAnother(part.head.share));
    }
    if let Some(part) = twice_in(parts) {
        return Err(Unfit::Twice(part.head.share));
    }
    let every = first.share.every;
    if let Some(first) = lacking_in(parts, every) {
        return Err(Unfit::Lacking(Share { first, every }));
    }
    Ok(sum_of(parts))
}

/// The sums of the totals of all shares of one grading, which came in any order.
///
/// # Errors
///
/// Where there is no share; else the first that is of another grading than the first one; else the first that comes
/// once more; else the one of the least number that is lacking.
pub(crate) fn sums_in(parts: &[Part]) -> Result<Totals, Unfit>
    ensures { result ≡ sums_in parts.now }
{
    match parts.first() {
        Some(first) => sums_from(first.head, parts),
        None => Err(Unfit::NoShare),
    }
}
