// What is said of the flaws that were tried.
ghost use Rattle.std.specs.Prelude.{◌≡◌, map, All, IfOk};
ghost use Rattle.rl_flaw.specs.Flaws.{IsFlawOf};
ghost use Rattle.rl_grade_report.specs.Judging.{is_waived, judged_by, verdict_of};
ghost use Rattle.rl_grade_report.specs.Verdict.{AreJudged};

use crate::verdict::{Judged, Verdict};
use crate::waivers::{Row, has_text};
use crate::waiving::flaw_row;
use rl_bench::Flaw;
use rl_desc::Desc;
use rl_grade::{Graded, is_hidden};
use std::alloc::{AllocError, Global};

// Whether one of these rows is a flaw's.
fn is_waived(alloc: Global, desc: &Desc, waivers: &[Row], flaw: Flaw) -> Result<bool, AllocError>
    requires { IsFlawOf desc.now.chip desc.now.layout flaw }
    ensures { IfOk result (λ waived. waived ≡ is_waived desc.now waivers.now flaw) }
{
    if waivers.is_empty() {
        return Ok(false);
    }
    let text = flaw_row(alloc, desc, flaw)?;
    Ok(has_text(waivers, &text))
}

// What is said of a flaw that the script doesn't find.
fn verdict_of(desc: &Desc, waived: bool, flaw: Flaw) -> Result<Verdict, AllocError>
    requires { IsFlawOf desc.now.chip desc.now.layout flaw }
    ensures { IfOk result (λ verdict. verdict ≡ verdict_of desc.now waived flaw) }
{
    if waived {
        return Ok(Verdict::Waived);
    }
    if is_hidden(&desc.chip, &desc.layout, flaw)? {
        return Ok(Verdict::Hidden);
    }
    Ok(Verdict::Missed)
}

fn judged_by(alloc: Global, desc: &Desc, waivers: &[Row], it: &Graded) -> Result<Judged, AllocError>
    requires { IsFlawOf desc.now.chip desc.now.layout it.now.flaw }
    ensures { IfOk result (λ judged. judged ≡ judged_by desc.now waivers.now it.now) }
{
    let flaw = it.flaw;
    let waived = is_waived(alloc, desc, waivers, flaw)?;
    match it.found {
        Some(find) => Ok(Judged {
            flaw,
            found: Ok(find),
            waived,
        }),
        None => {
            let verdict = verdict_of(desc, waived, flaw)?;
            Ok(Judged {
                flaw,
                found: Err(verdict),
                waived,
            })
        }
    }
}

// These flaws, each with what is said of it.
pub(crate) fn judge(
    alloc: Global,
    desc: &Desc,
    waivers: &[Row],
    graded: &[Graded],
) -> Result<Vec<Judged>, AllocError>
    requires { All (λ g. IsFlawOf desc.now.chip desc.now.layout g.flaw) graded.now }
    ensures judged { IfOk result (λ judged. judged.items ≡ map (judged_by desc.now waivers.now) graded.now) }
    ensures each { IfOk result (λ judged. AreJudged desc.now.chip desc.now.layout judged.items) }
{
    let mut judged = Vec::new(alloc);
    for it in graded {
        judged.push(judged_by(alloc, desc, waivers, it)?)?;
    }
    Ok(judged)
}
