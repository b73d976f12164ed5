// What can be said of a flaw that was tried.
ghost use Rattle.std.specs.Prelude.{◌≡◌, IfOk};
ghost use Rattle.rl_grade_report.specs.Verdict.{flaws_with, has_verdict, is_needless, is_verdict, lead_of};

use rl_bench::Flaw;
use rl_grade::Find;
use std::alloc::{AllocError, Global};

/// What is said of a flaw that the script doesn't find.
#[derive(Clone, Copy, Debug, PartialEq, Eq)]
pub enum Verdict {
    /// Another script may find it.
    Missed,
    /// No script finds it, as `is_hidden` says.
    Hidden,
    /// It is known and accepted: a row of the waivers is the flaw's.
    Waived,
}

// In the order in which they are told.
pub(crate) const VERDICTS: [Verdict; 3] = [Verdict::Missed, Verdict::Hidden, Verdict::Waived];

/// A flaw that was tried.
#[derive(Clone, Copy, Debug, PartialEq, Eq)]
pub struct Judged {
    /// The flaw.
    pub flaw: Flaw,
    /// The first event that shows more with it than without it, or what is said where there is none.
    pub found: Result<Find, Verdict>,
    /// Whether a row of the waivers is its.
    pub waived: bool,
}

impl Verdict {
    // Whether the two are the same.
    fn is_same(self, other: Verdict) -> bool
        ensures { result ≡ is_verdict self other }
    {
        match (self, other) {
            (Verdict::Missed, Verdict::Missed) => true,
            (Verdict::Hidden, Verdict::Hidden) => true,
            (Verdict::Waived, Verdict::Waived) => true,
            _ => false,
        }
    }

    // What stands before the flaws of which it is said.
    pub(crate) fn lead(self) -> &'static [u8]
        ensures { result.now ≡ lead_of self }
    {
        match self {
            Verdict::Missed => b"; missed: ",
            Verdict::Hidden => b"; hidden: ",
            Verdict::Waived => b"; waived: ",
        }
    }
}

impl Judged {
    // Whether this is said of it.
    pub(crate) fn has(&self, verdict: Verdict) -> bool
        ensures { result ≡ has_verdict verdict self.now }
    {
        match self.found {
            Ok(_) => false,
            Err(own) => verdict.is_same(own),
        }
    }

    // Whether it is waived and found all the same.
    pub(crate) fn is_needless(&self) -> bool
        ensures { result ≡ is_needless self.now }
    {
        self.waived && self.found.is_ok()
    }
}

// The flaws of which this is said.
pub(crate) fn flaws_with(
    alloc: Global,
    judged: &[Judged],
    verdict: Verdict,
) -> Result<Vec<Flaw>, AllocError>
    ensures { IfOk result (λ flaws. flaws.items ≡ flaws_with verdict judged.now) }
{
    let mut flaws = Vec::new(alloc);
    for it in judged {
        if it.has(verdict) {
            flaws.push(it.flaw)?;
        }
    }
    Ok(flaws)
}
