// What the words of a call ask for.
ghost use Rattle.std.specs.Prelude.{◌≡◌, ◌<◌, ◌==◌, true, position, IfSome};
ghost use Rattle.rl_grade_report.specs.Asked.{whole, is_decimal, value_of, decimal_of, share_if, share_named};
ghost use Rattle.rl_grade_report.specs.Asked.{tell_named, percent_if, bound_named, asked_if, asked_by};
ghost use Rattle.rl_grade_report.specs.Asked.{is_json, is_part, is_marked, status_at};
ghost use Rattle.rl_log.specs.Statuses.{is_complete};

use crate::totals::Totals;
use rl_grade::Share;
use rl_log::Status;
use rl_policy::{NumberText, read_number};

/// What a grading reports.
#[derive(Clone, Copy, Debug, PartialEq, Eq)]
pub enum Tell {
    /// A line for each place, and the totals.
    Run,
    /// Each flaw that is missed, as a row of a description.
    Missed,
    /// Each flaw that is hidden, as a row of a description.
    Hidden,
    /// Each flaw that is found, as a row after the number of the line that finds it first.
    Found,
    /// Each flaw that is waived and isn't found, as a row of a description.
    Waived,
    /// For each line of the script how many flaws it finds first, and the totals.
    Lines,
    /// All of it as one object in JSON.
    Json,
}

/// What is asked for.
#[derive(Clone, Copy, Debug, PartialEq, Eq)]
pub struct Asked {
    /// What is written.
    pub tell: Tell,
    /// Which flaws are tried.
    pub share: Share,
    /// How many of a hundred flaws that can be found are to be found at least.
    pub bound: Option<u64>,
}

impl Tell {
    // Whether it is one object.
    pub(crate) fn is_json(self) -> bool
        ensures { result ≡ is_json self }
    {
        matches!(self, Tell::Json)
    }
}

const WHOLE: Share = Share { first: 1, every: 1 };

impl Asked {
    // Whether these are not all flaws.
    pub(crate) fn is_part(self) -> bool
        ensures { result ≡ is_part self }
    {
        self.share.every != 1
    }

    // Whether the text names the session by its mark: that of a share, and the object.
    pub(crate) fn is_marked(self) -> bool
        ensures { result ≡ is_marked self }
    {
        self.is_part() || self.tell.is_json()
    }

    // How a grading ends that wrote its text.
    pub(crate) fn status(self, totals: Totals) -> Status
        ensures status { result ≡ status_at self totals }
        ensures whole { is_complete result ≡ true }
    {
        if totals.is_below(self.bound) {
            Status::Found
        } else {
            Status::Passed
        }
    }
}

// Whether there are digits and nothing else.
fn is_decimal(text: &[u8]) -> bool
    ensures { result ≡ is_decimal text.now }
{
    text.iter().all(|byte| 48 <= *byte && *byte <= 57)
}

pub(crate) fn value_of(number: NumberText) -> Option<u64>
    ensures { result ≡ value_of number }
{
    match number {
        NumberText::Value(n) => Some(n),
        NumberText::Bad | NumberText::TooLarge => None,
    }
}

// A number in decimal digits.
pub(crate) fn decimal_of(text: &[u8]) -> Option<u64>
    ensures { result ≡ decimal_of text.now }
{
    if is_decimal(text) {
        value_of(read_number(text))
    } else {
        None
    }
}

fn share_if(first: Option<u64>, every: Option<u64>) -> Option<Share>
    ensures share { result ≡ share_if first every }
    ensures every { IfSome result (λ share. 0 < share.every) }
{
    let (Some(first), Some(every)) = (first, every) else {
        return None;
    };
    if 1 <= first && first <= every {
        Some(Share { first, every })
    } else {
        None
    }
}

fn slash_in(word: &[u8]) -> Option<usize>
    ensures { result ≡ position (λ c. c == 47) word.now }
{
    word.iter().position(|byte| *byte == 47)
}

// `K/N`, with K from 1 to N.
pub(crate) fn share_named(word: &[u8]) -> Option<Share>
    ensures share { result ≡ share_named word.now }
    ensures every { IfSome result (λ share. 0 < share.every) }
{
    let Some(slash) = slash_in(word) else {
        return None;
    };
    share_if(decimal_of(&word[..slash]), decimal_of(&word[slash + 1..]))
}

fn tell_named(word: &str) -> Option<Tell>
    ensures { result ≡ tell_named word.now }
{
    match word {
        "run" => Some(Tell::Run),
        "missed" => Some(Tell::Missed),
        "hidden" => Some(Tell::Hidden),
        "found" => Some(Tell::Found),
        "waived" => Some(Tell::Waived),
        "lines" => Some(Tell::Lines),
        "json" => Some(Tell::Json),
        _ => None,
    }
}

fn percent_if(percent: Option<u64>) -> Option<u64>
    ensures { result ≡ percent_if percent }
{
    match percent {
        Some(percent) if percent <= 100 => Some(percent),
        _ => None,
    }
}

// `at-least P`, with P up to 100.
pub(crate) fn bound_named(word: &str, percent: &str) -> Option<Option<u64>>
    ensures { result ≡ bound_named word.now percent.now }
{
    if word != "at-least" {
        return None;
    }
    match percent_if(decimal_of(percent.as_bytes())) {
        Some(percent) => Some(Some(percent)),
        None => None,
    }
}

fn asked_if(tell: Option<Tell>, share: Option<Share>, bound: Option<Option<u64>>) -> Option<Asked>
    requires { IfSome share (λ share. 0 < share.every) }
    ensures asked { result ≡ asked_if tell share bound }
    ensures every { IfSome result (λ asked. 0 < asked.share.every) }
{
    let (Some(tell), Some(share), Some(bound)) = (tell, share, bound) else {
        return None;
    };
    Some(Asked { tell, share, bound })
}

/// What the words ask for: `run`, `missed`, `hidden`, `found`, `waived`, `lines` or `json`; then, if so wanted, a share
/// `K/N` with K from 1 to N; then, if so wanted, `at-least P` with P up to 100. None where they ask for nothing known.
pub fn asked_by(words: &[String]) -> Option<Asked>
    ensures asked { result ≡ asked_by words.now }
    ensures every { IfSome result (λ asked. 0 < asked.share.every) }
{
    match words {
        [word] => asked_if(tell_named(word.as_str()), Some(WHOLE), Some(None)),
        [word, share] => asked_if(
            tell_named(word.as_str()),
            share_named(share.as_str().as_bytes()),
            Some(None),
        ),
        [word, at_least, percent] => asked_if(
            tell_named(word.as_str()),
            Some(WHOLE),
            bound_named(at_least.as_str(), percent.as_str()),
        ),
        [word, share, at_least, percent] => asked_if(
            tell_named(word.as_str()),
            share_named(share.as_str().as_bytes()),
            bound_named(at_least.as_str(), percent.as_str()),
        ),
        _ => None,
    }
}
