// What a call is for.
ghost use Rattle.std.specs.Prelude.{◌≡◌, ◌<◌, IfSome};
ghost use Rattle.rl_grade_report.specs.Call.{HasShare, bound_in, call_by, waived_by};

use crate::asked::{Asked, asked_by, bound_named};

/// What a call is for.
#[derive(Clone, Copy, Debug, PartialEq, Eq)]
pub enum Call {
    /// A session is graded.
    Grade(Asked),
    /// A session is graded, and the last word names the file of its waivers.
    Waive(Asked),
    /// The shares of a grading are added; how many of a hundred flaws are to be found at least.
    Add(Option<u64>),
}

// Nothing, or `at-least P`, with P up to 100.
fn bound_in(words: &[String]) -> Option<Option<u64>>
    ensures { result ≡ bound_in words.now }
{
    match words {
        [] => Some(None),
        [at_least, percent] => bound_named(at_least.as_str(), percent.as_str()),
        _ => None,
    }
}

// What stands before `waive` and a file: what `asked_by` says.
fn waived_by(words: &[String]) -> Option<Asked>
    ensures asked { result ≡ waived_by words.now }
    ensures every { IfSome result (λ asked. 0 < asked.share.every) }
{
    match words {
        [front @ .., waive, _file] if waive.as_str() == "waive" => asked_by(front),
        _ => None,
    }
}

/// What the words ask for: `add`, and then, if so wanted, `at-least P` with P up to 100; or what `asked_by` says, and
/// then, if so wanted, `waive FILE`. None where they ask for nothing known.
pub fn call_by(words: &[String]) -> Option<Call>
    ensures call { result ≡ call_by words.now }
    ensures every { IfSome result HasShare }
{
    let [word, others @ ..] = words else {
        return None;
    };
    if word.as_str() == "add" {
        let bound = bound_in(others)?;
        return Some(Call::Add(bound));
    }
    if let Some(asked) = waived_by(words) {
        return Some(Call::Waive(asked));
    }
    let asked = asked_by(words)?;
    Some(Call::Grade(asked))
}
