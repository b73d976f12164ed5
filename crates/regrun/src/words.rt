// What the words of a call ask for.
ghost use Rattle.std.specs.Prelude.{◌≡◌};
ghost use Rattle.regrun.specs.Words.{task_named, numbered_task, asked_by};

use rl_policy::{NumberText, read_number};

#[derive(Clone, Copy)]
pub(crate) enum Task {
    // Reads a session and writes its log.
    Run,
    // Reads a description and writes where its items stand.
    Map,
    // Makes a session from a number, runs it and writes one line.
    Soak(u64),
    // Reads a session and runs it, with the accesses of several masters woven.
    Weave(u64),
}

fn task_named(word: &str) -> Option<Task>
    ensures { result ≡ task_named word.now }
{
    if word == "run" {
        Some(Task::Run)
    } else if word == "map" {
        Some(Task::Map)
    } else {
        None
    }
}

fn numbered_task(word: &str, number: NumberText) -> Option<Task>
    ensures { result ≡ numbered_task word.now number }
{
    let NumberText::Value(n) = number else {
        return None;
    };
    if word == "soak" {
        Some(Task::Soak(n))
    } else if word == "weave" {
        Some(Task::Weave(n))
    } else {
        None
    }
}

// What the words ask for, where they ask for something.
pub(crate) fn task_of(words: &[String]) -> Option<Task>
    ensures { result ≡ asked_by words.now }
{
    match words {
        [word] => task_named(word.as_str()),
        [word, number] => numbered_task(word.as_str(), read_number(number.as_str().as_bytes())),
        _ => None,
    }
}
