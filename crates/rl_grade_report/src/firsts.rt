// How many flaws a line of the script finds first.
ghost use Rattle.std.specs.Prelude.{◌≡◌, ◌++◌, OnOk};
ghost use Rattle.rl_grade_report.specs.Firsts.{finds_first, count_of, line_count, lines_text};

use crate::pieces::push_after;
use crate::verdict::Judged;
use rl_grade::Task;
use std::alloc::AllocError;

// Whether the line of this number is the first that finds the flaw.
fn finds_first(line: u64, it: &Judged) -> bool
    ensures { result ≡ finds_first line it.now }
{
    match it.found {
        Ok(find) => find.line == line,
        Err(_) => false,
    }
}

fn count_of(judged: &[Judged], line: u64) -> usize
    ensures { result ≡ count_of judged.now line }
{
    judged.iter().filter(|it| finds_first(line, it)).count()
}

// Appends how many of the flaws a line finds first.
#[tactic(auto, unfolding(rl_report::specs::Pieces::joined))]
fn push_count(text: &mut Vec<u8>, judged: &[Judged], line: u64) -> Result<(), AllocError>
    ensures { OnOk result (text.new.items ≡ text.old.items ++ line_count judged.now line) }
{
    push_after(text, b"line ", line)?;
    push_after(text, b": ", count_of(judged, line) as u64)?;
    text.extend_from_slice(b" found\n")?;
    Ok(())
}

/// Appends a line for each of these tasks: the number of its line in the script, and how many of the flaws it finds
/// first.
///
/// # Errors
///
/// Want of memory.
pub fn push_lines(text: &mut Vec<u8>, tasks: &[Task], judged: &[Judged]) -> Result<(), AllocError>
    ensures { OnOk result (text.new.items ≡ text.old.items ++ lines_text tasks.now judged.now) }
{
    for task in tasks {
        push_count(text, judged, task.line)?;
    }
    Ok(())
}
