// What stands between the parts of a text, and numbers in it.
ghost use Rattle.std.specs.Prelude.{◌≡◌, ◌++◌, if◌then◌else◌, codes, decimal, OnOk};
ghost use Rattle.rl_grade_report.specs.Counts.{count_if};

use itoa::Buffer;
use std::alloc::AllocError;

// What stands before a part: a comma behind another part, and else what leads to the first.
pub(crate) fn lead(told: bool, first: &[u8]) -> &[u8]
    ensures { result.now ≡ (if told then codes ", " else first.now) }
{
    if told { b", " } else { first }
}

// Appends a number in decimal.
pub(crate) fn push_number(text: &mut Vec<u8>, number: u64) -> Result<(), AllocError>
    ensures { OnOk result (text.new.items ≡ text.old.items ++ decimal number) }
{
    let mut digits = Buffer::new();
    text.extend_from_slice(digits.format(number).as_bytes())
}

// Appends a text, and a number in decimal behind it.
pub(crate) fn push_after(text: &mut Vec<u8>, before: &[u8], number: u64) -> Result<(), AllocError>
    ensures { OnOk result (text.new.items ≡ text.old.items ++ before.now ++ decimal number) }
{
    text.extend_from_slice(before)?;
    push_number(text, number)
}

// Appends a count between two texts, where it isn't 0.
#[tactic(auto, unfolding(rl_report::specs::Pieces::joined))]
pub(crate) fn push_count_if(
    text: &mut Vec<u8>,
    before: &[u8],
    count: u64,
    behind: &[u8],
) -> Result<(), AllocError>
    ensures { OnOk result (text.new.items ≡ text.old.items ++ count_if before.now count behind.now) }
{
    if count == 0 {
        return Ok(());
    }
    push_after(text, before, count)?;
    text.extend_from_slice(behind)?;
    Ok(())
}
