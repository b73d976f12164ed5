// Flaws that no check can find, since none compares what they change.
ghost use Rattle.std.specs.Prelude.{◌≡◌, ◌<◌, length};
ghost use Rattle.rl_mirror.specs.Compared.{is_compared};
ghost use Rattle.rl_grade.specs.Hidden.{IsThere};
ghost use Rattle.rl_grade.specs.Unchecked.{are_passed, is_changed, is_passed, is_unchecked, keeps_all};

use crate::register::register_with;
use rl_bench::Flaw;
use rl_model::{Chip, Field};
use rl_policy::{Policy, write_only};

// Whether no write changes a bit of the policy.
fn keeps_all(policy: Policy) -> bool
    ensures { result ≡ keeps_all policy }
{
    matches!(policy, Policy::Ro | Policy::Rc | Policy::Rs)
}

// Whether the flaw could change a field of its register. A deaf register's field isn't changed where no write changes
// it.
fn is_changed(chip: &Chip, flaw: Flaw, field: u32) -> bool
    requires { field < length chip.now.fields }
    ensures { result ≡ is_changed chip.now flaw field }
{
    match flaw {
        Flaw::Stuck { field: own, .. }
        | Flaw::OtherReset { field: own, .. }
        | Flaw::OtherPolicy { field: own, .. } => own == field,
        Flaw::Deaf { .. } | Flaw::ErrorRange { .. } | Flaw::ErrorNth { .. } => {
            !keeps_all(chip.field(field).policy)
        }
    }
}

// Whether a check compares a field.
fn is_compared(field: &Field) -> bool
    ensures { result ≡ is_compared field.now }
{
    field.compare && !write_only(field.policy)
}

// Whether each check finds the field as it is believed.
fn is_passed(chip: &Chip, flaw: Flaw, field: u32) -> bool
    requires { field < length chip.now.fields }
    ensures { result ≡ is_passed chip.now flaw field }
{
    let shape = chip.field(field);
    !is_compared(&shape) || (!is_changed(chip, flaw, field) && !shape.volatile)
}

fn are_passed(chip: &Chip, flaw: Flaw, reg: u32) -> bool
    requires { reg < length chip.now.regs }
    ensures { result ≡ are_passed chip.now flaw reg }
{
    let first = chip.first_field(reg);
    for k in 0..chip.field_count(reg) {
        if !is_passed(chip, flaw, first + k) {
            return false;
        }
    }
    true
}

// Whether no check compares what a flaw could change of its register, and all that is compared there stays as it is
// believed.
pub(crate) fn is_unchecked(chip: &Chip, flaw: Flaw) -> bool
    requires { IsThere chip.now flaw }
    ensures { result ≡ is_unchecked chip.now flaw }
{
    match register_with(chip, flaw) {
        Some(reg) => are_passed(chip, flaw, reg),
        None => false,
    }
}
