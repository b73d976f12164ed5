// The operations for a register.
ghost use Rattle.std.specs.Prelude.{◌≡◌, ◌++◌, ◌<◌, filter_map, length, IfOk, OnOk};
ghost use Rattle.rl_mirror.specs.Compared.{is_compared};
ghost use Rattle.rl_plan.specs.Plan.{further_ops, further_ops_as, further_steps, has_value, is_seen, is_seen_as};
ghost use Rattle.rl_plan.specs.Plan.{op_of, reg_ops, sort_by, sort_of};

use crate::step::{Sort, Step};
use crate::target::Target;
use crate::visit::{Visit, push_some, push_visits};
use crate::way::Way;
use rl_access::Op;
use rl_model::{Chip, Field};
use rl_policy::write_only;
use std::alloc::{AllocError, Global};

fn is_compared(field: &Field) -> bool
    ensures { result ≡ is_compared field.now }
{
    field.compare && !write_only(field.policy)
}

// Whether a check of the register compares a bit.
fn is_seen(chip: &Chip, reg: u32) -> bool
    requires { reg < length chip.now.regs }
    ensures { result ≡ is_seen chip.now reg }
{
    let first = chip.first_field(reg);
    for k in 0..chip.field_count(reg) {
        if is_compared(&chip.field(first + k)) {
            return true;
        }
    }
    false
}

fn sort_by(seen: bool, target: Target) -> Sort
    ensures { result ≡ sort_by seen target }
{
    if !seen {
        Sort::Unseen
    } else if target.backdoor {
        Sort::Both
    } else if target.reader.is_none() {
        Sort::Unseen
    } else if target.writer.is_some() {
        Sort::Bus
    } else {
        Sort::Reads
    }
}

/// How a register can be looked at that is reached so.
pub fn sort_of(chip: &Chip, target: Target) -> Sort
    requires { target.reg < length chip.now.regs }
    ensures { result ≡ sort_of chip.now target }
{
    sort_by(is_seen(chip, target.reg), target)
}

// Appends the operations of the steps with a kind of reset.
fn push_steps(
    ops: &mut Vec<Op>,
    target: Target,
    kind: u32,
    steps: &[Step],
) -> Result<(), AllocError>
    ensures { OnOk result (ops.new.items ≡ ops.old.items ++ filter_map (op_of target kind) steps.now) }
{
    for step in steps {
        push_some(ops, target.op_of(kind, *step))?;
    }
    Ok(())
}

// Whether a field of the register has a value for a kind of reset.
fn has_value(chip: &Chip, reg: u32, kind: u32) -> bool
    requires reg { reg < length chip.now.regs }
    requires kind { kind < length chip.now.kinds }
    ensures { result ≡ has_value chip.now reg kind }
{
    let first = chip.first_field(reg);
    for k in 0..chip.field_count(reg) {
        if chip.reset_of(first + k, kind).is_some() {
            return true;
        }
    }
    false
}

// The steps with a kind of reset other than HARD.
fn further_steps(chip: &Chip, sort: Sort, reg: u32, kind: u32) -> &'static [Step]
    requires reg { reg < length chip.now.regs }
    requires kind { kind < length chip.now.kinds }
    ensures { result.now ≡ further_steps chip.now sort reg kind }
{
    if kind == 0 || !has_value(chip, reg, kind) {
        &[]
    } else {
        sort.further_steps()
    }
}

/// The operations for a register that is reached so, with each kind of reset but HARD.
pub fn further_ops(alloc: Global, chip: &Chip, target: Target) -> Result<Vec<Op>, AllocError>
    requires { target.reg < length chip.now.regs }
    ensures { IfOk result (λ ops. ops.items ≡ further_ops chip.now target) }
{
    let sort = sort_of(chip, target);
    let mut ops = Vec::new(alloc);
    for kind in 0..chip.kinds() {
        let steps = further_steps(chip, sort, target.reg, kind);
        push_steps(&mut ops, target, kind, steps)?;
    }
    Ok(ops)
}

fn is_seen_as(sort: Sort) -> bool
    ensures { result ≡ is_seen_as sort }
{
    !matches!(sort, Sort::Unseen)
}

/// The operations for a register that is reached so, with these places: its steps with the reset HARD, and an access at
/// each other place.
pub fn reg_ops(
    alloc: Global,
    chip: &Chip,
    target: Target,
    ways: &[Way],
) -> Result<Vec<Op>, AllocError>
    requires { target.reg < length chip.now.regs }
    ensures { IfOk result (λ ops. ops.items ≡ reg_ops chip.now target ways.now) }
{
    let mut ops = Vec::new(alloc);
    let sort = sort_of(chip, target);
    push_steps(&mut ops, target, 0, sort.steps())?;
    let seen = is_seen_as(sort);
    push_visits(&mut ops, ways, Visit::Touch { target, seen })?;
    Ok(ops)
}
