// Which register an operation or a flaw is of, and tables by the registers' numbers.
ghost use Rattle.std.specs.Prelude.{◌≡◌, ◌<◌, length, IfOk, IfSome};
ghost use Rattle.rl_access.specs.Operation.{HasNumbers, reg_of, register_of};
ghost use Rattle.rl_grade.specs.Hidden.{IsThere};
ghost use Rattle.rl_grade.specs.Sorted.{IsBlank, kept_first};
ghost use Rattle.rl_grade.specs.Together.{register_with};

use crate::seen::Find;
use rl_access::{Model, Op};
use rl_bench::Flaw;
use rl_model::{Chip, Item};
use std::alloc::{AllocError, Global};

// The register of a field.
fn reg_of(chip: &Chip, field: u32) -> u32
    requires { field < length chip.now.fields }
    ensures value { result ≡ reg_of chip.now field }
    ensures in_range { result < length chip.now.regs }
{
    chip.field(field).reg
}

/// The register that an operation is of; none where it is of a memory or of all registers.
pub(crate) fn register_of(model: &Model, op: Op) -> Option<u32>
    requires { HasNumbers model.now.chip (length model.now.layout.maps) op }
    ensures { result ≡ register_of model.now.chip op }
{
    match op {
        Op::Write { reg, .. } => Some(reg),
        Op::Read { reg, .. } => Some(reg),
        Op::Mirror { reg, .. } => Some(reg),
        Op::Check { reg, .. } => Some(reg),
        Op::Update { reg, .. } => Some(reg),
        Op::Show { reg } => Some(reg),
        Op::BackWrite { reg, .. } => Some(reg),
        Op::BackRead { reg } => Some(reg),
        Op::BackCheck { reg } => Some(reg),
        Op::Peek { reg } => Some(reg),
        Op::Poke { reg, .. } => Some(reg),
        Op::OtherWrite { reg, .. } => Some(reg),
        Op::OtherRead { reg, .. } => Some(reg),
        Op::FieldWrite { field, .. } => Some(reg_of(model.chip(), field)),
        Op::FieldRead { field, .. } => Some(reg_of(model.chip(), field)),
        Op::Set { field, .. } => Some(reg_of(model.chip(), field)),
        Op::Hw { field, .. } => Some(reg_of(model.chip(), field)),
        Op::MemWrite { .. } | Op::MemRead { .. } | Op::MemCheck { .. } | Op::MemPeek { .. } => None,
        Op::MemPoke { .. } | Op::BurstWrite { .. } | Op::BurstRead { .. } | Op::Reset { .. } => {
            None
        }
    }
}

/// The register that a flaw is of; none where it is of a memory, of an address or of an item.
pub(crate) fn register_with(chip: &Chip, flaw: Flaw) -> Option<u32>
    requires { IsThere chip.now flaw }
    ensures value { result ≡ register_with chip.now flaw }
    ensures in_range { IfSome result (λ reg. reg < length chip.now.regs) }
{
    match flaw {
        Flaw::Stuck { field, .. } => Some(reg_of(chip, field)),
        Flaw::OtherReset { field, .. } => Some(reg_of(chip, field)),
        Flaw::OtherPolicy { field, .. } => Some(reg_of(chip, field)),
        Flaw::Deaf {
            item: Item::Reg(reg),
        } => Some(reg),
        Flaw::Deaf { item: Item::Mem(_) } | Flaw::ErrorRange { .. } | Flaw::ErrorNth { .. } => None,
    }
}

// ---- tables

/// A table of so many places, of which each is empty.
pub(crate) fn blank<T: Copy>(alloc: Global, size: usize) -> Result<Vec<Option<T>>, AllocError>
    ensures { IfOk result (λ table. IsBlank size table.items) }
{
    let mut table = Vec::new(alloc);
    for _ in 0..size {
        table.push(None)?;
    }
    Ok(table)
}

/// Puts a find at a place of a table, unless one is there already.
pub(crate) fn keep_find(table: &mut Vec<Option<Find>>, at: Option<u32>, find: Option<Find>)
    ensures { table.new.items ≡ kept_first at find table.old.items }
{
    let Some(at) = at else {
        return;
    };
    let at = at as usize;
    if at < table.len() && table[at].is_none() {
        table[at] = find;
    }
}

/// Puts a number at a place of a table, unless one is there already.
pub(crate) fn keep_number(table: &mut Vec<Option<usize>>, at: Option<u32>, number: usize)
    ensures { table.new.items ≡ kept_first at (Some number) table.old.items }
{
    let Some(at) = at else {
        return;
    };
    let at = at as usize;
    if at < table.len() && table[at].is_none() {
        table[at] = Some(number);
    }
}
