// The plan of a register or of a memory.
ghost use Rattle.std.specs.Prelude.{◌≡◌, ◌++◌, ◌<◌, All, length, IfOk, OnOk};
ghost use Rattle.rl_access.specs.Model.{IsModel};
ghost use Rattle.rl_model.specs.Chip.{HasItem};
ghost use Rattle.rl_plan.specs.Text.{HasLine, block_text, comment_text, further_text, mem_text, planned_for};
ghost use Rattle.rl_plan.specs.Text.{planned_further, planned_in, reg_target, reg_text, some_block_text};

use crate::asked::Asked;
use crate::memory::mem_ops;
use crate::register::{further_ops, reg_ops, sort_of};
use crate::target::{Target, target_of};
use crate::text::push_ops;
use crate::way::ways_of;
use rl_access::{Model, Op};
use rl_model::Item;
use std::alloc::{AllocError, Global};

// Appends a comment on an item.
fn push_comment(text: &mut Vec<u8>, path: &[u8], purpose: &[u8]) -> Result<(), AllocError>
    ensures { OnOk result (text.new.items ≡ text.old.items ++ comment_text path.now purpose.now) }
{
    text.extend_from_slice(b"# ")?;
    text.extend_from_slice(path)?;
    text.extend_from_slice(b": ")?;
    text.extend_from_slice(purpose)?;
    text.push(b'\n')?;
    Ok(())
}

// How a register is reached.
fn reg_target(alloc: Global, model: &Model, asked: Asked, reg: u32) -> Result<Target, AllocError>
    requires { reg < length model.now.chip.regs }
    ensures exact { IfOk result (λ target. target ≡ reg_target model.now asked reg) }
    ensures sound { IsModel model.now }
{
    let ways = ways_of(alloc, model.layout(), Item::Reg(reg))?;
    Ok(target_of(model.chip(), asked, reg, &ways))
}

// The operations for a register with the reset HARD.
pub(crate) fn planned_for(
    alloc: Global,
    model: &Model,
    asked: Asked,
    reg: u32,
) -> Result<Vec<Op>, AllocError>
    requires { reg < length model.now.chip.regs }
    ensures exact { IfOk result (λ ops. ops.items ≡ planned_for model.now asked reg) }
    ensures sound { IsModel model.now }
{
    let target = reg_target(alloc, model, asked, reg)?;
    let ways = ways_of(alloc, model.layout(), Item::Reg(reg))?;
    reg_ops(alloc, model.chip(), target, &ways)
}

// The operations for a register with its other resets.
pub(crate) fn planned_further(
    alloc: Global,
    model: &Model,
    asked: Asked,
    reg: u32,
) -> Result<Vec<Op>, AllocError>
    requires { reg < length model.now.chip.regs }
    ensures exact { IfOk result (λ ops. ops.items ≡ planned_further model.now asked reg) }
    ensures sound { IsModel model.now }
{
    let target = reg_target(alloc, model, asked, reg)?;
    further_ops(alloc, model.chip(), target)
}

// The operations for a memory.
pub(crate) fn planned_in(alloc: Global, model: &Model, mem: u32) -> Result<Vec<Op>, AllocError>
    requires { mem < length model.now.chip.mems }
    ensures exact { IfOk result (λ ops. ops.items ≡ planned_in model.now mem) }
    ensures sound { IsModel model.now }
{
    let ways = ways_of(alloc, model.layout(), Item::Mem(mem))?;
    mem_ops(alloc, model.chip(), mem, &ways)
}

// Appends a comment on an item and the lines of operations.
fn push_block(
    text: &mut Vec<u8>,
    model: &Model,
    item: Item,
    purpose: &[u8],
    ops: &[Op],
) -> Result<(), AllocError>
    requires item { HasItem model.now.chip item }
    requires ops { All (HasLine model.now) ops.now }
    ensures { OnOk result (text.new.items ≡ text.old.items ++ block_text model.now item purpose.now ops.now) }
{
    push_comment(text, model.chip().path(item), purpose)?;
    push_ops(text, model, ops)
}

// Appends a block, where there are operations.
fn push_some_block(
    text: &mut Vec<u8>,
    model: &Model,
    item: Item,
    purpose: &[u8],
    ops: &[Op],
) -> Result<(), AllocError>
    requires item { HasItem model.now.chip item }
    requires ops { All (HasLine model.now) ops.now }
    ensures { OnOk result
        (text.new.items ≡ text.old.items ++ some_block_text model.now item purpose.now ops.now) }
{
    if ops.is_empty() {
        return Ok(());
    }
    push_block(text, model, item, purpose, ops)
}

/// Appends the plan of a register: a comment what its lines are for, and its lines with the reset HARD.
pub fn push_reg(
    alloc: Global,
    text: &mut Vec<u8>,
    model: &Model,
    asked: Asked,
    reg: u32,
) -> Result<(), AllocError>
    requires { reg < length model.now.chip.regs }
    ensures { OnOk result (text.new.items ≡ text.old.items ++ reg_text model.now asked reg) }
{
    let target = reg_target(alloc, model, asked, reg)?;
    let purpose = sort_of(model.chip(), target).purpose();
    let ops = planned_for(alloc, model, asked, reg)?;
    push_block(text, model, Item::Reg(reg), purpose, &ops)
}

/// Appends what a plan has for a register's resets but HARD: a comment and lines, where a field has a value for one.
pub fn push_further(
    alloc: Global,
    text: &mut Vec<u8>,
    model: &Model,
    asked: Asked,
    reg: u32,
) -> Result<(), AllocError>
    requires { reg < length model.now.chip.regs }
    ensures { OnOk result (text.new.items ≡ text.old.items ++ further_text model.now asked reg) }
{
    let ops = planned_further(alloc, model, asked, reg)?;
    push_some_block(text, model, Item::Reg(reg), b"its other resets", &ops)
}

/// Appends the plan of a memory: a comment, and the lines for its first and its last location.
pub fn push_mem(
    alloc: Global,
    text: &mut Vec<u8>,
    model: &Model,
    mem: u32,
) -> Result<(), AllocError>
    requires { mem < length model.now.chip.mems }
    ensures { OnOk result (text.new.items ≡ text.old.items ++ mem_text model.now mem) }
{
    let ops = planned_in(alloc, model, mem)?;
    let purpose = b"its first and its last location at each place";
    push_block(text, model, Item::Mem(mem), purpose, &ops)
}
