// The text of operations.
ghost use Rattle.std.specs.Prelude.{◌≡◌, ◌++◌, ◌<◌, All, codes, flat_map, length, true, OnOk};
ghost use Rattle.rl_policy.specs.Numbers.{spelled};
ghost use Rattle.rl_access.specs.Operation.{HasNumbers, IsMapIn, is_on_memory};
ghost use Rattle.rl_model.specs.Chip.{HasItem, path_of_item};
ghost use Rattle.rl_report.specs.Operation.{kind_text, map_text, number_text};
ghost use Rattle.rl_script.specs.Commands.{item_name};
ghost use Rattle.rl_plan.specs.Text.{HasLine, is_planned, item_text, op_line};

use rl_access::{Model, Op};
use rl_model::Item;
use rl_policy::spell;
use rl_script::Item as Verb;
use rl_session::push_pieces;
use std::alloc::AllocError;

// Appends a number, behind a space.
fn push_number(text: &mut Vec<u8>, number: u64) -> Result<(), AllocError>
    ensures { OnOk result (text.new.items ≡ text.old.items ++ number_text number) }
{
    let mut digits = [0u8; 16];
    let len = spell(&mut digits, number);
    text.extend_from_slice(b" 0x")?;
    text.extend_from_slice(&digits[..len])
}

fn push_numbers(text: &mut Vec<u8>, numbers: &[u64]) -> Result<(), AllocError>
    ensures { OnOk result (text.new.items ≡ text.old.items ++ flat_map number_text numbers.now) }
{
    for number in numbers {
        push_number(text, *number)?;
    }
    Ok(())
}

// Appends a map, where there is one.
fn push_map(text: &mut Vec<u8>, model: &Model, map: Option<u32>) -> Result<(), AllocError>
    requires { IsMapIn (length model.now.layout.maps) map }
    ensures { OnOk result (text.new.items ≡ text.old.items ++ map_text model.now.layout map) }
{
    let Some(map) = map else {
        return Ok(());
    };
    text.extend_from_slice(b" @")?;
    text.extend_from_slice(model.layout().map_name(map))
}

// Appends a command on an item, with its numbers and its map.
fn push_item(
    text: &mut Vec<u8>,
    model: &Model,
    verb: Verb,
    item: Item,
    numbers: &[u64],
    map: Option<u32>,
) -> Result<(), AllocError>
    requires item { HasItem model.now.chip item }
    requires map { IsMapIn (length model.now.layout.maps) map }
    ensures { OnOk result
        (text.new.items ≡ text.old.items ++ item_text model.now (item_name verb) item numbers.now map) }
{
    text.extend_from_slice(verb.name())?;
    text.push(b' ')?;
    text.extend_from_slice(model.chip().path(item))?;
    push_numbers(text, numbers)?;
    push_map(text, model, map)?;
    text.push(b'\n')?;
    Ok(())
}

fn kind_name(model: &Model, kind: u32) -> &[u8]
    requires { kind < length model.now.chip.kinds }
    ensures { result.now ≡ kind_text model.now.chip kind }
{
    model.chip().kind_name(kind)
}

// Appends a line of two pieces.
fn push_pair(text: &mut Vec<u8>, first: &[u8], second: &[u8]) -> Result<(), AllocError>
    ensures { OnOk result (text.new.items ≡ text.old.items ++ (first.now ++ second.now ++ codes "\n")) }
{
    text.extend_from_slice(first)?;
    text.extend_from_slice(second)?;
    text.push(b'\n')?;
    Ok(())
}

// Appends a reset.
fn push_reset(text: &mut Vec<u8>, model: &Model, kind: u32) -> Result<(), AllocError>
    requires { kind < length model.now.chip.kinds }
    ensures { OnOk result (text.new.items ≡ text.old.items ++ op_line model.now (Op.Reset kind)) }
{
    push_pair(text, b"reset ", kind_name(model, kind))
}

/// Appends the line of an operation, in its canonical spelling. It is one of those that a plan has: a reset, a check of
/// a register by either way, a write, a deposit, or a write, a check or a read of a location.
#[tactic(auto, using(crate::proofs::Texts::check_is, crate::proofs::Texts::back_check_is, crate::proofs::Texts::write_is, crate::proofs::Texts::poke_is))]
pub fn push_op(text: &mut Vec<u8>, model: &Model, op: Op) -> Result<(), AllocError>
    requires planned { is_planned op ≡ true }
    requires numbers { HasNumbers model.now.chip (length model.now.layout.maps) op }
    ensures { OnOk result (text.new.items ≡ text.old.items ++ op_line model.now op) }
{
    match op {
        Op::Reset { kind } => push_reset(text, model, kind),
        Op::Check { reg, map } => push_item(text, model, Verb::Check, Item::Reg(reg), &[], map),
        Op::BackCheck { reg } => push_item(text, model, Verb::BackCheck, Item::Reg(reg), &[], None),
        Op::Write { reg, map, value } => push_item(
            text,
            model,
            Verb::Write,
            Item::Reg(reg),
            &[value],
            map,
        ),
        Op::Poke { reg, value } => push_item(
            text,
            model,
            Verb::Poke,
            Item::Reg(reg),
            &[value],
            None,
        ),
        Op::MemWrite { .. } | Op::MemCheck { .. } | Op::MemRead { .. } => {
            push_on_memory(text, model, op)
        }
        _ => unreachable!(),
    }
}

#[tactic(auto, using(crate::proofs::Texts::mem_write_is, crate::proofs::Texts::mem_check_is, crate::proofs::Texts::mem_read_is))]
fn push_on_memory(text: &mut Vec<u8>, model: &Model, op: Op) -> Result<(), AllocError>
    requires planned { is_on_memory op ≡ true }
    requires numbers { HasNumbers model.now.chip (length model.now.layout.maps) op }
    ensures { OnOk result (text.new.items ≡ text.old.items ++ op_line model.now op) }
{
    match op {
        Op::MemWrite {
            mem,
            map,
            index,
            value,
        } => push_item(
            text,
            model,
            Verb::MemWrite,
            Item::Mem(mem),
            &[index, value],
            map,
        ),
        Op::MemCheck {
            mem,
            map,
            index,
            value,
        } => push_item(
            text,
            model,
            Verb::MemCheck,
            Item::Mem(mem),
            &[index, value],
            map,
        ),
        Op::MemRead { mem, map, index } => push_item(
            text,
            model,
            Verb::MemRead,
            Item::Mem(mem),
            &[index],
            map,
        ),
        _ => unreachable!(),
    }
}

/// Appends the lines of operations that a plan has.
pub(crate) fn push_ops(text: &mut Vec<u8>, model: &Model, ops: &[Op]) -> Result<(), AllocError>
    requires { All (HasLine model.now) ops.now }
    ensures { OnOk result (text.new.items ≡ text.old.items ++ flat_map (op_line model.now) ops.now) }
{
    for op in ops {
        push_op(text, model, *op)?;
    }
    Ok(())
}
