// The lines for some items: all of a chip, or those that are chosen.
ghost use Rattle.std.specs.Prelude.{◌≡◌, ◌++◌, All, IfOk, OnOk, flat_map, length, map};
ghost use Rattle.std.specs.List.{list_any, range_with_len};
ghost use Rattle.rl_model.specs.Chip.{HasItem};
ghost use Rattle.rl_plan.specs.Text.{is_memory, items_of, lines_text, part_text, plan_text, walked_text};

use crate::asked::Asked;
use crate::plan::{push_further, push_mem, push_reg};
use rl_access::Model;
use rl_model::{Chip, Item};
use std::alloc::{AllocError, Global};

// A part of the lines for some items; the parts come one after another, each of all items.
#[derive(Clone, Copy)]
pub(crate) enum Part {
    // Of registers, those with the reset HARD.
    First,
    // Of registers, those with their other resets.
    Further,
    // Of memories, those behind the walk over all memories.
    Memory,
}

// ---- the items of a chip

fn push_reg_items(items: &mut Vec<Item>, regs: u32) -> Result<(), AllocError>
    ensures { OnOk result (items.new.items ≡ items.old.items ++ map Item.Reg (range_with_len 0 regs)) }
{
    for reg in 0..regs {
        items.push(Item::Reg(reg))?;
    }
    Ok(())
}

fn push_mem_items(items: &mut Vec<Item>, mems: u32) -> Result<(), AllocError>
    ensures { OnOk result (items.new.items ≡ items.old.items ++ map Item.Mem (range_with_len 0 mems)) }
{
    for mem in 0..mems {
        items.push(Item::Mem(mem))?;
    }
    Ok(())
}

/// The registers of a chip, and its memories.
pub fn items_of(alloc: Global, chip: &Chip) -> Result<Vec<Item>, AllocError>
    ensures items { IfOk result (λ items. items.items ≡ items_of chip.now) }
    ensures each { IfOk result (λ items. All (HasItem chip.now) items.items) }
{
    let mut items = Vec::new(alloc);
    push_reg_items(&mut items, chip.regs())?;
    push_mem_items(&mut items, chip.mems())?;
    Ok(items)
}

// ---- the parts of the lines

// Appends the lines of an item in a part of all lines.
fn push_item(
    alloc: Global,
    text: &mut Vec<u8>,
    model: &Model,
    asked: Asked,
    part: Part,
    item: Item,
) -> Result<(), AllocError>
    requires { HasItem model.now.chip item }
    ensures { OnOk result (text.new.items ≡ text.old.items ++ part_text model.now asked part item) }
{
    match (part, item) {
        (Part::First, Item::Reg(reg)) => push_reg(alloc, text, model, asked, reg),
        (Part::Further, Item::Reg(reg)) => push_further(alloc, text, model, asked, reg),
        (Part::Memory, Item::Mem(mem)) => push_mem(alloc, text, model, mem),
        _ => Ok(()),
    }
}

// Appends a part of the lines.
fn push_part(
    alloc: Global,
    text: &mut Vec<u8>,
    model: &Model,
    asked: Asked,
    part: Part,
    items: &[Item],
) -> Result<(), AllocError>
    requires { All (HasItem model.now.chip) items.now }
    ensures { OnOk result (text.new.items ≡ text.old.items ++ flat_map (part_text model.now asked part) items.now) }
{
    for item in items {
        push_item(alloc, text, model, asked, part, *item)?;
    }
    Ok(())
}

fn is_memory(item: Item) -> bool
    ensures { result ≡ is_memory item }
{
    matches!(item, Item::Mem(_))
}

// Whether one of the items is a memory.
pub(crate) fn has_memory(items: &[Item]) -> bool
    ensures { result ≡ list_any is_memory items.now }
{
    items.iter().any(|item| is_memory(*item))
}

// Appends the walk over the memories, where one of the items is a memory.
fn push_walk(text: &mut Vec<u8>, items: &[Item]) -> Result<(), AllocError>
    ensures { OnOk result (text.new.items ≡ text.old.items ++ walked_text items.now) }
{
    if has_memory(items) {
        text.extend_from_slice(
            b"# the memories: each location beside its neighbours\nseq mem-walk *\n",
        )
    } else {
        Ok(())
    }
}

/// The lines for some registers and memories of a model's chip: the registers in the order given, those with further
/// kinds of reset again, a walk over all memories where one is given, and the memories given.
#[tactic(auto, unfolding(crate::specs::Text::lines_text))]
pub fn lines_text(
    alloc: Global,
    model: &Model,
    asked: Asked,
    items: &[Item],
) -> Result<Vec<u8>, AllocError>
    requires { All (HasItem model.now.chip) items.now }
    ensures { IfOk result (λ text. text.items ≡ lines_text model.now asked items.now) }
{
    let mut text = Vec::new(alloc);
    push_part(alloc, &mut text, model, asked, Part::First, items)?;
    push_part(alloc, &mut text, model, asked, Part::Further, items)?;
    push_walk(&mut text, items)?;
    push_part(alloc, &mut text, model, asked, Part::Memory, items)?;
    Ok(text)
}

/// The plan of a model's chip: the lines for its registers and its memories.
pub fn plan_text(alloc: Global, model: &Model, asked: Asked) -> Result<Vec<u8>, AllocError>
    ensures { IfOk result (λ text. text.items ≡ plan_text model.now asked) }
{
    let items = items_of(alloc, model.chip())?;
    lines_text(alloc, model, asked, &items)
}
