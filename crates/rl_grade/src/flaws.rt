// The single flaws of a description.
ghost use Rattle.std.specs.Prelude.{◌≡◌, ◌++◌, ◌<◌, ◌≤◌, length, bytes_eq, IfOk, OnOk};
ghost use Rattle.std.specs.List.{list_any};
ghost use Rattle.rl_policy.specs.Names.{name_of};
ghost use Rattle.rl_grade.specs.Flaws.{stuck_bits, wrong_values, wrong_resets, other_policies, field_flaws, is_tried};
ghost use Rattle.rl_grade.specs.Flaws.{is_of, is_tried_with, is_own, own_addresses, item_flaws, session_flaws};

use rl_bench::Flaw;
use rl_bus::{Cell, WordRow};
use rl_map::Layout;
use rl_model::{Chip, Item};
use rl_policy::{POLICIES, Policy};
use std::alloc::{AllocError, Global};

// Appends each bit of a field, stuck at a value.
fn push_stuck(flaws: &mut Vec<Flaw>, field: u32, width: u32, value: bool) -> Result<(), AllocError>
    ensures { OnOk result (flaws.new.items ≡ flaws.old.items ++ stuck_bits field width value) }
{
    for bit in 0..width {
        flaws.push(Flaw::Stuck { field, bit, value })?;
    }
    Ok(())
}

// Appends each value that is wrong in one bit.
fn push_wrong(
    flaws: &mut Vec<Flaw>,
    field: u32,
    width: u32,
    kind: u32,
    value: u64,
) -> Result<(), AllocError>
    requires { width ≤ 64 }
    ensures { OnOk result (flaws.new.items ≡ flaws.old.items ++ wrong_values field width kind value) }
{
    for bit in 0..width {
        flaws.push(Flaw::OtherReset {
            field,
            kind,
            value: value ^ (1 << bit),
        })?;
    }
    Ok(())
}

// Appends those of each kind of reset that the field has a value for.
fn push_resets(flaws: &mut Vec<Flaw>, chip: &Chip, field: u32, width: u32) -> Result<(), AllocError>
    requires field { field < length chip.now.fields }
    requires width { width ≤ 64 }
    ensures { OnOk result
        (flaws.new.items ≡ flaws.old.items ++ wrong_resets chip.now field width (length chip.now.kinds)) }
{
    for kind in 0..chip.kinds() {
        if let Some(value) = chip.reset_of(field, kind) {
            push_wrong(flaws, field, width, kind, value)?;
        }
    }
    Ok(())
}

/// Whether two policies have one name.
pub(crate) fn is_same(a: Policy, b: Policy) -> bool
    ensures { result ≡ bytes_eq (name_of a) (name_of b) }
{
    a.name().as_bytes() == b.name().as_bytes()
}

// Appends each other policy.
fn push_policies(flaws: &mut Vec<Flaw>, field: u32, own: Policy) -> Result<(), AllocError>
    ensures { OnOk result (flaws.new.items ≡ flaws.old.items ++ other_policies field own POLICIES) }
{
    for policy in POLICIES {
        if !is_same(policy, own) {
            flaws.push(Flaw::OtherPolicy { field, policy })?;
        }
    }
    Ok(())
}

/// The single flaws of a field: each bit stuck at 0 and at 1, each reset value that is wrong in one bit, and each other
/// policy, in this order.
///
/// # Examples
///
/// Field 0 is `RW`, 4 bits wide, and has a reset value for HARD alone.
///
/// ```text
/// let flaws = field_flaws(alloc, &chip, 0)?;
/// // 4 bits stuck at 0 and 4 at 1, 4 wrong reset values, and 24 other policies:
/// flaws.len() == 36
/// flaws[0] == Flaw::Stuck { field: 0, bit: 0, value: false }
/// ```
pub fn field_flaws(alloc: Global, chip: &Chip, field: u32) -> Result<Vec<Flaw>, AllocError>
    requires { field < length chip.now.fields }
    ensures { IfOk result (λ flaws. flaws.items ≡ field_flaws chip.now field POLICIES) }
{
    let mut flaws = Vec::new(alloc);
    let shape = chip.field(field);
    push_stuck(&mut flaws, field, shape.width, false)?;
    push_stuck(&mut flaws, field, shape.width, true)?;
    push_resets(&mut flaws, chip, field, shape.width)?;
    push_policies(&mut flaws, field, shape.policy)?;
    Ok(flaws)
}

// Whether the address of a word is tried: a register's, or one of a memory's first or last location.
fn is_tried(chip: &Chip, cell: Cell) -> bool
    ensures { result ≡ is_tried chip.now cell }
{
    match cell {
        Cell::Reg { .. } => true,
        Cell::Loc { mem, index } => {
            mem < chip.mems() && (index == 0 || index == chip.size(mem) - 1)
        }
    }
}

pub(crate) fn is_of(cell: Cell, item: Item) -> bool
    ensures { result ≡ is_of cell item }
{
    match (cell, item) {
        (Cell::Reg { reg }, Item::Reg(own)) => reg == own,
        (Cell::Loc { mem, .. }, Item::Mem(own)) => mem == own,
        _ => false,
    }
}

// Whether another word's address is tried that is this one's.
fn is_tried_with(chip: &Chip, other: &WordRow, row: &WordRow) -> bool
    ensures { result ≡ is_tried_with chip.now row.now other.now }
{
    other.port == row.port && other.address == row.address && is_tried(chip, other.cell)
}

// Whether one of these is such a word.
fn has_tried(chip: &Chip, rows: &[WordRow], row: &WordRow) -> bool
    ensures { result ≡ list_any (is_tried_with chip.now row.now) rows.now }
{
    rows.iter().any(|other| is_tried_with(chip, other, row))
}

// Whether a word is an item's, its address is tried, and it is the first at its address of which this is so.
fn is_own(chip: &Chip, rows: &[WordRow], k: usize, item: Item) -> bool
    requires { k < length rows.now }
    ensures { result ≡ is_own chip.now rows.now k item }
{
    let row = rows[k];
    is_of(row.cell, item) && is_tried(chip, row.cell) && !has_tried(chip, &rows[..k], &row)
}

// Appends each address of an item as a range that fails.
fn push_addresses(
    flaws: &mut Vec<Flaw>,
    chip: &Chip,
    rows: &[WordRow],
    item: Item,
) -> Result<(), AllocError>
    ensures { OnOk result
        (flaws.new.items ≡ flaws.old.items ++ own_addresses chip.now rows.now item (length rows.now)) }
{
    for k in 0..rows.len() {
        if is_own(chip, rows, k, item) {
            let row = rows[k];
            flaws.push(Flaw::ErrorRange {
                port: row.port,
                from: row.address,
                to: row.address,
            })?;
        }
    }
    Ok(())
}

/// The single flaws of a register or memory as a whole: it is deaf, and each address of its words fails, of a memory
/// those of its first and its last location. An address of several such words is the one's that is first in the
/// layout.
pub fn item_flaws(
    alloc: Global,
    chip: &Chip,
    layout: &Layout,
    item: Item,
) -> Result<Vec<Flaw>, AllocError>
    ensures { IfOk result (λ flaws. flaws.items ≡ item_flaws chip.now layout.now item) }
{
    let rows = layout.shared_rows()?;
    let mut flaws = Vec::new(alloc);
    flaws.push(Flaw::Deaf { item })?;
    push_addresses(&mut flaws, chip, &rows, item)?;
    Ok(flaws)
}

/// The single flaws of a session that sends so many bus items: the first and the last of them fail.
pub fn session_flaws(alloc: Global, items: u64) -> Result<Vec<Flaw>, AllocError>
    ensures { IfOk result (λ flaws. flaws.items ≡ session_flaws items) }
{
    let mut flaws = Vec::new(alloc);
    if items > 0 {
        flaws.push(Flaw::ErrorNth { nth: 1 })?;
    }
    if items > 1 {
        flaws.push(Flaw::ErrorNth { nth: items })?;
    }
    Ok(flaws)
}
