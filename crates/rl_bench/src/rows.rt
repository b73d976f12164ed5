//! The rows of a device's tables, from a chip, a layout and flaws.
ghost use Rattle.std.specs.Prelude.{◌≡◌, ◌+◌, ◌<◌, ◌^◌, ◌++◌, IfOk, map, length, slice_index_or};
ghost use Rattle.rl_model.specs.Chip.{IsSound};
ghost use Rattle.rl_map.specs.Layout.{IsSound as IsSoundLayout};
ghost use Rattle.rl_map.specs.Tables.{field_row, reset_rows, mem_rows};
ghost use Rattle.rl_bench.specs.Rows.{reset_of};
ghost use Rattle.rl_model.specs.declared.rows.Reset.{Reset as Resets};
ghost use Rattle.std.specs.Prelude.{ℕ};
ghost use Rattle.rl_flaw.specs.Flaws.{locations_of, item_row};

use rl_bus::{FieldRow, ItemRow, MemRow, ResetRow};
use rl_map::Layout;
use rl_model::{Chip, Item, Reset};
use std::alloc::{AllocError, Global};

// ---- a chip

/// The bytes of each register.
pub(crate) fn reg_bytes(alloc: Global, chip: &Chip) -> Result<Vec<u32>, AllocError>
    ensures { IfOk result (λ v. v.items ≡ map (λ r. r.bytes) chip.now.regs) }
{
    let mut rows = Vec::new(alloc);
    for reg in 0..chip.regs() {
        rows.push(chip.bytes(Item::Reg(reg)))?;
    }
    Ok(rows)
}

/// The fields of all registers.
pub(crate) fn field_rows(alloc: Global, chip: &Chip) -> Result<Vec<FieldRow>, AllocError>
    ensures { IfOk result (λ v. v.items ≡ map field_row chip.now.fields) }
{
    let mut rows = Vec::new(alloc);
    for number in 0..chip.fields() {
        let field = chip.field(number);
        rows.push(FieldRow {
            reg: field.reg,
            lsb: field.lsb,
            width: field.width,
            policy: field.policy,
        })?;
    }
    Ok(rows)
}

// The reset values of a field behind those that are there.
fn push_resets(rows: &mut Vec<ResetRow>, field: u32, resets: &[Reset]) -> Result<(), AllocError>
    requires { (k : ℕ) (d : Resets) → k < length resets.now → (slice_index_or resets.now k d).kind < 2 ^ 32 }
    ensures { IfOk result (λ _. rows.new.items ≡ rows.old.items ++ map (reset_of field) resets.now) }
{
    for reset in resets {
        rows.push(ResetRow {
            field,
            kind: reset.kind as u32,
            value: reset.value,
        })?;
    }
    Ok(())
}

/// The reset values of all fields.
pub(crate) fn reset_rows(alloc: Global, chip: &Chip) -> Result<Vec<ResetRow>, AllocError>
    ensures { IfOk result (λ v. v.items ≡ reset_rows 0 chip.now.fields) }
{
    let mut rows = Vec::new(alloc);
    for field in 0..chip.fields() {
        push_resets(&mut rows, field, chip.resets(field))?;
    }
    Ok(rows)
}

/// The memories, each after the locations of those before.
pub(crate) fn mem_rows(alloc: Global, chip: &Chip) -> Result<Vec<MemRow>, AllocError>
    ensures { IfOk result (λ v. v.items ≡ mem_rows 0 chip.now.mems) }
{
    let mut rows = Vec::new(alloc);
    let mut first = 0;
    for mem in 0..chip.mems() {
        let size = chip.size(mem);
        rows.push(MemRow {
            first,
            bytes: chip.bytes(Item::Mem(mem)),
            size,
            writable: chip.writable(mem),
        })?;
        first += size;
    }
    Ok(rows)
}

/// How many locations the memories have in all.
pub(crate) fn count_locations(chip: &Chip) -> usize
    ensures count { result ≡ locations_of chip.now }
    ensures sound { IsSound chip.now }
{
    let mut count = 0u32;
    for mem in 0..chip.mems() {
        count += chip.size(mem);
    }
    count as usize
}

// ---- a layout

/// The bytes of each port.
pub(crate) fn port_bytes(alloc: Global, layout: &Layout) -> Result<Vec<u32>, AllocError>
    ensures bytes { IfOk result (λ v. v.items ≡ map (λ p. p.bytes) layout.now.ports) }
    ensures sound { IsSoundLayout layout.now }
{
    let mut rows = Vec::new(alloc);
    for port in 0..layout.ports() {
        rows.push(layout.port_bytes(port))?;
    }
    Ok(rows)
}

// ---- flaws

/// The row of a register or a memory.
pub(crate) fn item_row(item: Item) -> ItemRow
    ensures { result ≡ item_row item }
{
    match item {
        Item::Reg(reg) => ItemRow::Reg { reg },
        Item::Mem(mem) => ItemRow::Mem { mem },
    }
}
