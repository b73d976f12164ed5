//! The tables of a device, and what they say of a field, a cell and an address.
ghost use Rattle.std.specs.Prelude.{◌≡◌, ◌<◌, length, ◌&&◌, ◌==◌, nat_le, find, map, IfOk, OnOk};
ghost use Rattle.std.specs.List.{list_any};
ghost use Rattle.rl_bus.specs.Setup.{policy_of, is_deaf, is_named, reset_of, is_of};
ghost use Rattle.rl_map.specs.Tables.{field_row, reset_rows, mem_rows};
ghost use Rattle.rl_flaw.specs.Flaws.{flaws_of, with_flaw};
ghost use Rattle.rl_bench.specs.FlawTables.{flaws_held};

use crate::find::resets_of;
use crate::rows::{field_rows, item_row, mem_rows, port_bytes, reg_bytes, reset_rows};
use rl_bus::{Cell, FieldRow, ItemRow, MemRow, PolicyRow, RangeRow, ResetRow, StuckRow, WordRow};
use rl_flaw::Flaw;
use rl_map::Layout;
use rl_model::Chip;
use rl_policy::Policy;
use std::alloc::{AllocError, Global};
use std::rc::Rc;

/// What the device has, and its flaws.
pub struct Tables {
    /// The size of each register in bytes.
    pub regs: Vec<u32>,
    /// The fields by register, with their declared policies.
    pub fields: Vec<FieldRow>,
    /// The declared reset values by field.
    pub resets: Vec<ResetRow>,
    /// The memories.
    pub mems: Vec<MemRow>,
    /// The width of each port in bytes.
    pub ports: Vec<u32>,
    /// The rows of the layout, shared with it.
    pub words: Rc<Vec<WordRow>>,
    /// The policies that the device has in place of the declared ones.
    pub other_policies: Vec<PolicyRow>,
    /// The reset values that it has in place of the declared ones.
    pub other_resets: Vec<ResetRow>,
    /// The bits that keep one value.
    pub stuck: Vec<StuckRow>,
    /// The addresses where items fail.
    pub ranges: Vec<RangeRow>,
    /// The numbers of the items that fail, counted from 1.
    pub nths: Vec<u64>,
    /// The registers and memories that bus writes don't reach.
    pub deaf: Vec<ItemRow>,
}

// Written out, so that whoever owns the tables lets them go by one call, and not field by field.
impl Drop for Tables {
    fn drop(self) {
        let Tables {
            regs: _,
            fields: _,
            resets: _,
            mems: _,
            ports: _,
            words: _,
            other_policies: _,
            other_resets: _,
            stuck: _,
            ranges: _,
            nths: _,
            deaf: _,
        } = self;
    }
}

/// The tables that are made of a chip.
#[derive(Drop)]
struct ChipTables {
    regs: Vec<u32>,
    fields: Vec<FieldRow>,
    resets: Vec<ResetRow>,
    mems: Vec<MemRow>,
}

fn chip_tables(alloc: Global, chip: &Chip) -> Result<ChipTables, AllocError>
    ensures regs { IfOk result (λ t. t.regs.items ≡ map (λ r. r.bytes) chip.now.regs) }
    ensures fields { IfOk result (λ t. t.fields.items ≡ map field_row chip.now.fields) }
    ensures resets { IfOk result (λ t. t.resets.items ≡ reset_rows 0 chip.now.fields) }
    ensures mems { IfOk result (λ t. t.mems.items ≡ mem_rows 0 chip.now.mems) }
{
    Ok(ChipTables {
        regs: reg_bytes(alloc, chip)?,
        fields: field_rows(alloc, chip)?,
        resets: reset_rows(alloc, chip)?,
        mems: mem_rows(alloc, chip)?,
    })
}

/// The tables that are made of flaws.
#[derive(Drop)]
struct FlawTables {
    policies: Vec<PolicyRow>,
    resets: Vec<ResetRow>,
    stuck: Vec<StuckRow>,
    ranges: Vec<RangeRow>,
    nths: Vec<u64>,
    deaf: Vec<ItemRow>,
}

/// Adds the row of a flaw to the table of its sort.
fn push_flaw(tables: &mut FlawTables, flaw: &Flaw) -> Result<(), AllocError>
    ensures { OnOk result (flaws_held tables.new ≡ with_flaw (flaws_held tables.old) flaw.now) }
{
    match *flaw {
        Flaw::OtherPolicy { field, policy } => {
            tables.policies.push(PolicyRow { field, policy })?;
        }
        Flaw::OtherReset { field, kind, value } => {
            tables.resets.push(ResetRow { field, kind, value })?;
        }
        Flaw::Stuck { field, bit, value } => {
            tables.stuck.push(StuckRow { field, bit, value })?;
        }
        Flaw::ErrorRange { port, from, to } => {
            tables.ranges.push(RangeRow { port, from, to })?;
        }
        Flaw::ErrorNth { nth } => {
            tables.nths.push(nth)?;
        }
        Flaw::Deaf { item } => {
            tables.deaf.push(item_row(item))?;
        }
    }
    Ok(())
}

fn flaw_tables(alloc: Global, flaws: &[Flaw]) -> Result<FlawTables, AllocError>
    ensures { IfOk result (λ t. flaws_held t ≡ flaws_of flaws.now) }
{
    let mut tables = FlawTables {
        policies: Vec::new(alloc),
        resets: Vec::new(alloc),
        stuck: Vec::new(alloc),
        ranges: Vec::new(alloc),
        nths: Vec::new(alloc),
        deaf: Vec::new(alloc),
    };
    for flaw in flaws {
        push_flaw(&mut tables, flaw)?;
    }
    Ok(tables)
}

fn other_policy(rows: &[PolicyRow], field: u32) -> Option<PolicyRow>
    ensures { result ≡ find (λ f. f.field == field) rows.now }
{
    rows.iter().copied().find(|row| row.field == field)
}

fn reset_in(rows: &[ResetRow], field: u32, kind: u32) -> Option<ResetRow>
    ensures { result ≡ find (λ r. r.field == field && r.kind == kind) rows.now }
{
    rows.iter()
        .copied()
        .find(|row| row.field == field && row.kind == kind)
}

impl Tables {
    ghost use Rattle.std.specs.List.Sorted.{IsNonDecreasingBy};
    ghost use Rattle.rl_map.specs.Layout.{IsSound};
    ghost use Rattle.rl_map.specs.Tables.{setup_of};
    ghost use Rattle.rl_bench.specs.Tables.{setup_held};

    /// The tables of a chip and a layout, with these flaws.
    #[tactic(auto, unfolding(rl_map::specs::Tables::setup_of))]
    pub fn build(
        alloc: Global,
        chip: &Chip,
        layout: &Layout,
        flaws: &[Flaw],
    ) -> Result<Tables, AllocError>
        ensures held { IfOk result (λ t. setup_held t ≡ setup_of chip.now layout.now (flaws_of flaws.now)) }
        ensures layout { IfOk result (λ _. IsSound layout.now) }
    {
        let ports = port_bytes(alloc, layout)?;
        let words = layout.shared_rows()?;
        let of_chip = chip_tables(alloc, chip)?;
        let of_flaws = flaw_tables(alloc, flaws)?;
        Ok(Tables {
            regs: of_chip.regs,
            fields: of_chip.fields,
            resets: of_chip.resets,
            mems: of_chip.mems,
            ports,
            words,
            other_policies: of_flaws.policies,
            other_resets: of_flaws.resets,
            stuck: of_flaws.stuck,
            ranges: of_flaws.ranges,
            nths: of_flaws.nths,
            deaf: of_flaws.deaf,
        })
    }

    /// The words of all places by port and address.
    pub fn words(&self) -> &[WordRow]
        ensures { result.now ≡ (setup_held self.now).words }
    {
        self.words.as_slice()
    }

    /// The policy that a field has in the device.
    pub fn policy_of(&self, field: u32) -> Policy
        requires { field < length (setup_held self.now).fields }
        ensures { result ≡ policy_of (setup_held self.now) field }
    {
        match other_policy(&self.other_policies, field) {
            Some(row) => row.policy,
            None => self.fields[field as usize].policy,
        }
    }

    /// The value that a field takes in the device at a reset of this kind.
    pub fn reset_of(&self, field: u32, kind: u32) -> Option<u64>
        requires { IsNonDecreasingBy (λ r. r.field) (setup_held self.now).resets }
        ensures { result ≡ reset_of (setup_held self.now) field kind }
    {
        match reset_in(&self.other_resets, field, kind) {
            Some(row) => Some(row.value),
            None => self.declared_reset(field, kind).map(|row| row.value),
        }
    }

    // The declared reset value.
    fn declared_reset(&self, field: u32, kind: u32) -> Option<ResetRow>
        requires { IsNonDecreasingBy (λ r. r.field) (setup_held self.now).resets }
        ensures { result ≡ find (λ r. r.field == field && r.kind == kind) (setup_held self.now).resets }
    {
        let own = resets_of(&self.resets, field);
        reset_in(&self.resets[own.first..own.end], field, kind)
    }

    /// Whether bus writes don't reach the cell.
    pub fn is_deaf(&self, cell: Cell) -> bool
        ensures { result ≡ is_deaf (setup_held self.now) cell }
    {
        self.deaf.iter().any(|row| is_of(cell, *row))
    }

    /// Whether a flaw makes an item fail by its address or by its number.
    pub fn is_named(&self, port: u32, address: u64, count: u64) -> bool
        ensures { result ≡ is_named (setup_held self.now) port address count }
    {
        is_in_range(&self.ranges, port, address) || is_counted(&self.nths, count)
    }
}

fn is_of(cell: Cell, row: ItemRow) -> bool
    ensures { result ≡ is_of cell row }
{
    match (cell, row) {
        (Cell::Reg { reg }, ItemRow::Reg { reg: named }) => reg == named,
        (Cell::Loc { mem, .. }, ItemRow::Mem { mem: named }) => mem == named,
        _ => false,
    }
}

fn is_in_range(ranges: &[RangeRow], port: u32, address: u64) -> bool
    ensures { result ≡ list_any (λ r. r.port == port && nat_le r.from address && nat_le address r.to) ranges.now }
{
    ranges.iter().any(|range| range.port == port && range.from <= address && address <= range.to)
}

fn is_counted(nths: &[u64], count: u64) -> bool
    ensures { result ≡ list_any (λ nth. nth == count) nths.now }
{
    nths.iter().any(|nth| *nth == count)
}
