//! Reading the rows of a description.
#![tactic(auto, using(crate::proofs::StepLemmas::by_steps))]

ghost use Rattle.std.specs.Prelude.{◌≡◌, [], true, false, not, codes, IfOk, None};
ghost use Rattle.toml.specs.View.{items_view, table_view};
ghost use Rattle.rl_desc.specs.Prelude.{Reads, document_fault, document_data, column_fault, flaw_columns, flaw_as};
ghost use Rattle.rl_desc.specs.Prelude.{scope_fault, scope_of, reg_fault, reg_of, field_fault, field_of, mem_fault};
ghost use Rattle.rl_desc.specs.Prelude.{mem_of, map_fault, map_of, place_fault, place_of, flaw_fault, flaw_of};
ghost use Rattle.rl_desc.specs.Prelude.{is_writable, counts_words, is_explicit, at_spot, optional, held, held_or, rows_at};
ghost use Rattle.rl_desc.specs.Prelude.{text, truth, number, word, exclusions, resets, skip, tables_of};
ghost use Rattle.rl_desc.specs.Prelude.{reg_body_columns, field_check_columns, mem_body_columns, map_way_columns};
ghost use Rattle.rl_desc.specs.Prelude.{access_named, predict_named};
ghost use Rattle.rl_desc.specs.Prelude.{top_columns, row_fault};
ghost use Rattle.rl_desc.specs.Arrays.{rows_in, rows_of, rows_fault, rows_data, parts_fault, parts_data};
ghost use Rattle.rl_desc.specs.declared.key.Key.TheVariants as Key;
ghost use Rattle.rl_desc.specs.declared.words.Access.TheVariants as Access;
ghost use Rattle.rl_desc.specs.declared.words.FlawKind.TheVariants as Flaw;
ghost use Rattle.rl_desc.specs.declared.words.Predict.TheVariants as Predict;

use crate::document::{Arrays, Document};
use crate::fault::{DescFault, Rows};
use crate::flaw::FlawPart;
use crate::key::Key;
use crate::row::Row;
use crate::rows::{Described, read_rows};
use crate::words::{Access, Addressing, FlawKind, Predict};
use bitflags::Flags;
use rl_map::{Kind, MapNode, PlacePart};
use rl_model::{
    Array, FieldPart, MemPart, Name, Parts, RegPart, ResetPart, Rights, ScopePart, Skip, Spot,
};
use std::alloc::Global;
use toml::{Table, Value};

/// The rows of a description, or the first fault of their form.
pub(crate) fn read_document(alloc: Global, table: &Table) -> Result<Document, DescFault>
    ensures { Reads (λ d. d) result (document_fault (table_view table.now)) (document_data (table_view table.now)) }
{
    let arrays = arrays_of(alloc, table)?;
    read_arrays(alloc, &arrays)
}

/// The arrays of a description that has no other key.
fn arrays_of<'a>(alloc: Global, table: &'a Table) -> Result<Arrays<'a>, DescFault>
    ensures { Reads rows_in result (row_fault top_columns None (table_view table.now)) (rows_of (table_view table.now)) }
{
    let top = Row {
        alloc,
        table,
        spot: None,
    };
    top.only(&[
        Key::Block,
        Key::File,
        Key::Reg,
        Key::Mem,
        Key::Map,
        Key::Place,
        Key::Flaw,
    ])?;
    Ok(Arrays {
        blocks: top.rows(Key::Block)?,
        files: top.rows(Key::File)?,
        regs: top.rows(Key::Reg)?,
        mems: top.rows(Key::Mem)?,
        maps: top.rows(Key::Map)?,
        places: top.rows(Key::Place)?,
        flaws: top.rows(Key::Flaw)?,
    })
}

fn read_arrays(alloc: Global, arrays: &Arrays<'_>) -> Result<Document, DescFault>
    ensures { Reads (λ d. d) result (rows_fault (rows_in arrays.now)) (rows_data (rows_in arrays.now)) }
{
    Ok(Document {
        parts: read_parts(alloc, arrays)?,
        maps: read_rows(alloc, arrays.maps, Rows::Array(Array::Map))?,
        places: read_rows(alloc, arrays.places, Rows::Array(Array::Place))?,
        flaws: read_rows(alloc, arrays.flaws, Rows::Array(Array::Flaw))?,
    })
}

/// The rows that a chip is built of.
fn read_parts(alloc: Global, arrays: &Arrays<'_>) -> Result<Parts, DescFault>
    ensures { Reads (λ p. p) result (parts_fault (rows_in arrays.now)) (parts_data (rows_in arrays.now)) }
{
    Ok(Parts {
        blocks: read_rows(alloc, arrays.blocks, Rows::Array(Array::Block))?,
        files: read_rows(alloc, arrays.files, Rows::Array(Array::File))?,
        regs: read_rows(alloc, arrays.regs, Rows::Array(Array::Reg))?,
        mems: read_rows(alloc, arrays.mems, Rows::Array(Array::Mem))?,
    })
}

impl Described for ScopePart {
    ghost fault = { scope_fault };

    ghost data_of = { scope_of };

    fn read(alloc: Global, table: &Table, spot: Spot) -> Result<ScopePart, DescFault> {
        let row = Row {
            alloc,
            table,
            spot: Some(spot),
        };
        row.only(&[Key::Name, Key::Of])?;
        Ok(ScopePart {
            name: row.required(Key::Name)?,
            of: row.optional(Key::Of)?,
        })
    }
}

impl Described for RegPart {
    ghost fault = { reg_fault };

    ghost data_of = { reg_of };

    fn read(alloc: Global, table: &Table, spot: Spot) -> Result<RegPart, DescFault> {
        let row = Row {
            alloc,
            table,
            spot: Some(spot),
        };
        row.only(&[
            Key::Name,
            Key::Of,
            Key::Bytes,
            Key::Backdoor,
            Key::Skip,
            Key::Field,
        ])?;
        let name = row.required(Key::Name)?;
        let of = row.optional(Key::Of)?;
        let body = reg_body(&row)?;
        let fields = read_rows(alloc, body.fields, Rows::Fields(spot))?;
        Ok(RegPart {
            name,
            of,
            bytes: body.bytes,
            backdoor: body.backdoor,
            skip: body.skip,
            fields,
        })
    }
}

/// What follows the names of a register.
#[derive(Clone, Copy)]
struct RegBody<'a> {
    bytes: u64,
    backdoor: bool,
    skip: Skip,
    fields: &'a [Value],
}

fn reg_body<'a>(row: &Row<'a>) -> Result<RegBody<'a>, DescFault>
    ensures bytes { Reads (λ b. b.bytes) result
        (column_fault reg_body_columns row.now.spot (table_view row.now.table.now))
        (held_or 0 number Key.Bytes (table_view row.now.table.now)) }
    ensures backdoor { IfOk result (λ b. b.backdoor
        ≡ held_or true truth Key.Backdoor (table_view row.now.table.now)) }
    ensures skip { IfOk result (λ b. b.skip
        ≡ held_or (skip 0) exclusions Key.Skip (table_view row.now.table.now)) }
    ensures fields { IfOk result (λ b. tables_of (items_view b.fields.now) ≡ rows_at Key.Field (table_view row.now.table.now)) }
{
    Ok(RegBody {
        bytes: row.required(Key::Bytes)?,
        backdoor: row.held_or(Key::Backdoor, true)?,
        skip: row.held_or(Key::Skip, Skip::empty())?,
        fields: row.rows(Key::Field)?,
    })
}

impl Described for FieldPart {
    ghost fault = { field_fault };

    ghost data_of = { field_of };

    fn read(alloc: Global, table: &Table, spot: Spot) -> Result<FieldPart, DescFault> {
        let row = Row {
            alloc,
            table,
            spot: Some(spot),
        };
        row.only(&[
            Key::Name,
            Key::Lsb,
            Key::Width,
            Key::Policy,
            Key::Volatile,
            Key::Compare,
            Key::Alone,
            Key::Reset,
        ])?;
        let name = row.required(Key::Name)?;
        let lsb = row.required(Key::Lsb)?;
        let width = row.required(Key::Width)?;
        let policy = row.required_word(Key::Policy)?;
        let checks = field_checks(&row)?;
        Ok(FieldPart {
            name,
            lsb,
            width,
            policy,
            volatile: checks.volatile,
            compare: checks.compare,
            alone: checks.alone,
            resets: checks.resets,
        })
    }
}

/// Whether and how a check compares a field.
#[derive(Drop)]
struct FieldChecks {
    volatile: bool,
    compare: bool,
    alone: bool,
    resets: Vec<ResetPart>,
}

fn field_checks(row: &Row<'_>) -> Result<FieldChecks, DescFault>
    ensures volatile { Reads (λ c. c.volatile) result
        (column_fault field_check_columns row.now.spot (table_view row.now.table.now))
        (held_or false truth Key.Volatile (table_view row.now.table.now)) }
    ensures compare { IfOk result (λ c. c.compare
        ≡ held_or (not c.volatile) truth Key.Compare (table_view row.now.table.now)) }
    ensures alone { IfOk result (λ c. c.alone
        ≡ held_or false truth Key.Alone (table_view row.now.table.now)) }
    ensures resets { IfOk result (λ c. c.resets.items
        ≡ held_or [] resets Key.Reset (table_view row.now.table.now)) }
{
    let volatile = row.held_or(Key::Volatile, false)?;
    Ok(FieldChecks {
        volatile,
        compare: row.held_or(Key::Compare, !volatile)?,
        alone: row.held_or(Key::Alone, false)?,
        resets: row.held_or(Key::Reset, Vec::new(row.alloc))?,
    })
}

impl Access {
    fn is_writable(self) -> bool
        ensures { result ≡ is_writable self }
    {
        match self {
            Access::ReadWrite => true,
            Access::ReadOnly => false,
        }
    }
}

impl Described for MemPart {
    ghost fault = { mem_fault };

    ghost data_of = { mem_of };

    fn read(alloc: Global, table: &Table, spot: Spot) -> Result<MemPart, DescFault> {
        let row = Row {
            alloc,
            table,
            spot: Some(spot),
        };
        row.only(&[
            Key::Name,
            Key::Of,
            Key::Bytes,
            Key::Size,
            Key::Access,
            Key::Backdoor,
            Key::Skip,
        ])?;
        let name = row.required(Key::Name)?;
        let of = row.optional(Key::Of)?;
        let body = mem_body(&row)?;
        Ok(MemPart {
            name,
            of,
            bytes: body.bytes,
            size: body.size,
            writable: body.access.is_writable(),
            backdoor: body.backdoor,
            skip: body.skip,
        })
    }
}

/// What follows the names of a memory.
#[derive(Clone, Copy)]
struct MemBody {
    bytes: u64,
    size: u64,
    access: Access,
    backdoor: bool,
    skip: Skip,
}

fn mem_body(row: &Row<'_>) -> Result<MemBody, DescFault>
    ensures bytes { Reads (λ b. b.bytes) result
        (column_fault mem_body_columns row.now.spot (table_view row.now.table.now))
        (held_or 0 number Key.Bytes (table_view row.now.table.now)) }
    ensures size { IfOk result (λ b. b.size ≡ held_or 0 number Key.Size (table_view row.now.table.now)) }
    ensures access { IfOk result (λ b. b.access
        ≡ held_or Access.ReadWrite (word access_named) Key.Access (table_view row.now.table.now)) }
    ensures backdoor { IfOk result (λ b. b.backdoor
        ≡ held_or true truth Key.Backdoor (table_view row.now.table.now)) }
    ensures skip { IfOk result (λ b. b.skip
        ≡ held_or (skip 0) exclusions Key.Skip (table_view row.now.table.now)) }
{
    Ok(MemBody {
        bytes: row.required(Key::Bytes)?,
        size: row.required(Key::Size)?,
        access: row.word_or(Key::Access, Access::ReadWrite)?,
        backdoor: row.held_or(Key::Backdoor, true)?,
        skip: row.held_or(Key::Skip, Skip::empty())?,
    })
}

impl Addressing {
    fn counts_words(self) -> bool
        ensures { result ≡ counts_words self }
    {
        match self {
            Addressing::Byte => false,
            Addressing::Word => true,
        }
    }
}

impl Predict {
    fn is_explicit(self) -> bool
        ensures { result ≡ is_explicit self }
    {
        match self {
            Predict::Implicit => false,
            Predict::Explicit => true,
        }
    }
}

/// The adapter that a map names, or the plain one.
fn adapter(row: &Row<'_>) -> Result<Name, DescFault>
    ensures { Reads (λ name. name) result
        (at_spot row.now.spot (optional text Key.Adapter (table_view row.now.table.now)))
        (held_or (codes "plain") text Key.Adapter (table_view row.now.table.now)) }
{
    match row.optional::<Name>(Key::Adapter)? {
        Some(adapter) => Ok(adapter),
        None => Ok(Name::of(Vec::from_slice(row.alloc, b"plain")?)),
    }
}

impl Described for MapNode {
    ghost fault = { map_fault };

    ghost data_of = { map_of };

    fn read(alloc: Global, table: &Table, spot: Spot) -> Result<MapNode, DescFault> {
        let row = Row {
            alloc,
            table,
            spot: Some(spot),
        };
        row.only(&[
            Key::Name,
            Key::Bytes,
            Key::Endian,
            Key::Addressing,
            Key::Base,
            Key::Parent,
            Key::Offset,
            Key::Adapter,
            Key::Predict,
        ])?;
        let name = row.required(Key::Name)?;
        let bytes = row.required(Key::Bytes)?;
        let kind = row.word_or(Key::Endian, Kind::Little)?;
        let addressing = row.word_or(Key::Addressing, Addressing::Byte)?;
        let base = row.held_or(Key::Base, 0)?;
        let way = map_way(&row)?;
        Ok(MapNode {
            name,
            bytes,
            kind,
            word: addressing.counts_words(),
            base,
            parent: way.parent,
            offset: way.offset,
            adapter: way.adapter,
            explicit: way.predict.is_explicit(),
        })
    }
}

/// How a map is reached: in its parent, or as a root by an adapter.
#[derive(Drop)]
struct MapWay {
    parent: Option<Name>,
    offset: u64,
    adapter: Name,
    predict: Predict,
}

fn map_way(row: &Row<'_>) -> Result<MapWay, DescFault>
    ensures parent { Reads (λ w. w.parent) result
        (column_fault map_way_columns row.now.spot (table_view row.now.table.now))
        (held text Key.Parent (table_view row.now.table.now)) }
    ensures offset { IfOk result (λ w. w.offset
        ≡ held_or 0 number Key.Offset (table_view row.now.table.now)) }
    ensures adapter { IfOk result (λ w. w.adapter
        ≡ held_or (codes "plain") text Key.Adapter (table_view row.now.table.now)) }
    ensures predict { IfOk result (λ w. w.predict
        ≡ held_or Predict.Implicit (word predict_named) Key.Predict (table_view row.now.table.now)) }
{
    Ok(MapWay {
        parent: row.optional(Key::Parent)?,
        offset: row.held_or(Key::Offset, 0)?,
        adapter: adapter(row)?,
        predict: row.word_or(Key::Predict, Predict::Implicit)?,
    })
}

impl Described for PlacePart {
    ghost fault = { place_fault };

    ghost data_of = { place_of };

    fn read(alloc: Global, table: &Table, spot: Spot) -> Result<PlacePart, DescFault> {
        let row = Row {
            alloc,
            table,
            spot: Some(spot),
        };
        row.only(&[Key::Map, Key::Item, Key::Offset, Key::Rights])?;
        Ok(PlacePart {
            map: row.required(Key::Map)?,
            item: row.required(Key::Item)?,
            offset: row.held_or(Key::Offset, 0)?,
            rights: row.word_or(Key::Rights, Rights::READ.union(Rights::WRITE))?,
        })
    }
}

impl Described for FlawPart {
    ghost fault = { flaw_fault };

    ghost data_of = { flaw_of };

    fn read(alloc: Global, table: &Table, spot: Spot) -> Result<FlawPart, DescFault> {
        let row = Row {
            alloc,
            table,
            spot: Some(spot),
        };
        row.only(&[
            Key::Kind,
            Key::Field,
            Key::Policy,
            Key::On,
            Key::Value,
            Key::Bit,
            Key::Map,
            Key::From,
            Key::To,
            Key::Nth,
            Key::Item,
        ])?;
        let kind = row.required_word(Key::Kind)?;
        flaw(&row, kind)
    }
}

fn flaw(row: &Row<'_>, kind: FlawKind) -> Result<FlawPart, DescFault>
    ensures { Reads (λ f. f) result
        (column_fault (flaw_columns kind) row.now.spot (table_view row.now.table.now))
        (flaw_as kind (table_view row.now.table.now)) }
{
    match kind {
        FlawKind::OtherPolicy => other_policy(row),
        FlawKind::OtherReset => other_reset(row),
        FlawKind::Stuck => stuck(row),
        FlawKind::ErrorRange => error_range(row),
        FlawKind::ErrorNth => Ok(FlawPart::ErrorNth {
            nth: row.required(Key::Nth)?,
        }),
        FlawKind::Deaf => Ok(FlawPart::Deaf {
            item: row.required(Key::Item)?,
        }),
    }
}

fn other_policy(row: &Row<'_>) -> Result<FlawPart, DescFault>
    ensures { Reads (λ f. f) result
        (column_fault (flaw_columns Flaw.OtherPolicy) row.now.spot (table_view row.now.table.now))
        (flaw_as Flaw.OtherPolicy (table_view row.now.table.now)) }
{
    Ok(FlawPart::OtherPolicy {
        field: row.required(Key::Field)?,
        policy: row.required_word(Key::Policy)?,
    })
}

fn other_reset(row: &Row<'_>) -> Result<FlawPart, DescFault>
    ensures { Reads (λ f. f) result
        (column_fault (flaw_columns Flaw.OtherReset) row.now.spot (table_view row.now.table.now))
        (flaw_as Flaw.OtherReset (table_view row.now.table.now)) }
{
    Ok(FlawPart::OtherReset {
        field: row.required(Key::Field)?,
        on: row.required(Key::On)?,
        value: row.required(Key::Value)?,
    })
}

fn stuck(row: &Row<'_>) -> Result<FlawPart, DescFault>
    ensures { Reads (λ f. f) result
        (column_fault (flaw_columns Flaw.Stuck) row.now.spot (table_view row.now.table.now))
        (flaw_as Flaw.Stuck (table_view row.now.table.now)) }
{
    Ok(FlawPart::Stuck {
        field: row.required(Key::Field)?,
        bit: row.required(Key::Bit)?,
        value: row.required(Key::Value)?,
    })
}

fn error_range(row: &Row<'_>) -> Result<FlawPart, DescFault>
    ensures { Reads (λ f. f) result
        (column_fault (flaw_columns Flaw.ErrorRange) row.now.spot (table_view row.now.table.now))
        (flaw_as Flaw.ErrorRange (table_view row.now.table.now)) }
{
    Ok(FlawPart::ErrorRange {
        map: row.required(Key::Map)?,
        from: row.required(Key::From)?,
        to: row.required(Key::To)?,
    })
}
