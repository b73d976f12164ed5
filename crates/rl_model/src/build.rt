//! Building a chip of its parts.
ghost use Rattle.std.specs.Prelude.{◌≡◌, ◌+◌, ◌*◌, ◌^◌, ◌<◌, ◌≤◌, ◌++◌, ◌∷◌, [], map, length, ⊤, IfOk, OnOk, IfErr};
ghost use Rattle.rl_model.specs.Rules.{scope_path, reg_path, mem_path, scopes_fault, field_fault, fields_fault};
ghost use Rattle.rl_model.specs.Rules.{all_scopes_fault, reg_fault, regs_fault, first_of, mem_checks, mem_fault};
ghost use Rattle.rl_model.specs.Rules.{mems_fault, kinds_fault, kinds_with, kinds_after, all_kinds, Passes};
ghost use Rattle.rl_model.specs.Rules as rules;
ghost use Rattle.rl_model.specs.Stages.{TakesOwnBits, numbered, field_next, fields_next, all_next};
ghost use Rattle.rl_model.specs.Build.{all_paths, reg_seen, regs_seen, mem_seen, first_kinds, chip_of, chip_fault};
ghost use Rattle.rl_model.specs.Build as build;

use crate::check::{add_path, check_field, check_width};
use crate::chip::Chip;
use crate::effects::all_effects;
use crate::fault::{Array, ModelCause, ModelFault, Spot};
use crate::limits::{MOST_KINDS, MOST_LOCATIONS, MOST_MEMS, MOST_REGS, MOST_SCOPES};
use crate::name::Name;
use crate::parts::{FieldPart, MemPart, Parts, RegPart, ResetPart, ScopePart};
use crate::paths::Paths;
use crate::rows::{Field, FieldRow, MemRow, RegRow, Reset};
use std::alloc::{AllocError, Global};

impl Chip {
    /// The chip of the parts, or the first condition that they fail, with its array, row and field.
    ///
    /// Blocks come first, then files, registers with their fields, and memories; the conditions of a row
    /// come in the order of its checks. Where the allocator has no memory left the answer is `Memory`.
    ///
    /// # Examples
    ///
    /// The parts have one register `a` with a field `v`, which is 0x5 after HARD.
    ///
    /// ```text
    /// let chip = Chip::build(alloc, &parts)?;
    /// chip.reg_by_path(b"a") == Some(0)
    /// chip.field_by_path(b"a.v") == Some(0)
    /// chip.reset_of(0, 0) == Some(0x5)
    /// chip.mem_by_path(b"a") == None
    /// ```
    #[tactic(auto, unfolding(crate::specs::Build::chip_of, crate::specs::Build::chip_fault))]
    pub fn build(alloc: Global, parts: &Parts) -> Result<Chip, ModelFault>
        ensures { Passes result (chip_fault parts.now) (λ chip. chip ≡ chip_of parts.now) }
    {
        let mut paths = Paths::new(alloc);
        let mut kinds = Paths::new(alloc);
        let (regs, fields, mems) = add_rows(alloc, &mut paths, &mut kinds, parts)?;
        let blocks = parts.blocks.len();
        let scopes = blocks + parts.files.len();
        let effects = all_effects(alloc, &regs, &fields)?;
        Ok(Chip {
            blocks: blocks as u32,
            scopes,
            paths,
            regs,
            mems,
            fields,
            kinds,
            effects,
        })
    }
}

/// Adds all paths and reset kinds, and answers the rows of registers, fields and memories.
fn add_rows(
    alloc: Global,
    paths: &mut Paths,
    kinds: &mut Paths,
    parts: &Parts,
) -> Result<(Vec<RegRow>, Vec<FieldRow>, Vec<MemRow>), ModelFault>
    requires paths { paths.old ≡ [] }
    requires kinds { kinds.old ≡ [] }
    ensures exact { Passes result (chip_fault parts.now)
        (λ r. (r.0.items ≡ regs_seen 0 parts.now.regs) × (r.1.items ≡ all_next 0 first_kinds parts.now.regs)
        × (r.2.items ≡ map mem_seen parts.now.mems) × (paths.new ≡ all_paths parts.now)
        × (kinds.new ≡ all_kinds first_kinds parts.now.regs)) }
    ensures few { OnOk result ((length parts.now.blocks ≤ 256) × (length parts.now.files ≤ 256)) }
{
    add_all_scopes(alloc, paths, parts)?;
    add_known_kinds(alloc, kinds)?;
    let scopes = paths.len();
    let (regs, fields) = add_regs(alloc, paths, kinds, scopes, &parts.regs)?;
    let mems = add_mems(alloc, paths, parts.blocks.len(), &parts.mems)?;
    Ok((regs, fields, mems))
}

fn row_of(array: Array, row: u32) -> Spot
    ensures { result ≡ rules.row_of array row }
{
    Spot {
        array,
        row,
        field: None,
    }
}

/// Adds the paths of the blocks, and then of the files.
fn add_all_scopes(alloc: Global, paths: &mut Paths, parts: &Parts) -> Result<(), ModelFault>
    requires { paths.old ≡ [] }
    ensures exact { Passes result (all_scopes_fault parts.now.blocks parts.now.files)
        (λ _. paths.new ≡ map scope_path parts.now.blocks ++ map scope_path parts.now.files) }
    ensures few { OnOk result ((length parts.now.blocks ≤ 256) × (length parts.now.files ≤ 256)) }
{
    add_scopes(alloc, paths, Array::Block, &parts.blocks)?;
    add_scopes(alloc, paths, Array::File, &parts.files)
}

/// Adds the paths of blocks or files.
fn add_scopes(
    alloc: Global,
    paths: &mut Paths,
    array: Array,
    parts: &[ScopePart],
) -> Result<(), ModelFault>
    ensures exact { Passes result (scopes_fault array 0 paths.old parts.now)
        (λ _. paths.new ≡ paths.old ++ map scope_path parts.now) }
    ensures few { OnOk result (length parts.now ≤ 256) }
{
    let mut row = 0u32;
    for part in parts {
        let parents = paths.len();
        add_path(
            alloc,
            paths,
            row_of(array, row),
            MOST_SCOPES,
            parents,
            &part.of,
            &part.name,
        )?;
        row += 1;
    }
    Ok(())
}

fn add_known_kinds(alloc: Global, kinds: &mut Paths) -> Result<(), AllocError>
    requires { kinds.old ≡ [] }
    ensures { OnOk result (kinds.new ≡ first_kinds) }
{
    kinds.find_or_add(alloc, b"HARD")?;
    kinds.find_or_add(alloc, b"SOFT")?;
    Ok(())
}

/// Numbers the kinds of a field's resets.
fn add_resets(
    alloc: Global,
    kinds: &mut Paths,
    parts: &[ResetPart],
) -> Result<Vec<Reset>, AllocError>
    ensures resets { IfOk result (λ resets. resets.items ≡ numbered kinds.old parts.now) }
    ensures kinds { OnOk result (kinds.new ≡ kinds_with kinds.old parts.now) }
{
    let mut resets = Vec::new(alloc);
    for part in parts {
        let kind = kinds.find_or_add(alloc, part.kind.text())?;
        resets.push(Reset {
            kind,
            value: part.value,
        })?;
    }
    Ok(resets)
}

/// Numbers the kinds of a field's resets, if there are few kinds then.
fn add_few_resets(
    alloc: Global,
    kinds: &mut Paths,
    parts: &[ResetPart],
    spot: Spot,
) -> Result<Vec<Reset>, ModelFault>
    ensures exact { Passes result (kinds_fault spot (kinds_with kinds.old parts.now))
        (λ resets. (resets.items ≡ numbered kinds.old parts.now) × (kinds.new ≡ kinds_with kinds.old parts.now)) }
    ensures few { OnOk result (length kinds.new ≤ 16) }
{
    let resets = add_resets(alloc, kinds, parts)?;
    if kinds.len() > MOST_KINDS {
        return Err(spot.refuses(ModelCause::TooMany));
    }
    Ok(resets)
}

/// Where the field of a register lies, and how it behaves.
fn shape_of(part: &FieldPart, reg: u32) -> Field
    requires lsb { part.now.lsb < 2 ^ 32 }
    requires width { part.now.width < 2 ^ 32 }
    ensures { result ≡ build.shape_of reg part.now }
{
    Field {
        reg,
        lsb: part.lsb as u32,
        width: part.width as u32,
        policy: part.policy,
        volatile: part.volatile,
        compare: part.compare,
        alone: part.alone,
    }
}

/// Adds the row of a field.
fn push_field(
    alloc: Global,
    fields: &mut Vec<FieldRow>,
    part: &FieldPart,
    shape: Field,
    resets: Vec<Reset>,
) -> Result<(), AllocError>
    ensures { OnOk result (fields.new.items ≡ fields.old.items
        ++ record { shape = shape; name = part.now.name; resets = resets.items } ∷ []) }
{
    let name = Name::of(Vec::from_slice(alloc, part.name.text())?);
    fields.push(FieldRow {
        shape,
        name,
        resets,
    })?;
    Ok(())
}

fn add_field(
    alloc: Global,
    kinds: &mut Paths,
    fields: &mut Vec<FieldRow>,
    earlier: &[FieldPart],
    part: &FieldPart,
    bytes: u64,
    spot: Spot,
) -> Result<(), ModelFault>
    requires { bytes ≤ 8 }
    ensures exact { Passes result (field_fault spot bytes earlier.now kinds.old part.now)
        (λ _. (fields.new.items ≡ fields.old.items ++ field_next spot.row kinds.old part.now ∷ [])
        × (kinds.new ≡ kinds_with kinds.old part.now.resets)) }
    ensures few { OnOk result (length kinds.new ≤ 16) }
    ensures own { OnOk result (TakesOwnBits (8 * bytes) earlier.now part.now) }
{
    check_field(alloc, earlier, part, bytes, spot)?;
    let shape = shape_of(part, spot.row);
    let resets = add_few_resets(alloc, kinds, &part.resets, spot)?;
    push_field(alloc, fields, part, shape, resets)?;
    Ok(())
}

/// Adds the fields of a register.
fn add_fields(
    alloc: Global,
    kinds: &mut Paths,
    fields: &mut Vec<FieldRow>,
    reg: &RegPart,
    spot: Spot,
) -> Result<(), ModelFault>
    requires bytes { reg.now.bytes ≤ 8 }
    requires kinds { length kinds.old ≤ 16 }
    ensures exact { Passes result (fields_fault spot reg.now 0 kinds.old reg.now.fields)
        (λ _. (fields.new.items ≡ fields.old.items ++ fields_next spot.row kinds.old reg.now.fields)
        × (kinds.new ≡ kinds_after kinds.old reg.now.fields)) }
    ensures few { OnOk result (length kinds.new ≤ 16) }
    ensures few_fields { OnOk result (length reg.now.fields ≤ 64) }
{
    for (i, part) in reg.fields.iter().enumerate() {
        let spot = Spot {
            field: Some(i as u32),
            ..spot
        };
        add_field(
            alloc,
            kinds,
            fields,
            &reg.fields[..i],
            part,
            reg.bytes,
            spot,
        )?;
    }
    Ok(())
}

/// Adds the path of a register and its fields.
fn add_reg(
    alloc: Global,
    paths: &mut Paths,
    kinds: &mut Paths,
    fields: &mut Vec<FieldRow>,
    scopes: usize,
    part: &RegPart,
    spot: Spot,
) -> Result<RegRow, ModelFault>
    requires kinds { length kinds.old ≤ 16 }
    requires fields { length fields.old.items < 2 ^ 32 }
    ensures exact { Passes result (reg_fault spot scopes paths.old kinds.old part.now)
        (λ reg. (reg ≡ reg_seen (length fields.old.items) part.now)
        × (fields.new.items ≡ fields.old.items ++ fields_next spot.row kinds.old part.now.fields)
        × (paths.new ≡ paths.old ++ reg_path part.now ∷ []) × (kinds.new ≡ kinds_after kinds.old part.now.fields)) }
    ensures few { OnOk result ((spot.row < 1024) × (length kinds.new ≤ 16)) }
    ensures few_fields { OnOk result (length part.now.fields ≤ 64) }
{
    let first = fields.len() as u32;
    add_path(alloc, paths, spot, MOST_REGS, scopes, &part.of, &part.name)?;
    check_width(part.bytes, spot)?;
    add_fields(alloc, kinds, fields, part, spot)?;
    Ok(RegRow {
        bytes: part.bytes as u32,
        backdoor: part.backdoor,
        skip: part.skip,
        first,
        count: part.fields.len() as u32,
    })
}

/// Adds the paths of registers, and numbers their fields.
fn add_regs(
    alloc: Global,
    paths: &mut Paths,
    kinds: &mut Paths,
    scopes: usize,
    parts: &[RegPart],
) -> Result<(Vec<RegRow>, Vec<FieldRow>), ModelFault>
    requires { length kinds.old ≤ 16 }
    ensures exact { Passes result (regs_fault 0 scopes paths.old kinds.old parts.now)
        (λ r. (r.0.items ≡ regs_seen 0 parts.now) × (r.1.items ≡ all_next 0 kinds.old parts.now)
        × (paths.new ≡ paths.old ++ map reg_path parts.now) × (kinds.new ≡ all_kinds kinds.old parts.now)) }
    ensures few { OnOk result ((length parts.now ≤ 1024) × (length kinds.new ≤ 16)) }
    ensures few_fields { IfOk result (λ r. length r.1.items ≤ 65536) }
{
    let mut regs = Vec::new(alloc);
    let mut fields = Vec::new(alloc);
    let mut row = 0u32;
    for part in parts {
        let spot = row_of(Array::Reg, row);
        let reg = add_reg(alloc, paths, kinds, &mut fields, scopes, part, spot)?;
        regs.push(reg)?;
        row += 1;
    }
    Ok((regs, fields))
}

/// Tests the bytes and the locations of a memory, which follows `total` locations.
fn check_mem(part: &MemPart, total: u64, spot: Spot) -> Result<(), ModelFault>
    requires { total ≤ 65536 }
    ensures exact { Passes result (first_of spot (mem_checks total part.now)) (λ _. ⊤) }
    ensures bytes { OnOk result (part.now.bytes ≤ 8) }
    ensures room { OnOk result (total + part.now.size ≤ 65536) }
{
    check_width(part.bytes, spot)?;
    if part.size < 1 || part.size > MOST_LOCATIONS {
        return Err(spot.refuses(ModelCause::BadSize));
    }
    if total + part.size > MOST_LOCATIONS {
        return Err(spot.refuses(ModelCause::TooMany));
    }
    Ok(())
}

/// Adds the path of a memory, which follows `total` locations.
fn add_mem(
    alloc: Global,
    paths: &mut Paths,
    blocks: usize,
    part: &MemPart,
    total: u64,
    spot: Spot,
) -> Result<MemRow, ModelFault>
    requires { total ≤ 65536 }
    ensures exact { Passes result (mem_fault spot blocks paths.old total part.now)
        (λ mem. (mem ≡ mem_seen part.now) × (paths.new ≡ paths.old ++ mem_path part.now ∷ [])) }
    ensures few { OnOk result (spot.row < 64) }
    ensures room { OnOk result (total + part.now.size ≤ 65536) }
{
    add_path(alloc, paths, spot, MOST_MEMS, blocks, &part.of, &part.name)?;
    check_mem(part, total, spot)?;
    Ok(MemRow {
        bytes: part.bytes as u32,
        size: part.size as u32,
        writable: part.writable,
        backdoor: part.backdoor,
        skip: part.skip,
    })
}

/// Adds the paths of memories.
fn add_mems(
    alloc: Global,
    paths: &mut Paths,
    blocks: usize,
    parts: &[MemPart],
) -> Result<Vec<MemRow>, ModelFault>
    ensures exact { Passes result (mems_fault 0 blocks paths.old 0 parts.now)
        (λ mems. (mems.items ≡ map mem_seen parts.now) × (paths.new ≡ paths.old ++ map mem_path parts.now)) }
    ensures few { OnOk result (length parts.now ≤ 64) }
{
    let mut mems = Vec::new(alloc);
    let mut row = 0u32;
    let mut total = 0u64;
    for part in parts {
        let mem = add_mem(alloc, paths, blocks, part, total, row_of(Array::Mem, row))?;
        mems.push(mem)?;
        total += part.size;
        row += 1;
    }
    Ok(mems)
}
