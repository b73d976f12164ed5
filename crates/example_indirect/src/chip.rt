//! The chip and its layout: registers `index` of 16 bits and `data` of 32 bits, each in one word of a plain bus.
ghost use Rattle.std.specs.Prelude.{◌≡◌, ◌<◌, ◌^◌, IfOk, length};
ghost use Rattle.rl_map.specs.Maps.{IsBuiltWith};

use crate::fault::Fault;
use bitflags::Flags;
use rl_bus::AdapterKind;
use rl_indirect::Window;
use rl_map::{Kind, Layout, MapNode, PlacePart};
use rl_model::{Chip, FieldPart, Name, Parts, RegPart, Rights, Skip};
use rl_policy::Policy;
use std::alloc::{AllocError, Global};

fn name(alloc: Global, text: &str) -> Result<Name, AllocError> {
    Ok(Name::of(Vec::from_slice(alloc, text.as_bytes())?))
}

// A field of all bits of its register, which holds what was written last.
fn field(alloc: Global, width: u64) -> Result<FieldPart, AllocError> {
    Ok(FieldPart {
        name: name(alloc, "value")?,
        lsb: 0,
        width,
        policy: Policy::Rw,
        volatile: false,
        compare: true,
        alone: false,
        resets: Vec::new(alloc),
    })
}

fn reg(alloc: Global, own: &str, width: u64) -> Result<RegPart, AllocError> {
    let mut fields = Vec::new(alloc);
    fields.push(field(alloc, width)?)?;
    Ok(RegPart {
        name: name(alloc, own)?,
        of: None,
        bytes: width / 8,
        backdoor: true,
        skip: Skip::empty(),
        fields,
    })
}

/// The chip.
pub(crate) fn table_chip(alloc: Global) -> Result<Chip, Fault> {
    let mut regs = Vec::new(alloc);
    regs.push(reg(alloc, "index", 16)?)?;
    regs.push(reg(alloc, "data", 32)?)?;
    let parts = Parts {
        blocks: Vec::new(alloc),
        files: Vec::new(alloc),
        regs,
        mems: Vec::new(alloc),
    };
    Ok(Chip::build(alloc, &parts)?)
}

fn root(alloc: Global) -> Result<MapNode, AllocError> {
    Ok(MapNode {
        name: name(alloc, "bus")?,
        base: 0,
        bytes: 4,
        kind: Kind::Little,
        word: false,
        parent: None,
        offset: 0,
        adapter: name(alloc, "plain")?,
        explicit: false,
    })
}

fn place(alloc: Global, own: &str, offset: u64) -> Result<PlacePart, AllocError> {
    Ok(PlacePart {
        map: name(alloc, "bus")?,
        item: name(alloc, own)?,
        offset,
        rights: Rights::READ.union(Rights::WRITE),
    })
}

/// Its layout on the bus of an adapter.
pub(crate) fn table_layout(
    alloc: Global,
    chip: &Chip,
    kinds: &[AdapterKind],
) -> Result<Layout, Fault>
    requires few { length kinds.now < 2 ^ 32 }
    ensures kinds { IfOk result (λ layout. layout.kinds ≡ kinds.now) }
    ensures built_with { IfOk result (λ layout. IsBuiltWith layout chip.now) }
{
    let mut maps = Vec::new(alloc);
    maps.push(root(alloc)?)?;
    let mut places = Vec::new(alloc);
    places.push(place(alloc, "index", 0)?)?;
    places.push(place(alloc, "data", 4)?)?;
    Ok(Layout::build(alloc, chip, &maps, &places, kinds)?)
}

/// The window of its two registers.
pub(crate) fn table_window(chip: &Chip) -> Result<Window, Fault>
    ensures index_reg { IfOk result (λ window. window.index_reg < length chip.now.regs) }
    ensures data_reg { IfOk result (λ window. window.data_reg < length chip.now.regs) }
{
    let index_reg = chip.reg_by_path(b"index");
    let data_reg = chip.reg_by_path(b"data");
    match (index_reg, data_reg) {
        (Some(index_reg), Some(data_reg)) => Ok(Window {
            index_reg,
            data_reg,
        }),
        _ => Err(Fault::NoRegister),
    }
}
