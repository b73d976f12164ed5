//! The flaws of a description.
ghost use Rattle.std.specs.Prelude.{◌≡◌, ◌^◌, ◌<◌, IfSome, nat_lt, length};
ghost use Rattle.rl_desc.specs.Refusals.{Reads};
ghost use Rattle.rl_desc.specs.Flaws.{field_at, kind_at, text_at, reg_paths, mem_paths, item_at, port_of_map};
ghost use Rattle.rl_desc.specs.Flaws.{root_at, reset_flaw, stuck_flaw, flaw_of, flaws_fault, flaws_of};

use crate::fault::DescFault;
use rl_flaw::Flaw;
use rl_map::Layout;
use rl_model::{Chip, Item, Name};
use rl_policy::Policy;
use std::alloc::Global;

const MOST_FLAWS: u32 = 256;

/// A flaw as its row gives it, with the names of what it concerns.
#[derive(Drop)]
pub(crate) enum FlawPart {
    OtherPolicy { field: Name, policy: Policy },
    OtherReset { field: Name, on: Name, value: u64 },
    Stuck { field: Name, bit: u64, value: u64 },
    ErrorRange { map: Name, from: u64, to: u64 },
    ErrorNth { nth: u64 },
    Deaf { item: Name },
}

/// The flaws by number, or the first that names what isn't there or has a value that it can't have.
pub(crate) fn number_flaws(
    alloc: Global,
    chip: &Chip,
    layout: &Layout,
    parts: &[FlawPart],
) -> Result<Vec<Flaw>, DescFault>
    ensures { Reads (λ flaws. flaws.items) result
        (flaws_fault chip.now layout.now 0 parts.now)
        (flaws_of chip.now layout.now parts.now) }
{
    let mut flaws = Vec::new(alloc);
    let mut row = 0u32;
    for part in parts {
        if row >= MOST_FLAWS {
            return Err(DescFault::TooManyFlaws { row });
        }
        let Some(flaw) = flaw_of(chip, layout, part) else {
            return Err(DescFault::Flaw { row });
        };
        flaws.push(flaw)?;
        row += 1;
    }
    Ok(flaws)
}

#[tactic(auto, unfolding(crate::specs::Flaws::flaw_of))]
fn flaw_of(chip: &Chip, layout: &Layout, part: &FlawPart) -> Option<Flaw>
    ensures { result ≡ flaw_of chip.now layout.now part.now }
{
    match part {
        FlawPart::OtherPolicy { field, policy } => Some(Flaw::OtherPolicy {
            field: field_at(chip, field)?,
            policy: *policy,
        }),
        FlawPart::OtherReset { field, on, value } => {
            reset_flaw(chip, field_at(chip, field)?, kind_at(chip, on)?, *value)
        }
        FlawPart::Stuck { field, bit, value } => {
            stuck_flaw(chip, field_at(chip, field)?, *bit, *value)
        }
        FlawPart::ErrorRange { map, from, to } => {
            let port = root_at(layout, map)?;
            if from > to {
                return None;
            }
            Some(Flaw::ErrorRange {
                port,
                from: *from,
                to: *to,
            })
        }
        FlawPart::ErrorNth { nth } => {
            if *nth == 0 {
                return None;
            }
            Some(Flaw::ErrorNth { nth: *nth })
        }
        FlawPart::Deaf { item } => Some(Flaw::Deaf {
            item: item_at(chip, item)?,
        }),
    }
}

/// A field has a flaw of its reset only for a kind for which it has a value.
fn reset_flaw(chip: &Chip, field: u32, kind: u32, value: u64) -> Option<Flaw>
    requires field { field < length chip.now.fields }
    requires kind { kind < length chip.now.kinds }
    ensures { result ≡ reset_flaw chip.now value field kind }
{
    let has_value = chip.reset_of(field, kind).is_some();
    if has_value && fits(value, chip.field(field).width) {
        Some(Flaw::OtherReset { field, kind, value })
    } else {
        None
    }
}

fn stuck_flaw(chip: &Chip, field: u32, bit: u64, value: u64) -> Option<Flaw>
    requires { field < length chip.now.fields }
    ensures { result ≡ stuck_flaw chip.now bit value field }
{
    let width = chip.field(field).width;
    if bit < u64::from(width) && value < 2 {
        Some(Flaw::Stuck {
            field,
            bit: bit as u32,
            value: value == 1,
        })
    } else {
        None
    }
}

/// Whether a value has no bit past the width.
fn fits(value: u64, width: u32) -> bool
    ensures { result ≡ nat_lt value (2 ^ width) }
{
    match 1u64.checked_shl(width) {
        Some(limit) => value < limit,
        None => true,
    }
}

fn field_at(chip: &Chip, path: &Name) -> Option<u32>
    ensures field { result ≡ field_at chip.now path.now }
    ensures there { IfSome result (λ f. f < length chip.now.fields) }
{
    chip.field_by_path(path.text())
}

fn kind_at(chip: &Chip, name: &Name) -> Option<u32>
    ensures kind { result ≡ kind_at chip.now name.now }
    ensures there { IfSome result (λ k. k < length chip.now.kinds) }
{
    chip.kind_by_name(name.text())
}

fn item_at(chip: &Chip, path: &Name) -> Option<Item>
    ensures { result ≡ item_at chip.now path.now }
{
    match reg_at(chip, path) {
        Some(reg) => Some(Item::Reg(reg)),
        None => Some(Item::Mem(mem_at(chip, path)?)),
    }
}

fn reg_at(chip: &Chip, path: &Name) -> Option<u32>
    ensures { result ≡ text_at path.now (reg_paths chip.now) }
{
    chip.reg_by_path(path.text())
}

fn mem_at(chip: &Chip, path: &Name) -> Option<u32>
    ensures { result ≡ text_at path.now (mem_paths chip.now) }
{
    chip.mem_by_path(path.text())
}

fn root_at(layout: &Layout, name: &Name) -> Option<u32>
    ensures { result ≡ root_at layout.now name.now }
{
    port_of(layout, layout.map_by_name(name.text())?)
}

/// The port of a map, which only a root has.
fn port_of(layout: &Layout, map: u32) -> Option<u32>
    ensures { result ≡ port_of_map layout.now map }
{
    for port in 0..layout.ports() {
        if layout.port_map(port) == map {
            return Some(port);
        }
    }
    None
}
