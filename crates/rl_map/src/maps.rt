//! The maps and ports of a layout.
ghost use Rattle.std.specs.Prelude.{⊤, ◌≡◌, ◌++◌, ◌+◌, ◌<◌, ◌≤◌, ◌^◌, ◌∷◌, ℕ, [], Some};
ghost use Rattle.std.specs.Prelude.{None, IfOk, OnOk, IfSome, length, All};
ghost use Rattle.rl_map.specs.Maps.{kind_number, map_row, path_under, port_under, port_row};
ghost use Rattle.rl_map.specs.Maps.{ports_with, tables_of, level_of, no_tables};
ghost use Rattle.rl_map.specs.Faults.{is_width, Passes, first_of, row_at, map_checks, maps_fault};
ghost use Rattle.rl_map.specs.Steps.{name_checks, under_checks, row_checks, adapter_checks, port_checks};
ghost use Rattle.rl_model.specs.declared.fault.Array.TheVariants as array;
ghost use Rattle.rl_map.specs.Building.{AreTables, IsMapRow, IsPortRow, IsUnder, HasPort};
ghost use Rattle.rl_bus.specs.Lanes.{IsWidth};

use crate::fault::{MapCause, MapFault, refusal, row_at};
use crate::find::map_number;
use crate::limits::{MOST_LEVELS, MOST_MAPS};
use crate::parts::MapNode;
use crate::path::{Level, Path};
use crate::rows::{MapRow, PortRow};
use rl_bus::AdapterKind;
use rl_model::{Array, Name, Spot, is_name};
use std::alloc::{AllocError, Global};

/// The number of the first kind with a name.
fn kind_number(kinds: &[AdapterKind], name: &[u8]) -> Option<usize>
    ensures { result ≡ kind_number kinds.now name.now }
{
    kinds.iter().position(|kind| kind.name.text() == name)
}

fn is_width(bytes: u64) -> bool
    ensures { result ≡ is_width bytes }
{
    bytes == 1 || bytes == 2 || bytes == 4 || bytes == 8
}

fn level_of(map: &MapNode) -> Level
    ensures { result ≡ level_of map.now }
{
    Level {
        bytes: map.bytes,
        kind: map.kind,
        word: map.word,
        offset: map.offset,
    }
}

/// A name of its own.
fn copied(alloc: Global, name: &Name) -> Result<Name, AllocError>
    ensures { IfOk result (λ copy. copy ≡ name.now) }
{
    Ok(Name::of(Vec::from_slice(alloc, name.text())?))
}

/// Refuses one map too many, a bad name, and one that is there.
fn check_name(maps: &[MapRow], map: &MapNode, spot: Spot) -> Result<(), MapFault>
    ensures few { OnOk result (length maps.now < 64) }
    ensures fault { Passes result (first_of spot (name_checks maps.now map.now)) (λ _. ⊤) }
{
    if maps.len() >= MOST_MAPS {
        return Err(refusal(spot, MapCause::TooMany));
    }
    if !is_name(map.name.text()) {
        return Err(refusal(spot, MapCause::BadName));
    }
    match map_number(maps, map.name.text()) {
        None => Ok(()),
        Some(_) => Err(refusal(spot, MapCause::DuplicateName)),
    }
}

/// The path of a map, from itself up to its root.
fn path_under(maps: &[MapRow], map: &MapNode, spot: Spot) -> Result<Path, MapFault>
    ensures path { IfOk result (λ path. path ≡ path_under maps.now map.now.parent (level_of map.now)) }
    ensures under { IfOk result (λ path. IsUnder maps.now map.now.parent) }
    ensures fault { Passes result (first_of spot (under_checks maps.now map.now)) (λ _. ⊤) }
{
    let level = level_of(map);
    match &map.parent {
        None => Ok(Path::of_root(level)),
        Some(parent) => match map_number(maps, parent.text()) {
            None => Err(refusal(spot, MapCause::NoSuchMap)),
            Some(number) => {
                let above = &maps[number];
                if above.path.levels().len() >= MOST_LEVELS {
                    return Err(refusal(spot, MapCause::TooDeep));
                }
                Ok(Path::under(level, &above.path))
            }
        },
    }
}

/// The port of a map, where there are `ports` so far.
fn port_under(maps: &[MapRow], ports: u32, map: &MapNode) -> u32
    ensures { result ≡ port_under ports maps.now map.now.parent }
{
    match &map.parent {
        None => ports,
        Some(parent) => match map_number(maps, parent.text()) {
            None => 0,
            Some(number) => maps[number].port,
        },
    }
}

/// The last address that a kind of adapter takes.
fn last_address(kind: &AdapterKind) -> u64
    ensures { result ≡ kind.now.most_address }
{
    kind.most_address
}

/// The port of a root.
fn port_row(kinds: &[AdapterKind], number: u32, map: &MapNode) -> Result<PortRow, MapFault>
    requires kinds { length kinds.now < 2 ^ 32 }
    requires width { IsWidth map.now.bytes }
    ensures row { IfOk result (λ row. row ≡ port_row kinds.now number map.now) }
    ensures fits { IfOk result (IsPortRow kinds.now (number + 1)) }
    ensures fault { Passes result (first_of (row_at array.Map number) (adapter_checks kinds.now map.now)) (λ _. ⊤) }
{
    let spot = row_at(Array::Map, number);
    match kind_number(kinds, map.adapter.text()) {
        None => Err(refusal(spot, MapCause::NoSuchAdapter)),
        Some(adapter) => {
            let kind = kinds[adapter];
            if map.bytes > u64::from(kind.most_bytes) {
                return Err(refusal(spot, MapCause::BadBytes));
            }
            prove!(last_address(&kind) <= u64::MAX);
            Ok(PortRow {
                map: number,
                base: map.base,
                bytes: map.bytes as u32,
                adapter: adapter as u32,
                kind,
                explicit: map.explicit,
            })
        }
    }
}

/// Adds the port of a map, if it is a root.
fn add_port(
    ports: &mut Vec<PortRow>,
    kinds: &[AdapterKind],
    number: u32,
    map: &MapNode,
) -> Result<(), MapFault>
    requires kinds { length kinds.now < 2 ^ 32 }
    requires width { IsWidth map.now.bytes }
    ensures added { OnOk result (ports.new.items ≡ ports_with kinds.now number ports.old.items map.now.parent map.now) }
    ensures has_port { OnOk result (HasPort kinds.now number map.now.parent map.now) }
    ensures fault { Passes result (first_of (row_at array.Map number) (port_checks kinds.now map.now)) (λ _. ⊤) }
{
    match &map.parent {
        None => {
            let row = port_row(kinds, number, map)?;
            ports.push(row)?;
        }
        Some(_) => {}
    }
    Ok(())
}

/// The row of a map, where there are `ports` so far.
fn map_row(alloc: Global, maps: &[MapRow], ports: u32, map: &MapNode) -> Result<MapRow, MapFault>
    requires { length maps.now ≤ 64 }
    ensures row { IfOk result (λ row. row ≡ map_row ports maps.now map.now) }
    ensures few { OnOk result (length maps.now < 64) }
    ensures under { OnOk result (IsUnder maps.now map.now.parent) }
    ensures width { OnOk result (IsWidth map.now.bytes) }
    ensures fault { Passes result
        (first_of (row_at array.Map (length maps.now)) (row_checks maps.now map.now)) (λ _. ⊤) }
{
    let spot = row_at(Array::Map, maps.len() as u32);
    check_name(maps, map, spot)?;
    let path = path_under(maps, map, spot)?;
    if !is_width(map.bytes) {
        return Err(refusal(spot, MapCause::BadBytes));
    }
    Ok(MapRow {
        name: copied(alloc, &map.name)?,
        path,
        port: port_under(maps, ports, map),
    })
}

/// Adds a map, and its port if it is a root.
fn add_map(
    alloc: Global,
    maps: &mut Vec<MapRow>,
    ports: &mut Vec<PortRow>,
    kinds: &[AdapterKind],
    map: &MapNode,
) -> Result<(), MapFault>
    requires kinds { length kinds.now < 2 ^ 32 }
    requires tables { AreTables kinds.now maps.old.items ports.old.items }
    ensures maps { OnOk result
        (maps.new.items ≡ maps.old.items ++ map_row (length ports.old.items) maps.old.items map.now ∷ []) }
    ensures ports { OnOk result
        (ports.new.items ≡ ports_with kinds.now (length maps.old.items) ports.old.items map.now.parent map.now) }
    ensures tables { OnOk result (AreTables kinds.now maps.new.items ports.new.items) }
    ensures fault { Passes result
        (first_of (row_at array.Map (length maps.old.items)) (map_checks kinds.now maps.old.items map.now)) (λ _. ⊤) }
{
    let number = maps.len() as u32;
    let count = ports.len() as u32;
    let row = map_row(alloc, maps, count, map)?;
    add_port(ports, kinds, number, map)?;
    maps.push(row)?;
    Ok(())
}

/// The rows of all maps and their ports.
pub(crate) fn add_maps(
    alloc: Global,
    parts: &[MapNode],
    kinds: &[AdapterKind],
) -> Result<(Vec<MapRow>, Vec<PortRow>), MapFault>
    requires { length kinds.now < 2 ^ 32 }
    ensures maps { IfOk result (λ r. r.0.items ≡ (tables_of kinds.now parts.now).maps) }
    ensures ports { IfOk result (λ r. r.1.items ≡ (tables_of kinds.now parts.now).ports) }
    ensures tables { IfOk result (λ r. AreTables kinds.now r.0.items r.1.items) }
    ensures fault { Passes result (maps_fault kinds.now no_tables parts.now) (λ _. ⊤) }
{
    let mut maps = Vec::new(alloc);
    let mut ports = Vec::new(alloc);
    for part in parts {
        add_map(alloc, &mut maps, &mut ports, kinds, part)?;
    }
    Ok((maps, ports))
}
