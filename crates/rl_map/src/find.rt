//! Words by address.
ghost use Rattle.std.specs.Prelude.{◌≡◌, ◌<◌, ◌≤◌, ◌*◌, ◌+◌, ◌^◌, ℕ, List, length, filter};
ghost use Rattle.std.specs.Prelude.{find, option_copied, position, bytes_eq, All, if◌then◌else◌, ◌==◌, not};
ghost use Rattle.std.specs.List.{position_or_len};
ghost use Rattle.rl_bus.specs.Setup.{stands_at};
ghost use Rattle.rl_map.specs.Layout.{key_of, index_of, is_in, lets_through, IsAscending};

use crate::rows::MapRow;
use rl_bus::{Cell, WordRow};

/// The place of a row in the order by port and address.
pub(crate) fn key(row: &WordRow) -> u128
    ensures { result ≡ key_of row.now }
{
    u128::from(row.port) * (u128::from(u64::MAX) + 1) + u128::from(row.address)
}

/// Whether a row has the right of a direction.
fn lets_through(row: &WordRow, write: bool) -> bool
    ensures { result ≡ lets_through write row.now }
{
    if write { row.writes } else { row.reads }
}

/// How many rows in front have a key.
fn count_in_front(rows: &[WordRow], sought: u128) -> usize
    ensures count { result ≡ position_or_len (λ r. not (key_of r == sought)) rows.now }
    ensures within { result ≤ length rows.now }
{
    rows.iter()
        .position(|row| key(row) != sought)
        .unwrap_or(rows.len())
}

/// The rows at an address of a port: the first by halves, and the few after it one by one.
pub(crate) fn rows_at(rows: &[WordRow], port: u32, address: u64) -> &[WordRow]
    requires ascending { IsAscending rows.now }
    requires low { All (λ r. r.address < 2 ^ 64) rows.now }
    ensures { result.now ≡ filter (stands_at port address) rows.now }
{
    let sought = u128::from(port) * (u128::from(u64::MAX) + 1) + u128::from(address);
    let rest = &rows[rows.partition_point(|row| key(row) < sought)..];
    &rest[..count_in_front(rest, sought)]
}

/// The first row that has the right of a direction.
pub(crate) fn first_through(rows: &[WordRow], write: bool) -> Option<&WordRow>
    ensures { option_copied result ≡ find (lets_through write) rows.now }
{
    rows.iter().find(|row| lets_through(row, write))
}

/// 1 where a test holds, and else 0.
pub(crate) fn one_if(test: bool) -> u32
    ensures { result ≡ (if test then 1 else 0) }
{
    if test { 1 } else { 0 }
}

/// How many rows have the right of a direction.
pub(crate) fn count_through(rows: &[WordRow], write: bool) -> u32
    requires { length rows.now < 2 ^ 32 }
    ensures { result ≡ length (filter (lets_through write) rows.now) }
{
    let mut count = 0;
    for row in rows {
        count += one_if(lets_through(row, write));
    }
    count
}

/// The location of a cell, which for a register is 0.
pub(crate) fn index_of(cell: Cell) -> u32
    ensures { result ≡ index_of cell }
{
    match cell {
        Cell::Reg { .. } => 0,
        Cell::Loc { index, .. } => index,
    }
}

/// Whether a map is the wanted one, where one is wanted.
pub(crate) fn is_in(wanted: Option<u32>, map: u32) -> bool
    ensures { result ≡ is_in wanted map }
{
    match wanted {
        None => true,
        Some(wanted) => map == wanted,
    }
}

/// The number of the map with a name.
pub(crate) fn map_number(maps: &[MapRow], name: &[u8]) -> Option<usize>
    ensures { result ≡ position (λ m. bytes_eq m.name name.now) maps.now }
{
    maps.iter().position(|map| map.name.text() == name)
}
