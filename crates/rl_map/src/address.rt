//! Whether the addresses of a place are those that its port's adapter takes.
ghost use Rattle.std.specs.Prelude.{◌≡◌, ◌+◌, ◌<◌, ◌≤◌, ◌^◌, ◌%◌, ◌==◌, ℕ, length, not, true};
ghost use Rattle.std.specs.List.{list_any, range_with_len};
ghost use Rattle.rl_map.specs.Level.{IsPath};
ghost use Rattle.rl_map.specs.Building.{placed_at};
ghost use Rattle.rl_map.specs.Faults.{address_in, is_above, is_unaligned, some_byte};
ghost use Rattle.rl_map.specs.Layout.{location_of};
ghost use Rattle.rl_map.specs.Locations.{AreStraight};

use crate::path::Level;
use crate::rows::{PlaceRow, PortRow, location};

/// Whether a byte's address is above the adapter's last one.
fn is_above(row: &PlaceRow, path: &[Level], port: &PortRow, index: u32, byte: u64) -> bool
    requires path { IsPath path.now }
    requires size { row.now.bytes ≤ 8 }
    requires byte { byte < row.now.bytes }
    ensures { result ≡ is_above (placed_at row.now path.now port.now) index byte }
{
    let top = location(row, index).climb(path, byte);
    u128::from(port.kind.most_address) < u128::from(port.base) + top.address
}

/// Whether a byte's address is no multiple of the bus width.
fn is_off(row: &PlaceRow, path: &[Level], port: &PortRow, index: u32, byte: u64) -> bool
    requires path { IsPath path.now }
    requires size { row.now.bytes ≤ 8 }
    requires byte { byte < row.now.bytes }
    requires width { 0 < port.now.bytes }
    ensures { result ≡ not (address_in (placed_at row.now path.now port.now) index byte % port.now.bytes == 0) }
{
    let top = location(row, index).climb(path, byte);
    let address = u128::from(port.base) + top.address;
    address % u128::from(port.bytes) != 0
}

/// Whether a byte is at an address that isn't aligned, at the root or on the way.
fn is_unaligned(row: &PlaceRow, path: &[Level], port: &PortRow, index: u32, byte: u64) -> bool
    requires path { IsPath path.now }
    requires size { row.now.bytes ≤ 8 }
    requires byte { byte < row.now.bytes }
    requires width { 0 < port.now.bytes }
    ensures { result ≡ is_unaligned (placed_at row.now path.now port.now) index byte }
{
    port.kind.aligned && is_off(row, path, port, index, byte)
        || location(row, index).is_askew(path, byte)
}

fn is_location_above(row: &PlaceRow, path: &[Level], port: &PortRow, index: u32) -> bool
    requires path { IsPath path.now }
    requires size { row.now.bytes ≤ 8 }
    ensures { result ≡ list_any (is_above (placed_at row.now path.now port.now) index)
        (range_with_len 0 row.now.bytes) }
{
    for byte in 0..row.bytes {
        if is_above(row, path, port, index, byte) {
            return true;
        }
    }
    false
}

/// Whether the first two locations of an item are straight on the way of each byte, so that all of them
/// are evenly spaced.
fn is_even(row: &PlaceRow, path: &[Level]) -> bool
    requires path { IsPath path.now }
    requires size { row.now.bytes ≤ 8 }
    ensures { result ≡ true → AreStraight path.now (location_of row.now 0) 2 }
{
    for byte in 0..row.bytes {
        if location(row, 0).is_askew(path, byte) || location(row, 1).is_askew(path, byte) {
            return false;
        }
    }
    true
}

/// The first location that has to be tested for an address above: the last one, where all are evenly spaced.
fn first_to_test(row: &PlaceRow, path: &[Level]) -> u32
    requires path { IsPath path.now }
    requires size { row.now.bytes ≤ 8 }
    requires locations { 1 ≤ row.now.size }
    ensures even { 0 < result → AreStraight path.now (location_of row.now 0) 2 }
    ensures last { 0 < result → result + 1 ≡ row.now.size }
{
    if row.size > 1 && is_even(row, path) {
        row.size - 1
    } else {
        0
    }
}

/// Whether a word of a place is above the adapter's last address.
pub(crate) fn is_place_above(row: &PlaceRow, path: &[Level], port: &PortRow) -> bool
    requires path { IsPath path.now }
    requires size { row.now.bytes ≤ 8 }
    requires locations { 1 ≤ row.now.size }
    ensures { result ≡ some_byte (placed_at row.now path.now port.now)
        (is_above (placed_at row.now path.now port.now)) }
{
    for index in first_to_test(row, path)..row.size {
        if is_location_above(row, path, port, index) {
            return true;
        }
    }
    false
}

fn is_location_unaligned(row: &PlaceRow, path: &[Level], port: &PortRow, index: u32) -> bool
    requires path { IsPath path.now }
    requires size { row.now.bytes ≤ 8 }
    requires width { 0 < port.now.bytes }
    ensures { result ≡ list_any (is_unaligned (placed_at row.now path.now port.now) index)
        (range_with_len 0 row.now.bytes) }
{
    for byte in 0..row.bytes {
        if is_unaligned(row, path, port, index, byte) {
            return true;
        }
    }
    false
}

/// Whether a word of a place is at an address that isn't aligned. Where those of the first two locations are aligned,
/// all are.
pub(crate) fn is_place_unaligned(row: &PlaceRow, path: &[Level], port: &PortRow) -> bool
    requires path { IsPath path.now }
    requires size { row.now.bytes ≤ 8 }
    requires width { 0 < port.now.bytes }
    ensures { result ≡ some_byte (placed_at row.now path.now port.now)
        (is_unaligned (placed_at row.now path.now port.now)) }
{
    for index in 0..row.size.min(2) {
        if is_location_unaligned(row, path, port, index) {
            return true;
        }
    }
    false
}
