//! Words of two places at one address.
ghost use Rattle.std.specs.Prelude.{◌≡◌, false, true, ◌≤◌, ◌<◌, ◌^◌, ◌&&◌, ◌||◌, ℕ, List, None, Some, Option, OnOk};
ghost use Rattle.std.specs.Prelude.{length, fold, All, if◌then◌else◌, ◌==◌, slice_index_or, IsPermutation};
ghost use Rattle.std.specs.List.Sorted.{IsStableByKey};
ghost use Rattle.std.specs.Ordering.{nat_cmp};
ghost use Rattle.rl_map.specs.Layout.{IsAscending, key_of};
ghost use Rattle.rl_map.specs.Building.{rows_clash, NoRowsClash, AreRowsOf};
ghost use Rattle.rl_map.specs.Clashes.{shared_by, is_before, earlier, with_pair, NotAfter, IsMade, IsLeast};

use crate::find::key;
use crate::rows::PlaceRow;
use rl_bus::WordRow;
use std::alloc::AllocError;

/// A place that clashes with an earlier one at an address.
#[derive(Clone, Copy)]
pub(crate) struct Shared {
    pub(crate) place: u32,
    pub(crate) address: u64,
    pub(crate) other: u32,
}

/// Whether two rows of one address may not be there together.
fn rows_clash(places: &[PlaceRow], a: &WordRow, b: &WordRow) -> bool
    requires first { a.now.place < length places.now }
    requires second { b.now.place < length places.now }
    ensures { result ≡ rows_clash places.now a.now b.now }
{
    a.place != b.place
        && (a.reads && b.reads
            || a.writes && b.writes
            || places[a.place as usize].fifo
            || places[b.place as usize].fifo)
}

/// The clash of two rows of one address.
fn shared_by(a: &WordRow, b: &WordRow) -> Shared
    ensures { result ≡ shared_by a.now b.now }
{
    if a.place < b.place {
        Shared {
            place: b.place,
            address: b.address,
            other: a.place,
        }
    } else {
        Shared {
            place: a.place,
            address: b.address,
            other: b.place,
        }
    }
}

/// By place, then by address, then by the earlier place.
fn is_before(a: Shared, b: Shared) -> bool
    ensures { result ≡ is_before a b }
{
    a.place < b.place
        || a.place == b.place
            && (a.address < b.address || a.address == b.address && a.other < b.other)
}

fn earlier(best: Option<Shared>, found: Shared) -> Shared
    ensures { result ≡ earlier best found }
{
    match best {
        None => found,
        Some(best) => { if is_before(found, best) { found } else { best } }
    }
}

/// The best with the clash of two rows, if they clash.
fn with_pair(
    places: &[PlaceRow],
    row: &WordRow,
    best: Option<Shared>,
    other: &WordRow,
) -> Option<Shared>
    requires first { other.now.place < length places.now }
    requires second { row.now.place < length places.now }
    ensures { result ≡ with_pair places.now row.now best other.now }
{
    if rows_clash(places, other, row) {
        Some(earlier(best, shared_by(other, row)))
    } else {
        best
    }
}

/// The best with the clashes of a row with other rows.
fn with_row(
    places: &[PlaceRow],
    row: &WordRow,
    best: &Option<Shared>,
    rows: &[WordRow],
) -> Option<Shared>
    requires rows { AreRowsOf places.now rows.now }
    requires row { row.now.place < length places.now }
    ensures { result ≡ fold (with_pair places.now row.now) best.now rows.now }
{
    let mut least = *best;
    for other in rows {
        least = with_pair(places, row, least, other);
    }
    least
}

/// Where the rows of the address of row `k` begin, if those of the row before begin at `start`.
fn group_start(rows: &[WordRow], start: usize, k: usize) -> usize
    requires k_in { k < length rows.now }
    requires start_in { start ≤ k }
    ensures bound { result ≤ k }
    ensures same { (d : WordRow)
        → key_of (slice_index_or rows.now start d) ≡ key_of (slice_index_or rows.now k d) → result ≡ start }
    ensures other { (d : WordRow)
        → (key_of (slice_index_or rows.now start d) == key_of (slice_index_or rows.now k d)) ≡ false → result ≡ k }
{
    if key(&rows[start]) == key(&rows[k]) {
        start
    } else {
        k
    }
}

/// The first place that clashes with an earlier one, of its addresses the least, and of the earlier places there
/// the first.
pub(crate) fn first_shared(places: &[PlaceRow], rows: &[WordRow]) -> Option<Shared>
    requires rows { AreRowsOf places.now rows.now }
    requires ascending { IsAscending rows.now }
    ensures least { IsLeast places.now rows.now result }
    ensures made { (s : Shared) → result ≡ Some s → IsMade places.now rows.now s }
{
    let mut best = None;
    let mut start = 0;
    for k in 0..rows.len() {
        let row = &rows[k];
        start = group_start(rows, start, k);
        best = with_row(places, row, &best, &rows[start..k]);
    }
    best
}

/// Whether rows are in order by port and address.
fn is_ascending(rows: &[WordRow]) -> bool
    ensures { result ≡ true → IsAscending rows.now }
{
    for k in 1..rows.len() {
        if key(&rows[k]) < key(&rows[k - 1]) {
            return false;
        }
    }
    true
}

/// Puts rows in order by port and address; those of one address stay as they are.
pub(crate) fn sort_rows(rows: &mut Vec<WordRow>) -> Result<(), AllocError>
    ensures moved { IsPermutation rows.old.items rows.new.items }
    ensures ascending { OnOk result (IsAscending rows.new.items) }
    ensures stable { IsStableByKey key_of nat_cmp rows.old.items rows.new.items }
{
    if is_ascending(rows) {
        return Ok(());
    }
    rows.sort_by_key(|row| key(row))?;
    Ok(())
}
