//! Look-ups in a list of regions.
ghost use Rattle.std.specs.Prelude.{◌≡◌, ◌&&◌, ◌+◌, ◌<◌, ◌≤◌, ◌^◌, IfOk, IfErr, nat_lt, find, position};
ghost use Rattle.rl_mam.specs.Regions.{AreApart, IsLowestFree, RequestCause, place_of, region_at};

use crate::region::{MamFault, Region};

/// The first region that has a location in common with these.
pub(crate) fn first_met(regions: &[Region], first: u64, len: u64) -> Option<Region>
    requires { first + len < 2 ^ 64 }
    ensures { result ≡ find (λ r. nat_lt r.first (first + len) && nat_lt first (r.first + r.len)) regions.now }
{
    let end = first + len;
    regions
        .iter()
        .copied()
        .find(|region| region.first < end && region.ends_after(first))
}

/// The region that begins at `first`.
pub(crate) fn region_at(regions: &[Region], first: u64) -> Option<Region>
    ensures { result ≡ region_at regions.now first }
{
    regions.iter().copied().find(|region| region.first == first)
}

/// How many regions are before one that begins at `first`.
pub(crate) fn place_of(regions: &[Region], first: u64) -> usize
    ensures { result ≡ place_of regions.now first }
{
    match first_later(regions, first) {
        Some(place) => place,
        None => regions.len(),
    }
}

fn first_later(regions: &[Region], first: u64) -> Option<usize>
    ensures { result ≡ position (λ r. nat_lt first r.first) regions.now }
{
    regions.iter().position(|region| first < region.first)
}

/// Where the lowest free run of a length begins. The free runs are in front of the regions, and after the last one.
pub(crate) fn lowest_free(regions: &[Region], size: u64, len: u64) -> Result<u64, MamFault>
    requires apart { AreApart 0 size regions.now }
    requires some { 0 < len }
    ensures place { IfOk result (IsLowestFree size regions.now len) }
    ensures cause { IfErr result (RequestCause size regions.now len) }
{
    let mut from = 0;
    let mut longest = 0;
    for region in regions {
        let free = region.first - from;
        if len <= free {
            return Ok(from);
        }
        longest = u64::max(longest, free);
        from = region.first + region.len;
    }
    let free = size - from;
    if len <= free {
        return Ok(from);
    }
    longest = u64::max(longest, free);
    Err(MamFault::NoRoom { longest })
}
