//! Regions of a memory, why none is given out, and why one is not accessed.
ghost use Rattle.std.specs.Prelude.{◌≡◌, ◌+◌, ◌<◌, ◌^◌, nat_lt};
ghost use Rattle.rl_mam.specs.Regions.{location_of};
ghost use Rattle.rl_mam.specs.declared.region.MamFault.TheVariants.{Memory};

use std::alloc::AllocError;

/// Consecutive locations of a memory: `uvm_mem_region` (IEEE 1800.2-2017, 18.12), whose start and end offset these
/// give.
#[derive(Clone, Copy, Debug, PartialEq, Eq)]
pub struct Region {
    /// The number of its first location, which names it.
    pub first: u64,
    /// How many locations it has.
    pub len: u64,
}

impl Region {
    /// Whether it ends after a location.
    pub(crate) fn ends_after(&self, x: u64) -> bool
        ensures { result ≡ nat_lt x (self.now.first + self.now.len) }
    {
        x < self.first || x - self.first < self.len
    }

    /// Where so many locations from location `k` on begin, if it has them.
    pub(crate) fn location(&self, k: u64, count: u64) -> Result<u64, RegionFault>
        requires { self.now.first + self.now.len < 2 ^ 64 }
        ensures { result ≡ location_of self.now k count }
    {
        if k > self.len || count > self.len - k {
            return Err(RegionFault::OutsideRegion { len: self.len });
        }
        Ok(self.first + k)
    }
}

/// Why a region is not given out: the first of these that holds. They are this project's own.
#[derive(Clone, Copy, Debug, PartialEq, Eq)]
pub enum MamFault {
    /// The region would have no location.
    Empty,
    /// It would end past the memory.
    OutOfRange,
    /// It would have a location in common with a region that begins at `first`, the least of these.
    Overlap { first: u64 },
    /// No free run of locations is that long. The longest one has this many.
    NoRoom { longest: u64 },
    /// The allocator had no memory left.
    Memory,
}

/// An allocation that failed, whether or not it hands its value back.
impl<E: Into<AllocError> + Drop> From<E> for MamFault {
    ghost from_gives = { λ _ e. e ≡ Memory };

    fn from(_e: E) -> MamFault {
        MamFault::Memory
    }
}

/// Why an access through a region is not made. The names are this project's own.
#[derive(Clone, Copy, Debug, PartialEq, Eq)]
pub enum RegionFault {
    /// No region begins there.
    NoSuchRegion,
    /// The access would pass the region, which has so many locations.
    OutsideRegion { len: u64 },
    /// The recorder failed.
    Recorder,
}
