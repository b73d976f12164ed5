//! The manager: which regions of a memory are given out.
ghost use Rattle.std.specs.Prelude.{◌≡◌, ◌+◌, ◌<◌, ◌≤◌, [], length, All, AllPairs, OnOk, OnErr, IfOk, IfErr, IfSome};
ghost use Rattle.rl_access.specs.Rules.{memory_size};
ghost use Rattle.rl_mam.specs.Mam.{adding, releasing};
ghost use Rattle.rl_mam.specs.Regions.{region, region_at, location_in, IsFree, IsLowestFree, ReserveCause};
ghost use Rattle.rl_mam.specs.Regions.{RequestCause};

use crate::region::{MamFault, Region, RegionFault};
use crate::search::{first_met, lowest_free, place_of, region_at};
use rl_model::Chip;
use std::alloc::Global;

/// The regions of one memory that are given out: `uvm_mem_mam` (IEEE 1800.2-2017, 18.12).
#[derive(Drop)]
pub struct Mam {
    mem: u32,
    size: u64,
    regions: Vec<Region>,
}

impl std::marker::Model for Mam {
    ghost use Rattle.rl_mam.specs.Mam.{MamData, IsMam};

    ghost Value = { MamData };

    ghost view = { λ m. record { mem = m.mem; size = m.size; regions = m.regions.items } };

    ghost invariant = { λ m. IsMam (record { mem = m.mem; size = m.size; regions = m.regions.items }) };
}

impl Mam {
    /// The manager of a memory, with no region given out: `uvm_mem_mam::new`.
    pub fn build(alloc: Global, chip: &Chip, mem: u32) -> Mam
        requires { mem < length chip.now.mems }
        ensures { result ≡ record { mem = mem; size = memory_size chip.now mem; regions = [] } }
    {
        Mam {
            mem,
            size: u64::from(chip.size(mem)),
            regions: Vec::new(alloc),
        }
    }

    /// The regions that are given out, in ascending order.
    pub fn regions(&self) -> &[Region]
        ensures regions { result.now ≡ self.now.regions }
        ensures some { All (λ r. 0 < r.len) result.now }
        ensures inside { All (λ r. r.first + r.len ≤ self.now.size) result.now }
        ensures apart { AllPairs (λ r s. r.first + r.len ≤ s.first) result.now }
    {
        &self.regions
    }

    /// Gives out the locations from `first` on: `uvm_mem_mam::reserve_region`.
    pub fn reserve(&mut self, first: u64, len: u64) -> Result<Region, MamFault>
        ensures region { IfOk result (λ r. r ≡ region first len) }
        ensures some { OnOk result (0 < len) }
        ensures free { OnOk result (IsFree self.old.size self.old.regions first len) }
        ensures added { OnOk result (self.new ≡ adding self.old (region first len)) }

        ensures cause { IfErr result (ReserveCause self.old.size self.old.regions first len) }
        ensures err { OnErr result (self.new ≡ self.old) }
    {
        self.check_free(first, len)?;
        let region = Region { first, len };
        self.add(region)?;
        Ok(region)
    }

    /// Takes back the region that begins at `first`: `uvm_mem_mam::release_region`.
    pub fn release(&mut self, first: u64) -> Option<Region>
        ensures region { result ≡ region_at self.old.regions first }
        ensures left { self.new ≡ releasing self.old first }
    {
        let found = self.region_at(first);
        self.regions.retain(|region| region.first != first);
        found
    }

    /// Gives out the lowest place where a region of this length fits: `uvm_mem_mam::request_region`, whose place is a
    /// random one. That it is the lowest is this project's own.
    ///
    /// # Examples
    ///
    /// Memory 0 has 8 locations.
    ///
    /// ```text
    /// let mut mam = Mam::build(alloc, &chip, 0);
    /// mam.reserve(2, 3) == Ok(Region { first: 2, len: 3 })
    /// mam.request(2) == Ok(Region { first: 0, len: 2 })
    /// mam.request(4) == Err(MamFault::NoRoom { longest: 3 })
    /// mam.release(2) == Some(Region { first: 2, len: 3 })
    /// mam.request(4) == Ok(Region { first: 2, len: 4 })
    /// ```
    pub fn request(&mut self, len: u64) -> Result<Region, MamFault>
        ensures some { OnOk result (0 < len) }
        ensures len { IfOk result (λ r. r.len ≡ len) }
        ensures place { IfOk result (λ r. IsLowestFree self.old.size self.old.regions len r.first) }
        ensures added { IfOk result (λ r. self.new ≡ adding self.old r) }

        ensures cause { IfErr result (RequestCause self.old.size self.old.regions len) }
        ensures err { OnErr result (self.new ≡ self.old) }
    {
        if len == 0 {
            return Err(MamFault::Empty);
        }
        let first = self.lowest_free(len)?;
        let region = Region { first, len };
        self.add(region)?;
        Ok(region)
    }

    /// The lowest place where a region of this length fits.
    fn lowest_free(&self, len: u64) -> Result<u64, MamFault>
        requires { 0 < len }
        ensures place { IfOk result (IsLowestFree self.now.size self.now.regions len) }
        ensures cause { IfErr result (RequestCause self.now.size self.now.regions len) }
    {
        lowest_free(&self.regions, self.size, len)
    }

    /// The number of the memory.
    pub(crate) fn mem(&self) -> u32
        ensures { result ≡ self.now.mem }
    {
        self.mem
    }

    /// Where locations of a region begin: so many from location `k` on.
    pub(crate) fn location(&self, first: u64, k: u64, count: u64) -> Result<u64, RegionFault>
        ensures location { result ≡ location_in self.now.regions first k count }
        ensures at { IfOk result (λ at. at ≡ first + k) }
    {
        match self.region_at(first) {
            None => Err(RegionFault::NoSuchRegion),
            Some(region) => region.location(k, count),
        }
    }

    /// The region that begins at `first`.
    fn region_at(&self, first: u64) -> Option<Region>
        ensures region { result ≡ region_at self.now.regions first }
        ensures first { IfSome result (λ r. r.first ≡ first) }
        ensures inside { IfSome result (λ r. r.first + r.len ≤ 65536) }
    {
        region_at(&self.regions, first)
    }

    /// The first condition of a region that fails.
    fn check_free(&self, first: u64, len: u64) -> Result<(), MamFault>
        ensures some { OnOk result (0 < len) }
        ensures free { OnOk result (IsFree self.now.size self.now.regions first len) }
        ensures cause { IfErr result (ReserveCause self.now.size self.now.regions first len) }
    {
        if len == 0 {
            return Err(MamFault::Empty);
        }
        if first > self.size || len > self.size - first {
            return Err(MamFault::OutOfRange);
        }
        match first_met(&self.regions, first, len) {
            Some(met) => Err(MamFault::Overlap { first: met.first }),
            None => Ok(()),
        }
    }

    /// Puts a region in its place.
    fn add(&mut self, region: Region) -> Result<(), MamFault>
        requires some { 0 < region.len }
        requires free { IsFree self.old.size self.old.regions region.first region.len }
        ensures added { OnOk result (self.new ≡ adding self.old region) }
        ensures cause { IfErr result (λ e. e ≡ MamFault.Memory) }
        ensures err { OnErr result (self.new ≡ self.old) }
    {
        let place = place_of(&self.regions, region.first);
        self.regions.insert(place, region)?;
        Ok(())
    }
}
