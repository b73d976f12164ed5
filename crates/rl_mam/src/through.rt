//! Accesses through a region of a memory: reads and writes of `uvm_mem_region`.
ghost use Rattle.std.specs.Prelude.{◌≡◌, ◌+◌, ◌<◌, map as each, length, Err, IfOk, IfErr, IfSome, IsOkAnd, OnOk, OnErr};
ghost use Rattle.rl_access.specs.declared.event.Op.TheVariants as op;
ghost use Rattle.rl_mam.specs.Prelude.{EventFits, HasCause, IsBurst, IsManagerOf, IsMapIn, IsReady, LeavesOutside};
ghost use Rattle.rl_mam.specs.Prelude.{Performs, grant, location_in, region_at, scene_of, write_grant, writes_of};

use crate::mam::Mam;
use crate::region::RegionFault;
use rl_access::{Event, Model, Recorder, Tally, burst_write, mem_read, mem_write};
use rl_bus::{Adapter, Adapters, Device};

impl Mam {
    /// Writes location `k` of the region that begins at `first`, over the bus: `uvm_mem_region::write`.
    pub fn write<D: Device>(
        &self,
        model: &mut Model,
        device: &mut D,
        adapters: &mut Adapters,
        map: Option<u32>,
        first: u64,
        k: u64,
        value: u64,
    ) -> Result<Event, RegionFault>
        requires ready { IsReady model.old (each standing adapters.old.items) (D.state device.old) }
        requires manager { IsManagerOf model.old.chip self.now }
        requires map { IsMapIn (length model.old.layout.maps) map }
        ensures same { model.new ≡ model.old }
        ensures ready { IsReady model.new (each standing adapters.new.items) (D.state device.new) }
        ensures fits { IfOk result (EventFits model.new) }
        ensures cause { IfErr (location_in self.now.regions first k 1) (λ why. result ≡ Err why) }
        ensures performs { OnOk (location_in self.now.regions first k 1) (IsOkAnd result (Performs
            (scene_of standing D.account D.state model.old adapters.old.items device.old)
            (scene_of standing D.account D.state model.new adapters.new.items device.new)
            (op.MemWrite self.now.mem map (first + k) value))) }
        ensures refused { OnErr result (device.new ≡ device.old) }
        ensures not_sent { OnErr result (adapters.new ≡ adapters.old) }
        ensures not_granted { OnErr (grant model.old (op.MemWrite self.now.mem map (first + k) value))
            (device.new ≡ device.old) }
        ensures outside { IfSome (region_at self.now.regions first) (λ r.
            LeavesOutside model.old.chip self.now.mem r (D.state device.old) (D.state device.new)) }
    {
        let _sound = model.chip(); // a model that is looked at is known to be sound
        match self.location(first, k, 1) {
            Ok(at) => Ok(mem_write(model, device, adapters, self.mem(), map, at, value)),
            Err(why) => Err(why),
        }
    }

    /// Reads location `k` of the region that begins at `first`, over the bus: `uvm_mem_region::read`.
    pub fn read<D: Device>(
        &self,
        model: &mut Model,
        device: &mut D,
        adapters: &mut Adapters,
        map: Option<u32>,
        first: u64,
        k: u64,
    ) -> Result<Event, RegionFault>
        requires ready { IsReady model.old (each standing adapters.old.items) (D.state device.old) }
        requires manager { IsManagerOf model.old.chip self.now }
        requires map { IsMapIn (length model.old.layout.maps) map }
        ensures same { model.new ≡ model.old }
        ensures ready { IsReady model.new (each standing adapters.new.items) (D.state device.new) }
        ensures fits { IfOk result (EventFits model.new) }
        ensures cause { IfErr (location_in self.now.regions first k 1) (λ why. result ≡ Err why) }
        ensures performs { OnOk (location_in self.now.regions first k 1) (IsOkAnd result (Performs
            (scene_of standing D.account D.state model.old adapters.old.items device.old)
            (scene_of standing D.account D.state model.new adapters.new.items device.new)
            (op.MemRead self.now.mem map (first + k)))) }
        ensures refused { OnErr result (device.new ≡ device.old) }
        ensures not_sent { OnErr result (adapters.new ≡ adapters.old) }
        ensures not_granted { OnErr (grant model.old (op.MemRead self.now.mem map (first + k)))
            (device.new ≡ device.old) }
        ensures outside { IfSome (region_at self.now.regions first) (λ r.
            LeavesOutside model.old.chip self.now.mem r (D.state device.old) (D.state device.new)) }
    {
        let _sound = model.chip(); // a model that is looked at is known to be sound
        match self.location(first, k, 1) {
            Ok(at) => Ok(mem_read(model, device, adapters, self.mem(), map, at)),
            Err(why) => Err(why),
        }
    }

    /// Writes values to consecutive locations of the region that begins at `first`, from location `k` on, and hands
    /// each event to the recorder: `uvm_mem_region::burst_write`.
    pub fn burst_write<D: Device, R: Recorder>(
        &self,
        model: &mut Model,
        device: &mut D,
        adapters: &mut Adapters,
        map: Option<u32>,
        first: u64,
        k: u64,
        values: &[u64],
        rec: &mut R,
    ) -> Result<Tally, RegionFault>
        requires ready { IsReady model.old (each standing adapters.old.items) (D.state device.old) }
        requires manager { IsManagerOf model.old.chip self.now }
        requires map { IsMapIn (length model.old.layout.maps) map }
        ensures same { model.new ≡ model.old }
        ensures ready { IsReady model.new (each standing adapters.new.items) (D.state device.new) }
        ensures cause { IfErr (location_in self.now.regions first k (length values.now)) (λ why. result ≡ Err why) }
        ensures hands_over { OnOk (location_in self.now.regions first k (length values.now)) (IsBurst R.takes R.breaks
            rec.old rec.new (scene_of standing D.account D.state model.old adapters.old.items device.old)
            (scene_of standing D.account D.state model.new adapters.new.items device.new)
            (write_grant model.old self.now.mem map (first + k) values.now)
            (op.BurstWrite self.now.mem map (first + k) (length values.now))
            (writes_of self.now.mem map (first + k) values.now) result) }
        ensures recorder { OnOk (location_in self.now.regions first k (length values.now))
            (IfErr result (λ why. why ≡ RegionFault.Recorder)) }
        ensures failed { OnOk (location_in self.now.regions first k (length values.now))
            (HasCause (R.faults rec.old) (R.faults rec.new) result) }
        ensures steady { R.steady rec.new ≡ R.steady rec.old }
        ensures refused { OnErr (location_in self.now.regions first k (length values.now))
            ((device.new ≡ device.old) × (adapters.new ≡ adapters.old) × (rec.new ≡ rec.old)) }
        ensures not_granted { OnErr (write_grant model.old self.now.mem map (first + k) values.now)
            (device.new ≡ device.old) }
        ensures outside { IfSome (region_at self.now.regions first) (λ r.
            LeavesOutside model.old.chip self.now.mem r (D.state device.old) (D.state device.new)) }
    {
        let _sound = model.chip(); // a model that is looked at is known to be sound
        match self.location(first, k, values.len() as u64) {
            Ok(at) => burst_at(model, device, adapters, self.mem(), map, at, values, rec),
            Err(why) => Err(why),
        }
    }
}

// The burst, with a recorder that failed as the only error.
fn burst_at<D: Device, R: Recorder>(
    model: &mut Model,
    device: &mut D,
    adapters: &mut Adapters,
    mem: u32,
    map: Option<u32>,
    at: u64,
    values: &[u64],
    rec: &mut R,
) -> Result<Tally, RegionFault>
    requires ready { IsReady model.old (each standing adapters.old.items) (D.state device.old) }
    requires mem { mem < length model.old.chip.mems }
    requires map { IsMapIn (length model.old.layout.maps) map }
    ensures same { model.new ≡ model.old }
    ensures ready { IsReady model.new (each standing adapters.new.items) (D.state device.new) }
    ensures hands_over { IsBurst R.takes R.breaks rec.old rec.new
        (scene_of standing D.account D.state model.old adapters.old.items device.old)
        (scene_of standing D.account D.state model.new adapters.new.items device.new)
        (write_grant model.old mem map at values.now) (op.BurstWrite mem map at (length values.now))
        (writes_of mem map at values.now) result }
    ensures recorder { IfErr result (λ why. why ≡ RegionFault.Recorder) }
    ensures cause { HasCause (R.faults rec.old) (R.faults rec.new) result }
    ensures steady { R.steady rec.new ≡ R.steady rec.old }
    ensures refused { OnErr (write_grant model.old mem map at values.now) (device.new ≡ device.old) }
{
    match burst_write(model, device, adapters, mem, map, at, values, rec) {
        Ok(tally) => Ok(tally),
        Err(_) => Err(RegionFault::Recorder),
    }
}
