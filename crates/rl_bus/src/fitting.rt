// Whether an adapter of a kind carries an operation.
ghost use Rattle.std.specs.Prelude.{◌≡◌, IsTrue};
ghost use Rattle.rl_bus.specs.Lanes.{HasOnlyLanes, IsWord};
ghost use Rattle.rl_bus.specs.Wire.{Fits};

use crate::{AdapterKind, BusOp};

impl AdapterKind {
    /// Whether adapters of this kind carry the operation. A caller that isn't sure asks this before
    /// `reg2bus` or `exchange`.
    pub fn fits(&self, op: &BusOp) -> bool
        ensures fits { IsTrue result → Fits self.now op.now }
        ensures all { Fits self.now op.now → IsTrue result }
    {
        if !is_word(op.bytes, op.lanes, op.word) {
            return false;
        }
        let all_lanes = u64::from(op.lanes) == (1u64 << op.bytes) - 1;
        let carries_lanes = if op.write {
            self.write_lanes
        } else {
            self.read_lanes
        };
        op.bytes <= self.most_bytes
            && op.address <= self.most_address
            && (!self.aligned || op.address % u64::from(op.bytes) == 0)
            && (carries_lanes || all_lanes)
            && (op.write || op.word == 0)
    }
}

fn is_word(bytes: u8, lanes: u8, word: u64) -> bool
    ensures fits { IsTrue result → IsWord bytes lanes word }
    ensures all { IsWord bytes lanes word → IsTrue result }
{
    matches!(bytes, 1 | 2 | 4 | 8)
        && u64::from(lanes) < 1u64 << bytes
        && has_only_lanes(bytes, lanes, word)
}

#[tactic(auto, using(crate::proofs::Words::by_lanes))]
fn has_only_lanes(bytes: u8, lanes: u8, word: u64) -> bool
    ensures fits { IsTrue result → HasOnlyLanes bytes lanes word }
    ensures all { HasOnlyLanes bytes lanes word → IsTrue result }
{
    if bytes == 0 {
        return word == 0;
    }
    if lanes % 2 == 0 && word % 256 != 0 {
        return false;
    }
    has_only_lanes(bytes - 1, lanes / 2, word / 256)
}
