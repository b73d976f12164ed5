//! The masks of a register, and what items do to its words.
ghost use Rattle.std.specs.Prelude.{◌≡◌};
ghost use Rattle.rl_policy.specs.Bits.{bit};
ghost use Rattle.rl_bus.specs.Setup.{held};
ghost use Rattle.rl_bus.specs.Spread.{AreInCell};

use rl_bus::Lanes;
use rl_policy::Effects;
use rl_policy::word::replaced;

/// What accesses do to the bits of a register, and which bits are stuck at which values.
#[derive(Clone, Copy)]
pub struct Shape {
    /// The bits by what accesses do to them.
    pub effects: Effects,
    /// The bits that are stuck.
    pub stuck: u64,
    /// The values of the stuck bits, and 0 elsewhere.
    pub values: u64,
}

impl Shape {
    ghost use Rattle.rl_bench.specs.Shape.{ForRegOf, reg_written, reg_marked, reg_answered, reg_left};

    /// The register with these bits: a stuck one has its value.
    pub fn hold(&self, bits: u64) -> u64
        ensures { ForRegOf self.now (λ r. result ≡ held r.setup r.reg (bit bits)) }
    {
        replaced(bits, self.values, self.stuck)
    }

    /// The bits and the marks after a write of a word in these lanes.
    pub fn write(&self, lanes: &Lanes, bits: u64, marks: u64, word: u64) -> (u64, u64)
        requires { AreInCell lanes.now }
        ensures bits { ForRegOf self.now (λ r. result.0 ≡ reg_written r lanes.now bits marks word) }
        ensures marks { ForRegOf self.now (λ r. result.1 ≡ reg_marked r lanes.now marks) }
    {
        let carried = lanes.spread(word);
        let (written, marked) = self.effects.write(bits, marks, carried, lanes.covered());
        (self.hold(written), marked)
    }

    /// The word that a read in these lanes answers, and the bits after it.
    pub fn read(&self, lanes: &Lanes, bits: u64) -> (u64, u64)
        requires { AreInCell lanes.now }
        ensures word { ForRegOf self.now (λ r. result.0 ≡ reg_answered r lanes.now bits) }
        ensures bits { ForRegOf self.now (λ r. result.1 ≡ reg_left r lanes.now bits) }
    {
        let (shown, left) = self.effects.read(bits, lanes.covered());
        (lanes.gather(shown), self.hold(left))
    }
}
