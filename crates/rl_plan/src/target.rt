// How a register is reached, and the operation that a step is there.
ghost use Rattle.std.specs.Prelude.{◌≡◌, ◌<◌, find, length};
ghost use Rattle.rl_plan.specs.Plan.{back_op, check_op, op_of, poke_op, target_of, write_op};

use crate::asked::Asked;
use crate::step::Step;
use crate::way::Way;
use rl_access::Op;
use rl_model::{Chip, Item};
use rl_policy::mask;

/// How a register is reached.
#[derive(Clone, Copy, Debug, PartialEq, Eq)]
pub struct Target {
    /// The number of the register.
    pub reg: u32,
    /// The first place where the bus may read it.
    pub reader: Option<Way>,
    /// The first place where the bus may write it.
    pub writer: Option<Way>,
    /// Whether the plan uses its backdoor.
    pub backdoor: bool,
    /// As many ones as it has bits.
    pub ones: u64,
}

fn reader(ways: &[Way]) -> Option<Way>
    ensures { result ≡ find (λ w. w.reads) ways.now }
{
    ways.iter().copied().find(|way| way.reads)
}

fn writer(ways: &[Way]) -> Option<Way>
    ensures { result ≡ find (λ w. w.writes) ways.now }
{
    ways.iter().copied().find(|way| way.writes)
}

/// How a register with these places is reached.
pub fn target_of(chip: &Chip, asked: Asked, reg: u32, ways: &[Way]) -> Target
    requires { reg < length chip.now.regs }
    ensures { result ≡ target_of chip.now asked reg ways.now }
{
    let item = Item::Reg(reg);
    Target {
        reg,
        reader: reader(ways),
        writer: writer(ways),
        backdoor: asked.uses_backdoor() && chip.backdoor(item),
        ones: mask(8 * chip.bytes(item)),
    }
}

impl Target {
    fn back_op(self) -> Option<Op>
        ensures { result ≡ back_op self }
    {
        if self.backdoor {
            Some(Op::BackCheck { reg: self.reg })
        } else {
            None
        }
    }

    // The check of the register: over the bus, or by the backdoor where the bus can't read it.
    fn check_op(self) -> Option<Op>
        ensures { result ≡ check_op self }
    {
        match self.reader {
            Some(way) => Some(Op::Check {
                reg: self.reg,
                map: Some(way.map),
            }),
            None => self.back_op(),
        }
    }

    fn write_op(self, value: u64) -> Option<Op>
        ensures { result ≡ write_op self value }
    {
        match self.writer {
            Some(way) => Some(Op::Write {
                reg: self.reg,
                map: Some(way.map),
                value,
            }),
            None => None,
        }
    }

    fn poke_op(self, value: u64) -> Option<Op>
        ensures { result ≡ poke_op self value }
    {
        if self.backdoor {
            Some(Op::Poke {
                reg: self.reg,
                value,
            })
        } else {
            None
        }
    }

    /// The operation that a step is for the register, with a kind of reset: none where no place and no backdoor lets
    /// it through.
    pub fn op_of(self, kind: u32, step: Step) -> Option<Op>
        ensures { result ≡ op_of self kind step }
    {
        match step {
            Step::Reset => Some(Op::Reset { kind }),
            Step::Check => self.check_op(),
            Step::BackCheck => self.back_op(),
            Step::WriteZeros => self.write_op(0),
            Step::WriteOnes => self.write_op(self.ones),
            Step::PokeZeros => self.poke_op(0),
            Step::PokeOnes => self.poke_op(self.ones),
        }
    }
}
