// The steps of a plan for one register, bit by bit alike.
ghost use Rattle.std.specs.Prelude.{◌≡◌};
ghost use Rattle.rl_plan.specs.Steps.{further_steps_of, purpose_of, steps_of};

/// A step of a plan for one register.
#[derive(Clone, Copy, Debug, PartialEq, Eq)]
pub enum Step {
    /// A reset of the kind that the steps are for.
    Reset,
    /// A check: over the bus, or by the backdoor where the bus can't read the register.
    Check,
    /// A check by the backdoor.
    BackCheck,
    /// A write of zeros over the bus.
    WriteZeros,
    /// A write of ones over the bus.
    WriteOnes,
    /// Zeros by the backdoor, with no write effect.
    PokeZeros,
    /// Ones by the backdoor, with no write effect.
    PokeOnes,
}

/// How a register can be looked at.
#[derive(Clone, Copy, Debug, PartialEq, Eq)]
pub enum Sort {
    /// By the backdoor too.
    Both,
    /// By the bus alone, which reads and writes it.
    Bus,
    /// By the bus alone, which can't write it.
    Reads,
    /// Not at all: no check of it compares a bit.
    Unseen,
}

static BOTH: [Step; 30] = [
    Step::Reset,
    Step::Check,
    Step::Check,
    Step::WriteOnes,
    Step::Check,
    Step::BackCheck,
    Step::WriteZeros,
    Step::Check,
    Step::Check,
    Step::PokeZeros,
    Step::WriteOnes,
    Step::Check,
    Step::PokeOnes,
    Step::WriteZeros,
    Step::Check,
    Step::PokeZeros,
    Step::WriteZeros,
    Step::Check,
    Step::Check,
    Step::PokeOnes,
    Step::WriteOnes,
    Step::Check,
    Step::Check,
    Step::PokeOnes,
    Step::Check,
    Step::Reset,
    Step::WriteZeros,
    Step::Check,
    Step::PokeZeros,
    Step::Check,
];

static BUS: [Step; 21] = [
    Step::Reset,
    Step::Check,
    Step::Check,
    Step::WriteOnes,
    Step::Check,
    Step::WriteZeros,
    Step::Check,
    Step::Check,
    Step::Reset,
    Step::WriteZeros,
    Step::Check,
    Step::WriteZeros,
    Step::WriteOnes,
    Step::Check,
    Step::Check,
    Step::WriteOnes,
    Step::Check,
    Step::WriteZeros,
    Step::WriteOnes,
    Step::WriteZeros,
    Step::Check,
];

static BUS_FURTHER: [Step; 8] = [
    Step::Reset,
    Step::Check,
    Step::WriteZeros,
    Step::Check,
    Step::Reset,
    Step::WriteOnes,
    Step::Check,
    Step::Check,
];

static RESET: [Step; 2] = [Step::Reset, Step::Check];

static READS: [Step; 3] = [Step::Reset, Step::Check, Step::Check];

impl Sort {
    /// The steps for such a register with the reset HARD.
    pub fn steps(self) -> &'static [Step]
        ensures { result.now ≡ steps_of self }
    {
        match self {
            Sort::Both => &BOTH,
            Sort::Bus => &BUS,
            Sort::Reads => &READS,
            Sort::Unseen => &[],
        }
    }

    /// The steps for another kind of reset.
    pub fn further_steps(self) -> &'static [Step]
        ensures { result.now ≡ further_steps_of self }
    {
        match self {
            Sort::Both => &RESET,
            Sort::Bus => &BUS_FURTHER,
            Sort::Reads => &READS,
            Sort::Unseen => &[],
        }
    }

    /// What the lines for such a register are for.
    pub fn purpose(self) -> &'static [u8]
        ensures { result.now ≡ purpose_of self }
    {
        match self {
            Sort::Both =>
                b"each bit at 0 and at 1, by bus and backdoor; what a write and a read make of it; its resets",
            Sort::Bus =>
                b"each bit as far as the bus brings it; what a write and a read make of it; its resets",
            Sort::Reads => b"its resets, and what a read makes of it; the bus can't write it",
            Sort::Unseen => b"its addresses; no check compares a bit of it",
        }
    }
}
