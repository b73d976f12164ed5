// The kinds of single flaws.
ghost use Rattle.std.specs.Prelude.{◌≡◌, bytes_eq};
ghost use Rattle.rl_grade_report.specs.Kinds.{kind_of, kind_name, is_kind};

use rl_bench::Flaw;

// What kind of flaw it is, as a report counts them.
#[derive(Clone, Copy)]
pub(crate) enum Kind {
    // A bit of a field is stuck.
    Stuck,
    // A reset value is wrong.
    Reset,
    // A field has another access policy.
    Policy,
    // A register or memory is deaf.
    Deaf,
    // An address fails.
    Address,
    // An item of the session fails.
    Item,
}

// In the order in which they are told.
pub(crate) const KINDS: [Kind; 6] = [
    Kind::Stuck,
    Kind::Reset,
    Kind::Policy,
    Kind::Deaf,
    Kind::Address,
    Kind::Item,
];

impl Kind {
    // The kind of a flaw.
    pub(crate) fn of(flaw: Flaw) -> Kind
        ensures { result ≡ kind_of flaw }
    {
        match flaw {
            Flaw::Stuck { .. } => Kind::Stuck,
            Flaw::OtherReset { .. } => Kind::Reset,
            Flaw::OtherPolicy { .. } => Kind::Policy,
            Flaw::Deaf { .. } => Kind::Deaf,
            Flaw::ErrorRange { .. } => Kind::Address,
            Flaw::ErrorNth { .. } => Kind::Item,
        }
    }

    // Its word in a report.
    pub(crate) fn name(self) -> &'static [u8]
        ensures { result.now ≡ kind_name self }
    {
        match self {
            Kind::Stuck => b"stuck",
            Kind::Reset => b"reset",
            Kind::Policy => b"policy",
            Kind::Deaf => b"deaf",
            Kind::Address => b"address",
            Kind::Item => b"item",
        }
    }

    // Whether a flaw is of this kind.
    pub(crate) fn has(self, flaw: Flaw) -> bool
        ensures { result ≡ is_kind self flaw }
    {
        Kind::of(flaw).name() == self.name()
    }
}
