//! The words of a description.
ghost use Rattle.std.specs.Prelude.{◌≡◌, List, ℕ, Option};
ghost use Rattle.rl_desc.specs.Words.{policy_named, kind_named, access_named, addressing_named};
ghost use Rattle.rl_desc.specs.Words.{rights_named, predict_named, flaw_kind_named, exclusion_named};

use bitflags::Flags;
use rl_map::Kind;
use rl_model::{Rights, Skip};
use rl_policy::Policy;

/// A value that one of a list of words stands for.
pub(crate) trait Word: Sized + Drop {
    ghost named: { List ℕ → Option Self };

    fn of_name(name: &str) -> Option<Self>
        ensures { result ≡ named name.now };
}

impl Word for Policy {
    ghost named = { policy_named };

    fn of_name(name: &str) -> Option<Policy> {
        Policy::of_name(name.as_bytes())
    }
}

impl Word for Kind {
    ghost named = { kind_named };

    fn of_name(name: &str) -> Option<Kind> {
        match name {
            "little" => Some(Kind::Little),
            "big" => Some(Kind::Big),
            "little-fifo" => Some(Kind::LittleFifo),
            "big-fifo" => Some(Kind::BigFifo),
            _ => None,
        }
    }
}

/// What a memory may be used for.
#[derive(Clone, Copy)]
pub(crate) enum Access {
    ReadWrite,
    ReadOnly,
}

impl Word for Access {
    ghost named = { access_named };

    fn of_name(name: &str) -> Option<Access> {
        match name {
            "rw" => Some(Access::ReadWrite),
            "ro" => Some(Access::ReadOnly),
            _ => None,
        }
    }
}

/// What the addresses of a map count.
#[derive(Clone, Copy)]
pub(crate) enum Addressing {
    Byte,
    Word,
}

impl Word for Addressing {
    ghost named = { addressing_named };

    fn of_name(name: &str) -> Option<Addressing> {
        match name {
            "byte" => Some(Addressing::Byte),
            "word" => Some(Addressing::Word),
            _ => None,
        }
    }
}

impl Word for Rights {
    ghost named = { rights_named };

    fn of_name(name: &str) -> Option<Rights> {
        match name {
            "rw" => Some(Rights::READ.union(Rights::WRITE)),
            "ro" => Some(Rights::READ),
            "wo" => Some(Rights::WRITE),
            _ => None,
        }
    }
}

/// How a root predicts.
#[derive(Clone, Copy)]
pub(crate) enum Predict {
    Implicit,
    Explicit,
}

impl Word for Predict {
    ghost named = { predict_named };

    fn of_name(name: &str) -> Option<Predict> {
        match name {
            "implicit" => Some(Predict::Implicit),
            "explicit" => Some(Predict::Explicit),
            _ => None,
        }
    }
}

/// A kind of flaw.
#[derive(Clone, Copy)]
pub(crate) enum FlawKind {
    OtherPolicy,
    OtherReset,
    Stuck,
    ErrorRange,
    ErrorNth,
    Deaf,
}

impl Word for FlawKind {
    ghost named = { flaw_kind_named };

    fn of_name(name: &str) -> Option<FlawKind> {
        match name {
            "policy" => Some(FlawKind::OtherPolicy),
            "reset" => Some(FlawKind::OtherReset),
            "stuck" => Some(FlawKind::Stuck),
            "error-range" => Some(FlawKind::ErrorRange),
            "error-nth" => Some(FlawKind::ErrorNth),
            "deaf" => Some(FlawKind::Deaf),
            _ => None,
        }
    }
}

/// One exclusion, as the set that holds it alone.
impl Word for Skip {
    ghost named = { exclusion_named };

    fn of_name(name: &str) -> Option<Skip> {
        match name {
            "NO_REG_TESTS" => Some(Skip::NO_REG_TESTS),
            "NO_REG_HW_RESET_TEST" => Some(Skip::NO_REG_HW_RESET_TEST),
            "NO_REG_BIT_BASH_TEST" => Some(Skip::NO_REG_BIT_BASH_TEST),
            "NO_REG_ACCESS_TEST" => Some(Skip::NO_REG_ACCESS_TEST),
            "NO_REG_SHARED_ACCESS_TEST" => Some(Skip::NO_REG_SHARED_ACCESS_TEST),
            "NO_MEM_WALK_TEST" => Some(Skip::NO_MEM_WALK_TEST),
            _ => None,
        }
    }
}
