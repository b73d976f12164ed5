//! Why a line of a woven script is refused.
ghost use Rattle.std.specs.Prelude.{◌≡◌};
ghost use Rattle.rl_report.specs.Pieces.{PutsText};
ghost use Rattle.rl_weave_log.specs.Refusals.{further_reason, refused_woven_text};

use rl_log::LineRefusal;
use rl_play::{put_line_refused, put_refused_so};
use rl_report::{Failed, Sink, text_beside};
use rl_weave::WeaveFault;

/// Why a line of a woven script is refused, in the order in which the causes are tested.
#[derive(Clone, Copy, Debug, PartialEq, Eq)]
pub enum WovenRefusal {
    /// It is refused in any script.
    Line(LineRefusal),
    /// A command other than `other-write` and `other-read`.
    NotWoven,
    /// The access isn't added to its group.
    Access(WeaveFault),
}

fn further_reason(fault: WeaveFault) -> &'static [u8]
    ensures { result.now ≡ further_reason fault }
{
    text_beside! {
        fault: WeaveFault;
        TooMany b"too many in group", NotPlaced b"not placed", NotObserved b"not observed", NoRight b"no right",
        TooWide b"too wide", SameRegister {..} b"same register"
    }
}

/// Writes that a line was refused.
pub(crate) fn put_woven_refused<K: Sink>(
    sink: &mut K,
    number: u64,
    refusal: WovenRefusal,
) -> Result<(), Failed>
    ensures { PutsText K.Sink sink.old sink.new (refused_woven_text number refusal) result }
{
    match refusal {
        WovenRefusal::Line(refusal) => put_line_refused(sink, number, refusal),
        WovenRefusal::NotWoven => put_refused_so(sink, number, b"not woven"),
        WovenRefusal::Access(fault) => put_refused_so(sink, number, further_reason(fault)),
    }
}
