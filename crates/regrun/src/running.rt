// A session that is run.
ghost use Rattle.std.specs.Prelude.{◌≡◌, ◌<◌, ◌^◌, map, length, true, IfSome};
ghost use Rattle.regrun.specs.Prelude.{IsPlainLog, RunsWhole, is_complete, judged, kinds_of, taken_text};

use rl_bus::{Adapter, Adapters};
use rl_log::Status;
use rl_play::Log;
use rl_report::Source;
use rl_session_run::{open_session, run_session};
use std::alloc::Global;

// Reads a session, runs it and writes its log.
pub(crate) fn run<S: Source, L: Log>(
    alloc: Global,
    source: &mut S,
    out: &mut L,
    adapters: &mut Adapters,
) -> Status
    requires few { length (map standing adapters.old.items) < 2 ^ 32 }
    ensures runs { RunsWhole S.Source L.Sink L.is_out judged taken_text source.old source.new out.old out.new
        (map standing adapters.old.items) (map standing adapters.new.items) result }
    ensures kinds { kinds_of (map standing adapters.new.items) ≡ kinds_of (map standing adapters.old.items) }
    ensures plain { is_complete result ≡ true → IfSome (S.left source.old) (λ bytes.
        IsPlainLog bytes (map standing adapters.old.items)) }
{
    match open_session(alloc, source, out, adapters) {
        Ok((desc, mut lines)) => run_session(alloc, desc, &mut lines, source, out, adapters),
        Err(status) => status,
    }
}
