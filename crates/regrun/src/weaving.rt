// A session whose accesses are woven.
ghost use Rattle.std.specs.Prelude.{◌≡◌, ◌<◌, ◌^◌, List, length, map, true, IfSome};
ghost use Rattle.regrun.specs.Prelude.{AwaitsScript, IsModel, IsWovenLogPlain, RunsScript, RunsWhole, Standing};
ghost use Rattle.regrun.specs.Prelude.{first_world, is_complete, kinds_of, woven_judged, woven_lines};
ghost use Rattle.regrun.specs.Prelude.{woven_script_judged, woven_taken_text};

use rl_bus::{Adapter, Adapters};
use rl_desc::Desc;
use rl_log::{Counts, Status};
use rl_play::Log;
use rl_report::{LineReader, Source};
use rl_session::open;
use rl_session_run::open_session;
use rl_weave_log::weave_lines;
use std::alloc::Global;

// Runs the session that a description opens, with its accesses woven.
fn weave_session<S: Source, L: Log>(
    alloc: Global,
    n: u64,
    desc: Desc,
    lines: &mut LineReader,
    source: &mut S,
    out: &mut L,
    adapters: &mut Adapters,
) -> Status
    requires awaits { AwaitsScript desc lines.old (kinds_of (map standing adapters.old.items)) }
    ensures runs { RunsScript S.Source L.Sink L.is_out (woven_script_judged n desc) (woven_lines n desc) lines.old
        source.old source.new out.old out.new
        (map standing adapters.old.items) (map standing adapters.new.items) result }
    ensures kinds { kinds_of (map standing adapters.new.items) ≡ kinds_of (map standing adapters.old.items) }
    ensures sound { is_complete result ≡ true → (adapters : List Standing) → IsModel (first_world desc adapters).model }
{
    let Ok((mut model, mut bench)) = open(alloc, desc) else {
        return Status::Memory;
    };
    let counts = &mut Counts::new();
    weave_lines(
        alloc, n, &mut model, &mut bench, adapters, lines, source, out, counts,
    )
}

// Reads a session, runs it with its accesses woven and writes its log.
pub(crate) fn weave<S: Source, L: Log>(
    alloc: Global,
    n: u64,
    source: &mut S,
    out: &mut L,
    adapters: &mut Adapters,
) -> Status
    requires few { length (map standing adapters.old.items) < 2 ^ 32 }
    ensures runs { RunsWhole S.Source L.Sink L.is_out (woven_judged n) (woven_taken_text n) source.old source.new
        out.old out.new (map standing adapters.old.items) (map standing adapters.new.items) result }
    ensures kinds { kinds_of (map standing adapters.new.items) ≡ kinds_of (map standing adapters.old.items) }
    ensures plain { is_complete result ≡ true → IfSome (S.left source.old) (λ bytes.
        IsWovenLogPlain n bytes (map standing adapters.old.items)) }
{
    match open_session(alloc, source, out, adapters) {
        Ok((desc, mut lines)) => weave_session(alloc, n, desc, &mut lines, source, out, adapters),
        Err(status) => status,
    }
}
