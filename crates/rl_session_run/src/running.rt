// The script of a session on the device model.
ghost use Rattle.std.specs.Prelude.{◌≡◌, List, map, true};
ghost use Rattle.rl_session_run.specs.Prelude.{AwaitsScript, IsModel, RunsScript, Standing, first_world, is_complete};
ghost use Rattle.rl_session_run.specs.Prelude.{kinds_of, run_lines, script_judged};

use rl_bus::{Adapter, Adapters};
use rl_desc::Desc;
use rl_log::{Counts, Status};
use rl_play::{Log, play_lines};
use rl_report::{LineReader, Source};
use rl_session::open;
use std::alloc::Global;

/// Runs the script of a session on the device model of its description, and writes its log.
pub fn run_session<S: Source, L: Log>(
    alloc: Global,
    desc: Desc,
    lines: &mut LineReader,
    source: &mut S,
    log: &mut L,
    adapters: &mut Adapters,
) -> Status
    requires awaits { AwaitsScript desc lines.old (kinds_of (map standing adapters.old.items)) }
    ensures runs { RunsScript S.Source L.Sink L.is_out (script_judged desc) (run_lines desc) lines.old
        source.old source.new log.old log.new
        (map standing adapters.old.items) (map standing adapters.new.items) result }
    ensures kinds { kinds_of (map standing adapters.new.items) ≡ kinds_of (map standing adapters.old.items) }
    ensures sound { is_complete result ≡ true → (adapters : List Standing) → IsModel (first_world desc adapters).model }
{
    let Ok((mut model, mut bench)) = open(alloc, desc) else {
        return Status::Memory;
    };
    let counts = &mut Counts::new();
    play_lines(
        alloc, &mut model, &mut bench, adapters, lines, source, log, counts,
    )
}
