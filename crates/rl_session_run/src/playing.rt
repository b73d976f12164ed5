// The script of a session on a device that tells nothing.
ghost use Rattle.std.specs.Prelude.{◌≡◌, None, map};
ghost use Rattle.rl_session_run.specs.Prelude.{AwaitsScript, LeavesOpen, PlaysRest, input_of, kinds_of};

use rl_bus::{Adapter, Adapters, Device};
use rl_desc::Desc;
use rl_log::{Counts, Status};
use rl_play::play;
use rl_report::{LineReader, Sink, Source};
use rl_session::model_of;
use std::alloc::Global;

/// Runs the script of a session on a device that doesn't report its state, and writes its log. The log isn't ended.
///
/// After a source that failed, the log has exactly the lines that were taken whole.
pub fn play_described<S: Source, K: Sink, D: Device>(
    alloc: Global,
    desc: Desc,
    device: &mut D,
    lines: &mut LineReader,
    source: &mut S,
    log: &mut K,
    adapters: &mut Adapters,
) -> Status
    requires awaits { AwaitsScript desc lines.old (kinds_of (map standing adapters.old.items)) }
    requires silent { D.state device.old ≡ None }
    ensures plays { PlaysRest desc (input_of lines.old (S.left source.old)) (S.left source.new) result
        (K.written log.old) (K.written log.new) (map standing adapters.old.items) (map standing adapters.new.items)
        (D.account device.old) (D.account device.new) }
    ensures kinds { kinds_of (map standing adapters.new.items) ≡ kinds_of (map standing adapters.old.items) }
    ensures leaves { LeavesOpen K.Sink result (S.faults source.old) (S.faults source.new) log.old log.new }
{
    let Ok(mut model) = model_of(alloc, desc) else {
        return Status::Memory;
    };
    let mut counts = Counts::new();
    play(
        alloc,
        &mut model,
        device,
        adapters,
        lines,
        source,
        log,
        &mut counts,
    )
}
