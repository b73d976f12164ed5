// Where the items of a description stand, written.
ghost use Rattle.std.specs.Prelude.{◌≡◌, ◌≢◌, ◌<◌, ◌^◌, map, length, Some, IfSome};
ghost use Rattle.regrun.specs.Prelude.{IsBuiltWith, Leaves, LeavesScript, TakesNoHead, Tells, WritesJudged};
ghost use Rattle.regrun.specs.Prelude.{layout_text, map_judged, output_of};

use rl_bus::{Adapter, Adapters};
use rl_desc::Desc;
use rl_log::Status;
use rl_play::Log;
use rl_report::{Failed, Source};
use rl_session::put_layout;
use rl_session_run::open_session;
use std::alloc::Global;

// Writes where the items of a description stand.
fn put_description<L: Log>(desc: &Desc, out: &mut L) -> Status
    requires { IsBuiltWith desc.now.layout desc.now.chip }
    ensures tells { Tells result Status.Passed
        (L.written out.old) (L.written out.new) (layout_text desc.now.chip desc.now.layout) }
    ensures none_found { result ≢ Status.Found }
    ensures leaves { Leaves L.Sink 0 0 out.old out.new (Some result) }
{
    match put_layout(out, &desc.chip, &desc.layout) {
        Ok(()) => Status::Passed,
        Err(Failed) => Status::SinkFault,
    }
}

// Reads a description, and writes where its items stand.
pub(crate) fn show_layout<S: Source, L: Log>(
    alloc: Global,
    source: &mut S,
    out: &mut L,
    adapters: &Adapters,
) -> Status
    requires few { length (map standing adapters.now.items) < 2 ^ 32 }
    ensures tells { IfSome (S.left source.old) (λ bytes. WritesJudged (map_judged bytes) result
        (output_of L.written standing out.old adapters.now.items)
        (output_of L.written standing out.new adapters.now.items)) }
    ensures at_fault { result ≡ Status.SourceFault
        → IfSome (S.left source.old) (λ bytes. TakesNoHead bytes (S.left source.new)) }
    ensures unread { result ≢ Status.SourceFault → result ≢ Status.Memory
        → IfSome (S.left source.old) (λ bytes. LeavesScript bytes (S.left source.new)) }
    ensures unwritten { result ≡ Status.SourceFault → out.new ≡ out.old }
    ensures none_found { result ≢ Status.Found }
    ensures leaves { Leaves L.Sink (S.faults source.old) (S.faults source.new) out.old out.new (Some result) }
{
    let desc = match open_session(alloc, source, out, adapters) {
        Ok((desc, _)) => desc,
        Err(status) => return status,
    };
    put_description(&desc, out)
}
