// What each task does, written out.
ghost use Rattle.std.specs.Prelude.{◌≡◌, ℕ, ◌≤◌, ◌<◌, ◌^◌, Some, map, length, true, false};
ghost use Rattle.regrun.specs.Prelude.{Does, EndedOnce, IsCaused, KeepsEarlier, Leaves, is_complete, output_of};

use crate::running::run;
use crate::showing::show_layout;
use crate::weaving::weave;
use crate::words::Task;
use rl_bus::{Adapter, Adapters};
use rl_log::Status;
use rl_play::{Buffered, Earlier, Log};
use rl_report::{Sink, Source};
use rl_session_run::{end_buffered, put_soak};
use std::alloc::Global;

// Does what the words ask for. What is kept back isn't written yet.
fn perform_task<S: Source, L: Log>(
    alloc: Global,
    task: Task,
    source: &mut S,
    out: &mut L,
    adapters: &mut Adapters,
) -> Status
    requires few { length (map standing adapters.old.items) < 2 ^ 32 }
    ensures does { Does task result (S.left source.old) (S.left source.new)
        (output_of L.written standing out.old adapters.old.items)
        (output_of L.written standing out.new adapters.new.items) }
    ensures flushed { result ≡ Status.SourceFault → L.is_out out.old → L.is_out out.new }
    ensures unwritten { task ≡ Task.Map → result ≡ Status.SourceFault → out.new ≡ out.old }
    ensures map_adapters { task ≡ Task.Map → adapters.new ≡ adapters.old }
    ensures soak_unread { (n : ℕ) → task ≡ Task.Soak n → source.new ≡ source.old }
    ensures leaves { Leaves L.Sink (S.faults source.old) (S.faults source.new) out.old out.new (Some result) }
{
    match task {
        Task::Run => run(alloc, source, out, adapters),
        Task::Map => show_layout(alloc, source, out, adapters),
        Task::Soak(n) => put_soak(alloc, n, out, adapters),
        Task::Weave(n) => weave(alloc, n, source, out, adapters),
    }
}

// Does what the words ask for, and writes it out. Whatever the answer, the sink keeps the bytes that it had before.
pub(crate) fn run_task<S: Source, K: Sink, E: Earlier>(
    alloc: Global,
    task: Task,
    source: &mut S,
    sink: &mut K,
    adapters: &mut Adapters,
) -> Status
    requires few { length (map standing adapters.old.items) < 2 ^ 32 }
    requires earlier { K.written sink.old ≡ E.bytes }
    ensures does { Does task result (S.left source.old) (S.left source.new)
        (output_of K.written standing sink.old adapters.old.items)
        (output_of K.written standing sink.new adapters.new.items) }
    ensures unwritten { task ≡ Task.Map → result ≡ Status.SourceFault → sink.new ≡ sink.old }
    ensures map_adapters { task ≡ Task.Map → adapters.new ≡ adapters.old }
    ensures soak_unread { (n : ℕ) → task ≡ Task.Soak n → source.new ≡ source.old }
    ensures keeps_earlier { KeepsEarlier (K.written sink.old) (K.written sink.new) }
    ensures source_later { S.faults source.old ≤ S.faults source.new }
    ensures sink_later { K.faults sink.old ≤ K.faults sink.new }
    ensures cause { IsCaused result
        (S.faults source.old) (S.faults source.new) (K.faults sink.old) (K.faults sink.new) }
    ensures ended { is_complete result ≡ true → EndedOnce (K.ends sink.old) (K.ends sink.new) }
    ensures not_ended { is_complete result ≡ false → K.ends sink.new ≡ K.ends sink.old }
{
    let mut out = Buffered::<K, E>::new(sink);
    let status = perform_task(alloc, task, source, &mut out, adapters);
    end_buffered(status, &mut out)
}
