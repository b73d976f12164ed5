// All that the program does.
ghost use Rattle.std.specs.Prelude.{◌≡◌, ◌↔◌, ℕ, ◌≤◌, ◌<◌, ◌^◌, Some, None, map, length, true, false, IfSome};
ghost use Rattle.regrun.specs.Prelude.{Does, EndedOnce, KeepsEarlier, Rose, asked_by, is_complete, output_of};

use crate::tasks::run_task;
use crate::words::{Task, task_of};
use rl_bus::{Adapter, Adapters};
use rl_log::Status;
use rl_report::{Sink, Source};
use std::alloc::Global;
use std::marker::Brand;

/// Does all that the program does, by its words.
///
/// `run` reads a session from the source and writes its log to the sink; `map` reads a description and writes where its
/// items are. `soak` and a number makes a session from the number, runs it and writes one line. `weave` and a number
/// runs a session of other masters' accesses group by group. The words of each group are drawn by a generator that
/// begins at the number. The device is made from the session, with the flaws that it declares. The adapter of each root
/// map is the first of its name. A source that fails ends the call with `SourceFault`, and a sink that fails with
/// `SinkFault`. The output is finished once, where the last line was written.
///
/// # Examples
///
/// The word is `run`, and the script of the session is `write ctrl 0x3` and `check ctrl`. Bit 2 of the field
/// `mode` is stuck at 1. The status is `Status::Found`, and the sink has:
///
/// ```text
/// write ctrl 0x3 @bus: ok mirror 0x03
///   bus w 0x0 0x03 1 #0 ok
/// check ctrl @bus: ok 0x07 mirror 0x07 differ mode
///   bus r 0x0 0x07 1 #1 ok
/// end: 2 events, 1 differences, 0 bus errors
/// ```
pub fn regrun<S: Source, K: Sink>(
    alloc: Global,
    words: &[String],
    source: &mut S,
    sink: &mut K,
    adapters: &mut Adapters,
) -> Status
    requires few { length (map standing adapters.old.items) < 2 ^ 32 }

    // Other words do nothing.
    ensures words { (result ≡ Status.Words) ↔ (asked_by words.now ≡ None) }
    ensures untouched { result ≡ Status.Words
        → (source.new ≡ source.old) × (sink.new ≡ sink.old) × (adapters.new ≡ adapters.old) }

    // What `run`, `map`, `soak` and `weave` do, one fact a field: the judged log, the laws of its events, the plain
    // machine's log, what is written where the source fails, and the statuses.
    ensures does { IfSome (asked_by words.now) (λ task. Does task result (S.left source.old) (S.left source.new)
        (output_of K.written standing sink.old adapters.old.items)
        (output_of K.written standing sink.new adapters.new.items)) }

    // After a source that failed, `map` has written nothing: the sink is as before. It leaves the adapters.
    ensures unwritten { asked_by words.now ≡ Some Task.Map → result ≡ Status.SourceFault → sink.new ≡ sink.old }
    ensures map_adapters { asked_by words.now ≡ Some Task.Map → adapters.new ≡ adapters.old }

    // `soak` doesn't read the source.
    ensures soak_unread { (n : ℕ) → asked_by words.now ≡ Some (Task.Soak n) → source.new ≡ source.old }

    // However it ends, the sink keeps the bytes that it had before.
    ensures keeps_earlier { KeepsEarlier (K.written sink.old) (K.written sink.new) }

    // No fault is made up.
    ensures source_later { S.faults source.old ≤ S.faults source.new }
    ensures sink_later { K.faults sink.old ≤ K.faults sink.new }
    ensures source_cause { result ≡ Status.SourceFault → Rose (S.faults source.old) (S.faults source.new) }
    ensures sink_cause { result ≡ Status.SinkFault → Rose (K.faults sink.old) (K.faults sink.new) }

    // The output is ended, once, exactly where the last line was written.
    ensures ended { is_complete result ≡ true → EndedOnce (K.ends sink.old) (K.ends sink.new) }
    ensures not_ended { is_complete result ≡ false → K.ends sink.new ≡ K.ends sink.old }
{
    let Some(task) = task_of(words) else {
        return Status::Words;
    };
    run_task::<S, K, Brand>(alloc, task, source, sink, adapters)
}
