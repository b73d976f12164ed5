// The plan of a session's description.
ghost use Rattle.std.specs.Prelude.{◌≡◌, ◌<◌, ◌^◌, IfSome, length, map, true};
ghost use Rattle.rl_log.specs.declared.status.Status.TheVariants.{Passed};
ghost use Rattle.rl_log.specs.Telling.{Tells};
ghost use Rattle.rl_session_run.specs.Prelude.{IsBuiltWith, IsCaused, LeavesEnded, LeavesScript, StaysOpen};
ghost use Rattle.rl_session_run.specs.Prelude.{TakesNoHead, is_complete, kinds_of};
ghost use Rattle.rl_plan.specs.Run.{TellsPlan, model_of, planned_of, status_of};
ghost use Rattle.rl_plan.specs.Text.{plan_text};

use crate::asked::Asked;
use crate::lines::plan_text;
use crate::refusal::Unflawed;
use rl_bus::{Adapter, Adapters};
use rl_desc::Desc;
use rl_log::Status;
use rl_report::{Failed, Sink, Source, put_all};
use rl_session::model_of;
use rl_session_run::{end_log, open_checked};
use std::alloc::Global;

// The plan of a description, where there is memory for it.
fn text_of(alloc: Global, asked: Asked, desc: Desc) -> Option<Vec<u8>>
    requires { IsBuiltWith desc.layout desc.chip }
    ensures { IfSome result (λ text. text.items ≡ plan_text (model_of desc) asked) }
{
    let Ok(model) = model_of(alloc, desc) else {
        return None;
    };
    match plan_text(alloc, &model, asked) {
        Ok(text) => Some(text),
        Err(_) => None,
    }
}

// How a plan ends that was written, or a front of it.
pub(crate) fn status_of(written: Result<(), Failed>) -> Status
    ensures { result ≡ status_of written }
{
    match written {
        Ok(()) => Status::Passed,
        Err(Failed) => Status::SinkFault,
    }
}

// Writes the plan of a description.
fn put_plan<K: Sink>(alloc: Global, asked: Asked, desc: Desc, log: &mut K) -> Status
    requires { IsBuiltWith desc.layout desc.chip }
    ensures tells { Tells result Passed (K.written log.old) (K.written log.new) (plan_text (model_of desc) asked) }
    ensures cause { IsCaused result 0 0 (K.faults log.old) (K.faults log.new) }
    ensures stays { StaysOpen K.written K.faults K.ends log.old log.new }
{
    let Some(text) = text_of(alloc, asked, desc) else {
        return Status::Memory;
    };
    status_of(put_all(log, &text))
}

/// Writes the plan of a session's description: a script that finds each single flaw of the device which a check can
/// show. The adapters are those of which a root map names one; nothing is sent. The script isn't looked at.
///
/// The log is finished once, where its last line was written.
///
/// # Examples
///
/// The description has a register `ctrl` with an RW field of 4 bits. Of its lines these are the first:
///
/// ```text
/// # ctrl: each bit at 0 and at 1, by bus and backdoor; what a write and a read make of it; its resets
/// reset HARD
/// check ctrl @bus
/// check ctrl @bus
/// write ctrl 0xff @bus
/// check ctrl @bus
/// back-check ctrl
/// ```
pub fn run_plan<S: Source, K: Sink>(
    alloc: Global,
    asked: Asked,
    source: &mut S,
    log: &mut K,
    adapters: &Adapters,
) -> Status
    requires few { length (map standing adapters.now.items) < 2 ^ 32 }

    // Which sessions are refused and in what words, what is written of the others, and the statuses.
    ensures tells { IfSome (S.left source.old) (λ bytes.
        TellsPlan (planned_of asked (kinds_of (map standing adapters.now.items)) bytes)
        result (K.written log.old) (K.written log.new)) }

    // However it ends, the log keeps the bytes that it had before, and is ended exactly where its last line was
    // written. No fault is made up, and the status is never that of other words.
    ensures leaves { LeavesEnded K.Sink result (S.faults source.old) (S.faults source.new) log.old log.new }

    // Where its last line was written, the script is unread but for what was taken with the separator.
    ensures unread { is_complete result ≡ true
        → IfSome (S.left source.old) (λ bytes. LeavesScript bytes (S.left source.new)) }

    // Where the source fails, no whole separator was taken.
    ensures at_fault { result ≡ Status.SourceFault
        → IfSome (S.left source.old) (λ bytes. TakesNoHead bytes (S.left source.new)) }
{
    let (desc, _) = match open_checked(alloc, source, log, adapters, &Unflawed {}) {
        Ok(opened) => opened,
        Err(status) => return end_log(status, log),
    };
    let told = put_plan(alloc, asked, desc, log);
    end_log(told, log)
}
