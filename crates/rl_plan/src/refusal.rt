// What no plan is made for.
ghost use Rattle.std.specs.Prelude.{◌≡◌, ◌≢◌, refl};
ghost use Rattle.rl_log.specs.Telling.{Tells};
ghost use Rattle.rl_log.specs.Texts.{refused_text};
ghost use Rattle.rl_session_run.specs.Prelude.{IsCaused, Rose, StaysOpen};
ghost use Rattle.rl_plan.specs.Opening.{unflawed};
ghost use Rattle.rl_plan.specs.Refusal.{EndsUnread};

use rl_desc::Desc;
use rl_grade::ScriptFault;
use rl_log::{LineRefusal, Status};
use rl_play::put_line_refused;
use rl_report::{Sink, put_all};
use rl_session_run::{Check, refused};

// That a description has no flaws of its own.
#[derive(Clone, Copy)]
pub(crate) struct Unflawed {}

impl Check for Unflawed {
    ghost over = { unflawed };

    ghost keeps_refusals = { λ line. refl };

    fn check<K: Sink>(&self, desc: &Desc, log: &mut K) -> Result<(), Status> {
        if desc.flaws.is_empty() {
            return Ok(());
        }
        Err(refused(put_all(
            log,
            b"refused session: the description has flaws of its own\n",
        )))
    }
}

// Ends the session at a line that is refused.
fn end_at_line<K: Sink>(number: u64, why: LineRefusal, log: &mut K) -> Status
    ensures tells { Tells result Status.Refused (K.written log.old) (K.written log.new) (refused_text number why) }
    ensures cause { IsCaused result 0 0 (K.faults log.old) (K.faults log.new) }
    ensures stays { StaysOpen K.written K.faults K.ends log.old log.new }
{
    refused(put_line_refused(log, number, why))
}

// Ends the session where its script gives no tasks.
pub(crate) fn end_unread<K: Sink>(fault: ScriptFault, log: &mut K) -> Status
    ensures ends { EndsUnread fault result (K.written log.old) (K.written log.new) }
    ensures stays { StaysOpen K.written K.faults K.ends log.old log.new }
    ensures source { result ≡ Status.SourceFault → fault ≡ ScriptFault.Source }
    ensures sink { result ≡ Status.SinkFault → Rose (K.faults log.old) (K.faults log.new) }
    ensures known { result ≢ Status.Words }
{
    match fault {
        ScriptFault::Line { number, why } => end_at_line(number, why, log),
        ScriptFault::Source => Status::SourceFault,
        ScriptFault::Memory => Status::Memory,
    }
}
