// A session on a device of one's own, from its bytes to its log.
ghost use Rattle.std.specs.Prelude.{◌≡◌, ◌<◌, ◌^◌, map, length, option_map, IfSome, refl, true};
ghost use Rattle.example_wishbone.specs.Prelude.{LeavesEnded, RunsOnTimer, has_flaws, on_timer};

use crate::timer::Timer;
use rl_bus::{Adapter, Adapters};
use rl_desc::Desc;
use rl_log::Status;
use rl_report::{Sink, Source, put_all};
use rl_session_run::{Check, Host, Hosted, refused, run_on};
use std::alloc::{AllocError, Global};

// Whether a description declares a flaw.
fn has_flaws(desc: &Desc) -> bool
    ensures { result ≡ has_flaws desc.now.flaws }
{
    !desc.flaws.is_empty()
}

// What the session runs on.
#[derive(Clone, Copy, Drop)]
struct OnTimer {}

impl Check for OnTimer {
    ghost over = { on_timer };

    ghost keeps_refusals = { λ line. refl };

    // Ends the session where its description declares a flaw: that is one of the device model, which this device isn't.
    fn check<Q: Sink>(&self, desc: &Desc, log: &mut Q) -> Result<(), Status> {
        if !has_flaws(desc) {
            return Ok(());
        }
        Err(refused(put_all(
            log,
            b"refused description flaw 1: no flaws on this device\n",
        )))
    }
}

impl Host for OnTimer {
    ghost use Rattle.std.specs.Prelude.{true, refl};
    ghost use Rattle.rl_bus.specs.Account.{without_peer};

    type Made = Timer;

    ghost backdoor = { true };

    ghost first = { λ host desc. without_peer 0 };

    ghost unfailed = { λ host desc. refl };

    fn has_backdoor(&self) -> bool {
        true
    }

    fn device(self, _alloc: Global, _desc: &Desc) -> Result<Timer, AllocError> {
        Ok(Timer::new())
    }
}

/// Runs a session on a timer, and writes its log. The timer comes back as the script left it.
pub(crate) fn run_session<P: Source, Q: Sink>(
    alloc: Global,
    session: &mut P,
    log: &mut Q,
    adapters: &mut Adapters,
) -> Hosted<Timer>
    requires few { length (map standing adapters.old.items) < 2 ^ 32 }

    // Which sessions are refused and in what words, what is written of the others, the statuses, and how often the
    // timer failed, one fact a field.
    ensures does { IfSome (P.left session.old) (λ bytes. RunsOnTimer bytes (P.left session.new) result.status
        (Q.written log.old) (Q.written log.new) (map standing adapters.old.items) (map standing adapters.new.items)
        (option_map (λ timer. timer.errors) result.device)) }

    // However it ends, the log keeps the bytes that it had before, and is ended exactly where its last line was
    // written. No fault is made up, and the status is never that of other words.
    ensures leaves { LeavesEnded Q.Sink result.status (P.faults session.old) (P.faults session.new) log.old log.new }
{
    run_on(alloc, session, log, adapters, OnTimer {})
}
