// A whole session on a device of one's own.
ghost use Rattle.std.specs.Prelude.{◌≡◌, ◌<◌, ◌^◌, ℕ, List, None, Err, map, length, IfOk, IfSome};
ghost use Rattle.std.specs.Prelude.{IsNone, option_map};
ghost use Rattle.rl_session_run.specs.Prelude.{LeavesEnded, RunsSession, kinds_of, opening_of, opening_on, played_on};

use crate::checking::{Check, open_checked};
use crate::ending::end_log;
use crate::playing::play_described;
use rl_bus::{Adapter, Adapters, Device};
use rl_desc::Desc;
use rl_log::Status;
use rl_report::{Sink, Source};
use std::alloc::{AllocError, Global};

/// What a session runs on: a device that reports nothing, and what of a description it can't have.
pub trait Host: Check {
    ghost use Rattle.std.specs.Prelude.{◌≡◌, Bool};
    ghost use Rattle.rl_bus.specs.Account.{Account};
    ghost use Rattle.rl_desc.specs.Data.{DescData};

    /// The device.
    type Made: Device + Drop;

    /// Whether the device has a backdoor.
    ghost backdoor: { Bool };

    /// Whether the device has a backdoor. A script on one that has none is played as if no item had one.
    fn has_backdoor(&self) -> bool
        ensures { result ≡ backdoor };

    /// The account of the device that it makes for a description.
    ghost first: { Self → DescData → Account };

    /// It hasn't failed.
    ghost unfailed: { (host : Self) (desc : DescData) → (first host desc).errors ≡ 0 };

    /// The device of a description that passed the check.
    fn device(self, alloc: Global, desc: &Desc) -> Result<Self::Made, AllocError>
        ensures silent { IfOk result (λ device. Self.Made.state device ≡ None) }
        ensures first { IfOk result (λ device. Self.Made.account device ≡ first self desc.now) };
}

// Takes the backdoors of a description away, where the device has none.
fn fit_backdoors(desc: &mut Desc, backdoor: bool)
    ensures { desc.new ≡ played_on backdoor desc.old }
{
    if !backdoor {
        desc.chip.close_backdoors();
    }
}

/// How a session on a device ended, and the device where it came to its script.
#[derive(Drop)]
pub struct Hosted<D> {
    /// How it ended.
    pub status: Status,
    /// The device, with what the script made of it.
    pub device: Option<D>,
}

/// Runs a session on the device that a host makes for it, and writes its log.
///
/// The description is read and checked before there is a device. Where the device has no backdoor, no item of the
/// description has one from there on. The log is finished once, where its last line was written.
///
/// # Examples
///
/// `OnTimer` of `example_wishbone` makes a timer, and refuses a session with a flaw.
///
/// ```text
/// let hosted = run_on(alloc, session, log, adapters, OnTimer {});
/// // How it ended, and the timer where the session came to its script:
/// hosted.status
/// hosted.device
/// ```
pub fn run_on<P: Source, Q: Sink, H: Host + Drop>(
    alloc: Global,
    session: &mut P,
    log: &mut Q,
    adapters: &mut Adapters,
    host: H,
) -> Hosted<H::Made>
    requires few { length (map standing adapters.old.items) < 2 ^ 32 }

    // Which sessions are refused and in what words, what is written of the others, the statuses, and where the device is
    // handed out, which was asked exactly what the log's events say. After a source that failed, exactly the lines that
    // were taken whole are in the log. One fact a field.
    ensures does { IfSome (P.left session.old) (λ bytes.
        RunsSession (opening_on H.backdoor (H.over (opening_of bytes (kinds_of (map standing adapters.old.items)))))
        bytes (P.left session.new) result.status
        (Q.written log.old) (Q.written log.new) (map standing adapters.old.items) (map standing adapters.new.items)
        (H.first host) (option_map H.Made.account result.device)) }
    ensures unmade { IfSome (P.left session.old) (λ bytes. (line : List ℕ)
        → opening_on H.backdoor (H.over (opening_of bytes (kinds_of (map standing adapters.old.items)))) ≡ Err line
        → IsNone result.device) }
    ensures kinds { kinds_of (map standing adapters.new.items) ≡ kinds_of (map standing adapters.old.items) }
    ensures leaves { LeavesEnded Q.Sink result.status (P.faults session.old) (P.faults session.new) log.old log.new }
{
    let (mut desc, mut lines) = match open_checked(alloc, session, log, adapters, &host) {
        Ok(opened) => opened,
        Err(status) => {
            return Hosted {
                status: end_log(status, log),
                device: None,
            };
        }
    };
    fit_backdoors(&mut desc, host.has_backdoor());
    let Ok(mut device) = host.device(alloc, &desc) else {
        return Hosted {
            status: Status::Memory,
            device: None,
        };
    };
    let played = play_described(alloc, desc, &mut device, &mut lines, session, log, adapters);
    Hosted {
        status: end_log(played, log),
        device: Some(device),
    }
}
