// What else a session is refused for, before its script.
ghost use Rattle.std.specs.Prelude.{◌≡◌, ◌≢◌, ◌≤◌, ◌<◌, ◌^◌, ℕ, List, Ok, Err, map, length, OnOk, IfOk, IfErr, IfSome};
ghost use Rattle.rl_session_run.specs.Prelude.{AwaitsScript, Checks, LeavesOpen, LeavesScript, OpensAs, Stops};
ghost use Rattle.rl_session_run.specs.Prelude.{TakesNoHead, kinds_of, opening_of};

use crate::opening::open_session;
use rl_bus::{Adapter, Adapters};
use rl_desc::Desc;
use rl_log::Status;
use rl_report::{LineReader, Sink, Source};
use std::alloc::Global;

/// A check of a description that could be run on the device model.
pub trait Check {
    ghost use Rattle.std.specs.Prelude.{Result};
    ghost use Rattle.rl_desc.specs.Data.{DescData};

    /// What a session opens with, or the line that refuses it, once it was checked.
    ghost over: { Result DescData (List ℕ) → Result DescData (List ℕ) };

    /// Writes nothing, or ends the session with the line that says why it is refused.
    fn check<K: Sink>(&self, desc: &Desc, log: &mut K) -> Result<(), Status>
        ensures checks { Checks K.Sink over desc.now result log.old log.new };

    /// What was refused before is refused in the same words.
    ghost keeps_refusals: { (line : List ℕ) → over (Err line) ≡ Err line };
}

/// Reads a session up to its separator, and its description, and checks this, or ends the session.
///
/// # Errors
///
/// The status of a session that ended here, as of `open_session`; of the check it is `Refused`, or a fault of the log.
/// What was taken of the source then is as of `open_session` too.
pub fn open_checked<S: Source, K: Sink, C: Check>(
    alloc: Global,
    source: &mut S,
    log: &mut K,
    adapters: &Adapters,
    check: &C,
) -> Result<(Desc, LineReader), Status>
    requires few { length (map standing adapters.now.items) < 2 ^ 32 }
    ensures awaits { IfOk result (λ opened.
        AwaitsScript opened.0 opened.1 (kinds_of (map standing adapters.now.items))) }
    ensures allowed { IfOk result (λ opened. C.over (Ok opened.0) ≡ Ok opened.0) }
    ensures opens { IfOk result (λ opened. IfSome (S.left source.old) (λ bytes.
        OpensAs (C.over (opening_of bytes (kinds_of (map standing adapters.now.items))))
        bytes opened.0 opened.1 (S.left source.new))) }
    ensures unwritten { OnOk result (log.new ≡ log.old) }
    ensures stops { IfErr result (λ status. IfSome (S.left source.old) (λ bytes.
        Stops (C.over (opening_of bytes (kinds_of (map standing adapters.now.items))))
        status (K.written log.old) (K.written log.new))) }
    ensures at_fault { result ≡ Err Status.SourceFault
        → IfSome (S.left source.old) (λ bytes. TakesNoHead bytes (S.left source.new)) }
    ensures unread { result ≢ Err Status.SourceFault → result ≢ Err Status.Memory
        → IfSome (S.left source.old) (λ bytes. LeavesScript bytes (S.left source.new)) }
    ensures leaves { IfErr result (λ status.
        LeavesOpen K.Sink status (S.faults source.old) (S.faults source.new) log.old log.new) }
    ensures source_later { S.faults source.old ≤ S.faults source.new }
{
    let (desc, lines) = open_session(alloc, source, log, adapters)?;
    check.check(&desc, log)?;
    Ok((desc, lines))
}
