// A session on a device over a link.
ghost use Rattle.std.specs.Prelude.{◌≡◌, ◌<◌, ◌^◌, List, ℕ, Err, map, length, option_map, IfSome, IsNone};
ghost use Rattle.rl_link.specs.Prelude.{LeavesEnded, kinds_of};
ghost use Rattle.rl_link.specs.Opening.{linked_opening};
ghost use Rattle.rl_link.specs.Account.{account_of};
ghost use Rattle.rl_link.specs.Session.{AreClosed, RunsLinked};

use crate::link::{Link, Streams};
use crate::ran::Ran;
use rl_bus::{Adapter, Adapters};
use rl_report::{Sink, Source};
use rl_session_run::run_on;
use std::alloc::Global;

// The link of a session that is over.
fn closed<S: Source, K: Sink, N: Sink, M: Sink>(
    link: Option<Link<S, K, N, M>>,
) -> Option<Link<S, K, N, M>>
    ensures none { IsNone link → IsNone result }
    ensures closed { AreClosed K.written (option_map (account_of S.left K.written) link) result }
{
    let mut link = link?;
    link.close();
    Some(link)
}

/// Runs a session on a device over a link to these streams, and writes its log.
///
/// The description is read before anything is sent. The script is played as if no item had a backdoor: a link has none.
/// Requests go to the sink, and answers come from the source. The log is finished once, where its last line was written.
/// A link that breaks doesn't end the session: the answer's `code` tells of it.
///
/// # Examples
///
/// The script is `write ctrl 0x3` and `check ctrl`. The sink gets the lines on the left, and the source
/// has those on the right.
///
/// ```text
/// w bus 0x0 0x3 1 #0      ok
/// r bus 0x0 0x0 1 #1      ok 0x7
/// // The log:
/// write ctrl 0x3 @bus: ok mirror 0x03
///   bus w 0x0 0x03 1 #0 ok
/// check ctrl @bus: ok 0x07 mirror 0x07 differ mode
/// ```
pub fn run_linked<
    P: Source,
    Q: Sink,
    S: Source + Drop,
    K: Sink + Drop,
    N: Sink + Drop,
    M: Sink + Drop,
>(
    alloc: Global,
    session: &mut P,
    log: &mut Q,
    streams: Streams<S, K, N, M>,
    adapters: &mut Adapters,
) -> Ran<S, K, N, M>
    requires few { length (map standing adapters.old.items) < 2 ^ 32 }

    // Which sessions are refused and in what words, what is written of the others, the statuses, and where the link is
    // handed out. It was asked exactly what the log's events say, each answer is the peer's to that request, and unless
    // it broke, what was sent is the request of each, in order. After a source that failed, exactly the lines that were
    // taken whole are in the log. One fact a field.
    ensures does { IfSome (P.left session.old) (λ bytes. RunsLinked S.left K.written streams bytes
        (P.left session.new) result.status (Q.written log.old) (Q.written log.new)
        (map standing adapters.old.items) (map standing adapters.new.items) result.link) }

    // Of a session that is refused before its script, nothing is sent: there is no link.
    ensures unsent { IfSome (P.left session.old) (λ bytes. (line : List ℕ)
        → linked_opening bytes (kinds_of (map standing adapters.old.items)) ≡ Err line → IsNone result.link) }

    // However it ends, the adapters keep their kinds.
    ensures kinds { kinds_of (map standing adapters.new.items) ≡ kinds_of (map standing adapters.old.items) }

    // The log keeps the bytes that it had before, and is ended exactly where its last line was written. No fault is
    // made up, and the status is never that of other words.
    ensures leaves { LeavesEnded Q.Sink result.status (P.faults session.old) (P.faults session.new) log.old log.new }
{
    let ran = run_on(alloc, session, log, adapters, streams);
    Ran {
        status: ran.status,
        link: closed(ran.device),
    }
}
