// What a session over a link runs on.
ghost use Rattle.std.specs.Prelude.{◌≡◌, false, refl};
ghost use Rattle.rl_link.specs.Opening.{has_flaws, over_link};

use crate::link::{Link, Streams};
use crate::names::Names;
use rl_desc::Desc;
use rl_log::Status;
use rl_report::{Sink, Source, put_all};
use rl_session_run::{Check, Host, refused};
use std::alloc::{AllocError, Global};

// Whether a description declares a flaw.
fn has_flaws(desc: &Desc) -> bool
    ensures { result ≡ has_flaws desc.now.flaws }
{
    !desc.flaws.is_empty()
}

impl<S: Source + Drop, K: Sink + Drop, N: Sink + Drop, M: Sink + Drop> Check
    for Streams<S, K, N, M> {
    ghost over = { over_link };

    ghost keeps_refusals = { λ line. refl };

    // Ends the session where its description declares a flaw: that is one of the device model, which the peer isn't.
    fn check<Q: Sink>(&self, desc: &Desc, log: &mut Q) -> Result<(), Status> {
        if !has_flaws(desc) {
            return Ok(());
        }
        Err(refused(put_all(log, b"refused description flaw 1: no flaws over a link\n")))
    }
}

impl<S: Source + Drop, K: Sink + Drop, N: Sink + Drop, M: Sink + Drop> Host
    for Streams<S, K, N, M> {
    ghost use Rattle.std.specs.Prelude.{false, refl};
    ghost use Rattle.rl_link.specs.Session.{first_account};

    type Made = Link<S, K, N, M>;

    ghost backdoor = { false };

    ghost first = { λ streams desc. first_account S.left K.written streams desc };

    ghost unfailed = { λ streams desc. refl };

    fn has_backdoor(&self) -> bool {
        false
    }

    fn device(self, alloc: Global, desc: &Desc) -> Result<Link<S, K, N, M>, AllocError> {
        let names = Names::build(alloc, &desc.chip, &desc.layout)?;
        Link::build(alloc, names, self)
    }
}
