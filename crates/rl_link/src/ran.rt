// How a session over a link ended.
ghost use Rattle.std.specs.Prelude.{◌≡◌};
ghost use Rattle.rl_link.specs.Session.{broken_of, undone_of, exit_code, counted_in};

use crate::link::{Break, Link};
use rl_log::Status;
use rl_report::{Sink, Source};

const BROKEN: u8 = 7;

// A status that counts what wasn't done.
fn counted_in(status: Status, undone: u64) -> Status
    ensures { result ≡ counted_in status undone }
{
    if status == Status::Passed && undone > 0 {
        Status::Found
    } else {
        status
    }
}

/// How a session over a link ended, and the link where it came to its script.
#[derive(Drop)]
pub struct Ran<S: Source, K: Sink, N: Sink, M: Sink> {
    /// How the session ended.
    pub status: Status,
    /// The link, where the session came to its script.
    pub link: Option<Link<S, K, N, M>>,
}

impl<S: Source, K: Sink, N: Sink, M: Sink> Ran<S, K, N, M> {
    /// How the link broke, where it did.
    pub fn broken(&self) -> Option<Break>
        ensures { result ≡ broken_of self.now.link }
    {
        match &self.link {
            Some(link) => link.broken,
            None => None,
        }
    }

    /// How many resets and changes by the hardware the peer didn't do.
    pub fn undone(&self) -> u64
        ensures { result ≡ undone_of self.now.link }
    {
        match &self.link {
            Some(link) => link.undone,
            None => 0,
        }
    }

    /// The exit status of the program: 7 where the link broke, and else that of the session, which isn't 0 where the
    /// peer didn't do a reset or a change.
    pub fn code(&self) -> u8
        ensures { result ≡ exit_code self.now.status (broken_of self.now.link) (undone_of self.now.link) }
    {
        match self.broken() {
            Some(_) => BROKEN,
            None => counted_in(self.status, self.undone()).code(),
        }
    }
}
