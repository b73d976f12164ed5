//! A woven script under way.
ghost use Rattle.std.specs.Prelude.{◌≡◌, IfOk};
ghost use Rattle.rl_weave.specs.Weave.{empty};

use crate::draws::Draws;
use rl_access::Model;
use rl_bus::Adapters;
use rl_log::Counts;
use rl_weave::Weave;
use std::alloc::{AllocError, Global};

/// The accesses of the group that is read, and the draws of the whole session.
#[derive(Drop)]
pub(crate) struct WovenScript {
    pub(crate) weave: Weave,
    pub(crate) draws: Draws,
}

impl WovenScript {
    /// A script before its first line, whose draws begin at a number.
    pub(crate) fn build(alloc: Global, n: u64) -> Result<WovenScript, AllocError>
        ensures group { IfOk result (λ script. script.weave ≡ empty) }
        ensures draws { IfOk result (λ script. script.draws.state ≡ n) }
    {
        Ok(WovenScript {
            weave: Weave::build(alloc)?,
            draws: Draws { state: n },
        })
    }
}

/// What a script is run on, and where its log goes.
#[derive(Drop)]
pub(crate) struct Stage<'a, D, K> {
    pub(crate) model: &'a mut Model,
    pub(crate) device: &'a mut D,
    pub(crate) adapters: &'a mut Adapters,
    pub(crate) out: &'a mut K,
    pub(crate) counts: &'a mut Counts,
}
