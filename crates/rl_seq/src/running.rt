//! A sequence under way.

use rl_access::{Model, Tally};
use rl_bus::Adapters;

/// What a sequence works on, the recorder that it hands events to, and what it has counted.
#[derive(Drop)]
pub(crate) struct Running<'a, D, R> {
    pub(crate) model: &'a mut Model,
    pub(crate) device: &'a mut D,
    pub(crate) adapters: &'a mut Adapters,
    pub(crate) recorder: &'a mut R,
    pub(crate) tally: Tally,
}
