// What accesses are made on.
use rl_access::Model;
use rl_bus::Adapters;

/// A model, its device, and the adapters between them.
#[derive(Drop)]
pub(crate) struct Stand<'a, D> {
    pub(crate) model: &'a mut Model,
    pub(crate) device: &'a mut D,
    pub(crate) adapters: &'a mut Adapters,
}
