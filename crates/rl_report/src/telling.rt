// An event beside the model that it is of: what the text of an event is told from.
use rl_access::{Event, Model};

#[derive(Clone, Copy)]
pub(crate) struct Telling<'a> {
    pub(crate) model: &'a Model,
    pub(crate) event: &'a Event,
}
