// Accesses by index.

mod banks;
mod calls;
mod cases;
mod chip;
mod items;
mod rows;

pub(crate) use banks::banks_built;
pub(crate) use calls::{Case, run};
pub(crate) use items::items_seen;
