//! Which single flaws of a device a script finds.
//!
//! The single flaws of a description are in lists by what they are of: a field, a register or memory, the items of a
//! session. A script is read as tasks, whose names are resolved once. A run without flaws keeps what each event showed;
//! a run with one flaw, begun afresh, then goes up to the first event that shows more. No text is made.
#![tactic(auto)]

mod batch;
mod bits;
mod drive;
mod flaws;
mod fresh;
mod grade;
mod hidden;
mod job;
pub mod law;
mod meter;
mod place;
mod recorders;
mod register;
mod run;
mod same;
mod script;
mod seen;
mod sort;
mod together;
mod trial;
mod unchecked;

pub use flaws::{field_flaws, item_flaws, session_flaws};
pub use grade::{Graded, Known, PlaceGrade, Share, Tries, grade_place, grade_place_known};
pub use hidden::is_hidden;
pub use job::{Job, Task};
pub use meter::Meter;
pub use place::{Place, flaws_at};
pub use run::{Shown, Tried, show, try_flaw};
pub use script::{ScriptFault, read_script};
pub use seen::{Find, Seen};
pub use together::grade_together;
