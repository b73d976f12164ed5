// The cases, each over a device model of its own.
use super::calls::Case;
use super::cases::cases;
use super::chip::with_flaws;
use crate::accesses::fixture::{Task, performed};
use std::alloc::AllocGlobal;
use std::process::Abort;
use std::test::Fail;

fn run_with(rt: &(impl Abort + AllocGlobal), case: &'static Case) -> Result<(), Fail> {
    let text = with_flaws(rt.alloc(), case.flaws)?;
    performed(rt, text.as_str(), &Task::Index(case))
}

#[test]
fn accesses_by_index(rt: HostRuntime) -> Result<(), Fail> {
    for case in cases() {
        run_with(&rt, case)?;
    }
    Ok(())
}
