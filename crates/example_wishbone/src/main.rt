//! An example to copy: a bus of one's own, Wishbone, and a device of one's own, a timer that is written by hand.
//!
//! A session comes from standard input, and its log goes to standard output.
#![tactic(auto)]

mod adapter;
mod session;
mod signals;
mod timer;

use crate::adapter::WishboneAdapter;
use crate::session::run_session;
use rl_bus::{Adapters, PlainAdapter};
use rl_log::Status;
use rl_report::{StdSink, StdSource};
use std::alloc::AllocError;
use std::io;
use std::process::ExitCode;

// Runs the session with a plain and a Wishbone adapter for the root maps.
fn run(rt: &(impl AllocGlobal + Input + Print)) -> Result<Status, AllocError> {
    let alloc = rt.alloc();
    let plain = PlainAdapter {
        next_tag: 0,
        trail: 0,
    };
    let wishbone = WishboneAdapter {
        next_tag: 0,
        trail: 0,
    };
    let mut adapters: Adapters = Vec::new(alloc);
    adapters.push(Box::new(alloc, plain)?)?;
    adapters.push(Box::new(alloc, wishbone)?)?;
    let mut session = StdSource::new(rt.reader());
    let mut log = StdSink::new(io::writer(rt));
    Ok(run_session(alloc, &mut session, &mut log, &mut adapters).status)
}

fn main(rt: HostRuntime) -> ExitCode {
    match run(&rt) {
        Ok(status) => ExitCode::from(status.code()),
        Err(_) => ExitCode::from(Status::Memory.code()),
    }
}
