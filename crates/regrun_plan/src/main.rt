//! A script that finds each single flaw of a device which a check can show. The program reads a session from standard
//! input, and writes to standard output the script for its description, or those of its lines that the session's own
//! script needs.
#![tactic(auto)]

use rl_apb::fresh_adapters;
use rl_bus::Adapters;
use rl_cli::{code_of, tell_fault, words};
use rl_log::Status;
use rl_plan::{Wanted, asked_by, run_added, run_plan};
use rl_report::{StdSink, StdSource};
use std::alloc::AllocError;
use std::io;
use std::process::ExitCode;

const PROGRAM: &str = "regrun-plan";

// Writes what is wanted of the session on standard input, with a plain and an APB adapter for the root maps.
fn write(rt: &HostRuntime, wanted: Wanted) -> Result<Status, AllocError> {
    let alloc = rt.alloc();
    let (plain, apb) = fresh_adapters();
    let mut adapters: Adapters = Vec::new(alloc);
    adapters.push(Box::new(alloc, plain)?)?;
    adapters.push(Box::new(alloc, apb)?)?;
    let mut source = StdSource::new(rt.reader());
    let mut log = StdSink::new(io::writer(rt));
    let status = match wanted {
        Wanted::Plan(asked) => run_plan(alloc, asked, &mut source, &mut log, &adapters),
        Wanted::Added(asked) => run_added(alloc, asked, &mut source, &mut log, &adapters),
    };
    tell_fault(rt, PROGRAM, status);
    Ok(status)
}

// Says what can be asked for. Answers the exit status.
fn tell_words(rt: &HostRuntime) -> u8 {
    let _ = eprintln!(rt;
        "regrun-plan: no word, `bus`, `add` or `add bus` is asked for, and a session on standard input"
    );
    Status::Words.code()
}

// Does what the arguments ask for.
fn run(rt: &HostRuntime) -> io::Result<u8> {
    let words = words(rt)?;
    let Some(wanted) = asked_by(&words) else {
        return Ok(tell_words(rt));
    };
    Ok(write(rt, wanted)?.code())
}

fn main(rt: HostRuntime) -> ExitCode {
    code_of(&rt, PROGRAM, run(&rt))
}
