//! Runs a session from a file, writes its log to standard output, and the pins of its APB transfers to another file.
#![tactic(auto)]

use rl_apb::fresh_adapters;
use rl_bus::Adapters;
use rl_cli::{KeptSink, KeptSource, advise, code_of, create_file, open_file, tell_fault, words};
use rl_log::Status;
use rl_report::{StdSink, StdSource};
use rl_vcd::{Fault, Ran, run_waves};
use std::alloc::AllocError;
use std::io;
use std::process::ExitCode;

const PROGRAM: &str = "regrun-waves";

fn fault_text(fault: Fault) -> &'static str {
    match fault {
        Fault::Sink => "the dump couldn't be written",
        Fault::Full => "the dump has too many clock cycles",
        Fault::Memory => "no memory for the dump",
    }
}

// Says how the dump ended early, where it did. Answers the exit status.
fn code_of_dump<K>(rt: &impl Eprint, path: &str, ran: &Ran<K>) -> u8 {
    let Some(fault) = ran.fault else {
        return ran.status.code();
    };
    let text = fault_text(fault);
    let _ = eprintln!(rt; "regrun-waves: {path}: {text}");
    if !ran.status.is_complete() {
        return ran.status.code();
    }
    match fault {
        Fault::Sink | Fault::Full => Status::SinkFault.code(),
        Fault::Memory => Status::Memory.code(),
    }
}

// Runs the session in a file, and writes its pins to another one.
fn run_files(rt: &HostRuntime, path: &str, waves: &str) -> Result<u8, AllocError> {
    let alloc = rt.alloc();
    let Some(session) = open_file(rt, PROGRAM, path) else {
        return Ok(Status::SourceFault.code());
    };
    let Some(vcd) = create_file(rt, PROGRAM, waves) else {
        return Ok(Status::SinkFault.code());
    };
    let (plain, apb) = fresh_adapters();
    let mut adapters: Adapters = Vec::new(alloc);
    adapters.push(Box::new(alloc, plain)?)?;
    adapters.push(Box::new(alloc, apb)?)?;
    let mut session = KeptSource::new(alloc, StdSource::new(session));
    let mut log = KeptSink::new(alloc, StdSink::new(io::writer(rt)));
    let ran = run_waves(
        alloc,
        &mut session,
        &mut log,
        StdSink::new(vcd),
        &mut adapters,
    );
    advise(
        alloc,
        PROGRAM,
        &session,
        &log,
        &mut StdSink::new(rt.stderr()),
    );
    tell_fault(rt, PROGRAM, ran.status);
    Ok(code_of_dump(rt, waves, &ran))
}

// Does what the arguments ask for.
fn run(rt: &HostRuntime) -> io::Result<u8> {
    let words = words(rt)?;
    let [session, waves] = words.as_slice() else {
        let _ = eprintln!(rt;
            "regrun-waves: SESSION and VCD are asked for: a file to read and one to write"
        );
        return Ok(Status::Words.code());
    };
    Ok(run_files(rt, session.as_str(), waves.as_str())?)
}

fn main(rt: HostRuntime) -> ExitCode {
    code_of(&rt, PROGRAM, run(&rt))
}
