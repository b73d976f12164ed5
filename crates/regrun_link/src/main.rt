//! Runs a session on a device that is behind standard output and input, as the bench of an RTL simulator.
#![tactic(auto)]

use rl_apb::fresh_adapters;
use rl_bus::Adapters;
use rl_cli::{KeptSink, KeptSource, advise, code_of, create_file, open_file, tell_fault, words};
use rl_link::{ByLine, Streams, run_linked};
use rl_log::Status;
use rl_report::{StdSink, StdSource};
use std::alloc::AllocError;
use std::fs::{Files, OpenOptions};
use std::io;
use std::process::ExitCode;

const PROGRAM: &str = "regrun-link";

// A file that is written at its end, whoever else writes it. Where it can't be opened, one line on standard error says
// why.
fn file_at_end<R: Files + Eprint>(rt: &R, path: &str) -> Option<R::File> {
    match OpenOptions::new().append(true).open(rt, path) {
        Ok(file) => Some(file),
        Err(error) => {
            let _ = eprintln!(rt; "{PROGRAM}: {path}: {error}");
            None
        }
    }
}

// Runs the session in a file, and writes its log to another one.
fn run_files(rt: &HostRuntime, session: &str, path: &str) -> Result<u8, AllocError> {
    let alloc = rt.alloc();
    let Some(session) = open_file(rt, PROGRAM, session) else {
        return Ok(Status::SourceFault.code());
    };
    // The log and the lines of the link between its events go to one file, which is empty at first.
    let Some(_emptied) = create_file(rt, PROGRAM, path) else {
        return Ok(Status::SinkFault.code());
    };
    let (Some(log), Some(notes)) = (file_at_end(rt, path), file_at_end(rt, path)) else {
        return Ok(Status::SinkFault.code());
    };
    let (plain, apb) = fresh_adapters();
    let mut adapters: Adapters = Vec::new(alloc);
    adapters.push(Box::new(alloc, plain)?)?;
    adapters.push(Box::new(alloc, apb)?)?;
    let mut session = KeptSource::new(alloc, ByLine::build(alloc, StdSource::new(session))?);
    let mut log = KeptSink::new(alloc, StdSink::new(log));
    let streams = Streams {
        source: StdSource::new(rt.reader()),
        sink: StdSink::new(io::writer(rt)),
        notes: StdSink::new(notes),
        messages: StdSink::new(rt.stderr()),
    };
    let ran = run_linked(alloc, &mut session, &mut log, streams, &mut adapters);
    advise(
        alloc,
        PROGRAM,
        &session,
        &log,
        &mut StdSink::new(rt.stderr()),
    );
    tell_fault(rt, PROGRAM, ran.status);
    Ok(ran.code())
}

// Does what the arguments ask for.
fn run(rt: &HostRuntime) -> io::Result<u8> {
    let words = words(rt)?;
    let [session, log] = words.as_slice() else {
        let _ = eprintln!(rt;
            "regrun-link: SESSION and LOG are asked for: a file to read and one to write"
        );
        return Ok(Status::Words.code());
    };
    Ok(run_files(rt, session.as_str(), log.as_str())?)
}

fn main(rt: HostRuntime) -> ExitCode {
    code_of(&rt, PROGRAM, run(&rt))
}
