// Runs a session from standard input, and writes its log to standard output.
#![tactic(auto)]

use regrun::{Status, regrun};
use rl_apb::fresh_adapters;
use rl_bus::Adapters;
use rl_cli::{KeptSink, KeptSource, advise, code_of, tell_fault, words};
use rl_report::{StdSink, StdSource};
use std::io;
use std::process::ExitCode;

const PROGRAM: &str = "regrun";

// Says what can be asked for.
fn tell_words(rt: &HostRuntime) {
    let _ = eprintln!(rt;
        "regrun: `run` or `map` is asked for, or `soak N` or `weave N` with N below 2^64, and a session on standard input"
    );
}

// Runs what the words ask for, with a plain and an APB adapter for the root maps.
fn run(rt: &HostRuntime) -> io::Result<u8> {
    let alloc = rt.alloc();
    let words = words(rt)?;
    let (plain, apb) = fresh_adapters();
    let mut adapters: Adapters = Vec::new(alloc);
    adapters.push(Box::new(alloc, plain)?)?;
    adapters.push(Box::new(alloc, apb)?)?;
    let mut source = KeptSource::new(alloc, StdSource::new(rt.reader()));
    let mut sink = KeptSink::new(alloc, StdSink::new(io::writer(rt)));
    let status = regrun(alloc, &words, &mut source, &mut sink, &mut adapters);
    advise(
        alloc,
        PROGRAM,
        &source,
        &sink,
        &mut StdSink::new(rt.stderr()),
    );
    if status == Status::Words {
        tell_words(rt);
    }
    tell_fault(rt, PROGRAM, status);
    Ok(status.code())
}

fn main(rt: HostRuntime) -> ExitCode {
    code_of(&rt, PROGRAM, run(&rt))
}
