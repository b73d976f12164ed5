//! Which single flaws of a device the script of a session finds: reads the session from standard input, and writes its
//! grading to standard output. Flaws that are known may be waived by a file. Or adds the shares of a grading, which it
//! reads from standard input.
#![tactic(auto)]

ghost use Rattle.std.specs.Prelude.{◌<◌};

use rl_apb::fresh_adapters;
use rl_bus::Adapters;
use rl_cli::{KeptSink, KeptSource, advise, code_of, open_file, tell_fault, words};
use rl_grade_report::{Asked, Call, Meter, call_by, exit_code, read_all, run_add, run_grade};
use rl_log::Status;
use rl_report::{StdSink, StdSource};
use std::alloc::AllocError;
use std::io::{self, IsTerminal};
use std::process::ExitCode;

const PROGRAM: &str = "regrun-grade";

// Shows on standard error how many flaws stand in the places so far.
#[derive(Drop)]
struct Shown<'a, R: Eprint> {
    rt: &'a R,
    // It is a terminal, and the grading goes elsewhere.
    is_terminal: bool,
}

impl<R: Eprint> Meter for Shown<'_, R> {
    fn show(&mut self, flaws: u64) {
        if self.is_terminal {
            let _ = eprint!(self.rt; "\rregrun-grade: {flaws} flaws");
        }
    }
}

impl<R: Eprint> Shown<'_, R> {
    // Takes the line away.
    fn clear(&self) {
        if self.is_terminal {
            let _ = eprint!(self.rt; "\r\x1b[K");
        }
    }
}

// Grades the session on standard input, with a plain and an APB adapter for the root maps, and with these waivers.
fn grade(rt: &HostRuntime, asked: Asked, waivers: &[u8]) -> Result<Status, AllocError>
    requires { 0 < asked.share.every }
{
    let alloc = rt.alloc();
    let (plain, apb) = fresh_adapters();
    let mut adapters: Adapters = Vec::new(alloc);
    adapters.push(Box::new(alloc, plain)?)?;
    adapters.push(Box::new(alloc, apb)?)?;
    let mut source = KeptSource::new(alloc, StdSource::new(rt.reader()));
    let mut log = KeptSink::new(alloc, StdSink::new(io::writer(rt)));
    let mut meter = Shown {
        rt,
        is_terminal: rt.stderr().is_terminal() && !rt.stdout().is_terminal(),
    };
    let status = run_grade(
        alloc,
        asked,
        waivers,
        &mut source,
        &mut log,
        &mut adapters,
        &mut meter,
    );
    meter.clear();
    advise(
        alloc,
        PROGRAM,
        &source,
        &log,
        &mut StdSink::new(rt.stderr()),
    );
    tell_fault(rt, PROGRAM, status);
    Ok(status)
}

// The bytes of a file. Where they can't be read, one line on standard error says so.
fn read_file(rt: &HostRuntime, path: &str) -> Result<Vec<u8>, Status> {
    let Some(file) = open_file(rt, PROGRAM, path) else {
        return Err(Status::SourceFault);
    };
    let bytes = read_all(rt.alloc(), &mut StdSource::new(file));
    match bytes {
        Err(Status::SourceFault) => {
            let _ = eprintln!(rt; "{PROGRAM}: {path}: the waivers couldn't be read");
        }
        Err(status) => tell_fault(rt, PROGRAM, status),
        Ok(_) => {}
    }
    bytes
}

// Grades the session on standard input, with the waivers of a file.
fn grade_waived(rt: &HostRuntime, asked: Asked, path: &str) -> Result<Status, AllocError>
    requires { 0 < asked.share.every }
{
    match read_file(rt, path) {
        Ok(waivers) => grade(rt, asked, &waivers),
        Err(status) => Ok(status),
    }
}

// Adds the shares on standard input.
fn add(rt: &HostRuntime, bound: Option<u64>) -> Status {
    let mut source = StdSource::new(rt.reader());
    let mut log = StdSink::new(io::writer(rt));
    let status = run_add(rt.alloc(), bound, &mut source, &mut log);
    tell_fault(rt, PROGRAM, status);
    status
}

// Says what can be asked for. Answers the exit status.
fn tell_words(rt: &HostRuntime) -> u8 {
    let _ = eprintln!(rt;
        "regrun-grade: `run`, `missed`, `hidden`, `found`, `waived`, `lines` or `json` is asked for, then `K/N` with K \
         from 1 to N, `at-least P` with P up to 100 and `waive FILE` if so wanted, and a session on standard input; or \
         `add`, then `at-least P` if so wanted, and the shares of a grading on standard input"
    );
    Status::Words.code()
}

// The last word, empty where there is none.
fn last_word(words: &[String]) -> &str {
    match words {
        [.., word] => word.as_str(),
        [] => "",
    }
}

// Does what the arguments ask for.
fn run(rt: &HostRuntime) -> io::Result<u8> {
    let words = words(rt)?;
    let Some(call) = call_by(&words) else {
        return Ok(tell_words(rt));
    };
    let status = match call {
        Call::Grade(asked) => grade(rt, asked, &[])?,
        Call::Waive(asked) => grade_waived(rt, asked, last_word(&words))?,
        Call::Add(bound) => add(rt, bound),
    };
    Ok(exit_code(status))
}

fn main(rt: HostRuntime) -> ExitCode {
    code_of(&rt, PROGRAM, run(&rt))
}
