// Runs each row of data/rows.txt through the command, and compares its status and its log with those that stand beside
// it. Then it runs the sessions of data/sessions.txt, whose log is one line each.
//
// A row that fails is told by its name and by what differs first, a session by itself. The last line is
// 'N passed, M failed'.
#![tactic(auto)]

use regrun::regrun;
use rl_apb::fresh_adapters;
use rl_bus::Adapters;
use rl_report::{MemSink, MemSource};
use std::alloc::{AllocError, Global};
use std::process::ExitCode;
use std::{fs, io};

const ROWS: &str = "rows.txt";

const SESSIONS: &str = "sessions.txt";

// The most that a log has.
const ROOM: usize = 65_536;

// A row: its name, its status, and the words of the command.
#[derive(Drop)]
struct Row<'a> {
    name: &'a str,
    status: u64,
    words: Vec<String>,
}

// The row of a line; none where it is a comment or blank.
fn row_of(alloc: Global, line: &str) -> Result<Option<Row<'_>>, AllocError> {
    let mut parts = line.split_whitespace();
    let name = parts.next().unwrap_or("#");
    if name.starts_with('#') {
        return Ok(None);
    }
    let status = parts.next().unwrap_or("").parse::<u64>().unwrap_or(256);
    let mut words = Vec::new(alloc);
    for word in parts {
        words.push(String::from_str(alloc, word)?)?;
    }
    Ok(Some(Row {
        name,
        status,
        words,
    }))
}

// What a file of a row has.
fn file(rt: &HostRuntime, name: &str, kind: &str) -> io::Result<Vec<u8>> {
    let path = format!(in rt.alloc(); "{name}.{kind}")?;
    fs::read(rt, path.as_str())
}

// The status and the log of a session.
fn ran(alloc: Global, words: &[String], session: Vec<u8>) -> Result<(u64, Vec<u8>), AllocError> {
    let (plain, apb) = fresh_adapters();
    let mut adapters: Adapters = Vec::new(alloc);
    adapters.push(Box::new(alloc, plain)?)?;
    adapters.push(Box::new(alloc, apb)?)?;
    let mut source = MemSource::new(session, 512, Vec::new(alloc));
    let mut sink = MemSink::new(alloc, 512, ROOM, Vec::new(alloc))?;
    let status = regrun(alloc, words, &mut source, &mut sink, &mut adapters);
    Ok((u64::from(status.code()), sink.written().to_vec(alloc)?))
}

// The line, from 1, in which two texts that aren't the same differ first.
fn differing_line(got: &[u8], want: &[u8]) -> usize {
    let same = got
        .iter()
        .zip(want.iter())
        .take_while(|(got, want)| got == want)
        .count();
    let ends = want
        .iter()
        .take(same)
        .filter(|byte| **byte == b'\n')
        .count();
    ends.saturating_add(1)
}

// Whether a row passes. Where it doesn't, a line says so.
fn passes(rt: &HostRuntime, row: &Row<'_>) -> io::Result<bool> {
    let session = file(rt, row.name, "session")?;
    let want = file(rt, row.name, "log")?;
    let (status, log) = ran(rt.alloc(), &row.words, session)?;
    if log != want {
        println!(rt;
            "{}: the log differs in line {}",
            row.name,
            differing_line(&log, &want)
        )?;
    }
    if status != row.status {
        println!(rt; "{}: status {status}, expected {}", row.name, row.status)?;
    }
    Ok(log == want && status == row.status)
}

// Runs the rows: how many pass and how many fail.
fn run_rows(rt: &HostRuntime, rows: &str) -> io::Result<(u64, u64)> {
    let (mut passed, mut failed) = (0u64, 0u64);
    for line in rows.lines() {
        let Some(row) = row_of(rt.alloc(), line)? else {
            continue;
        };
        if passes(rt, &row)? {
            passed = passed.saturating_add(1);
        } else {
            failed = failed.saturating_add(1);
        }
    }
    Ok((passed, failed))
}

// The log of a session in which `|` ends a line.
fn log_of(alloc: Global, session: &str) -> Result<Vec<u8>, AllocError> {
    let session = session.replace(alloc, '|', "\n")?;
    let words = vec![in alloc; String::from_str(alloc, "run")?]?;
    let (_, log) = ran(alloc, &words, session.as_bytes().to_vec(alloc)?)?;
    Ok(log)
}

// Whether the log of a session is a line. Where it isn't, a line says so.
fn comes_to(rt: &HostRuntime, session: &str, line: &str) -> io::Result<bool> {
    let log = log_of(rt.alloc(), session)?;
    let is = log.strip_suffix(b"\n") == Some(line.as_bytes());
    if !is {
        println!(rt; "{session}: the log isn't: {line}")?;
    }
    Ok(is)
}

// Runs the sessions: how many pass and how many fail.
fn run_sessions(rt: &HostRuntime, sessions: &str) -> io::Result<(u64, u64)> {
    let (mut passed, mut failed) = (0u64, 0u64);
    for row in sessions.lines() {
        let Some((session, line)) = row.split_once(" => ") else {
            continue;
        };
        if comes_to(rt, session, line)? {
            passed = passed.saturating_add(1);
        } else {
            failed = failed.saturating_add(1);
        }
    }
    Ok((passed, failed))
}

fn run(rt: &HostRuntime) -> io::Result<u8> {
    let rows = fs::read_to_string(rt, ROWS)?;
    let (passed, failed) = run_rows(rt, rows.as_str())?;
    let sessions = fs::read_to_string(rt, SESSIONS)?;
    let (more_passed, more_failed) = run_sessions(rt, sessions.as_str())?;
    let (passed, failed) = (
        passed.saturating_add(more_passed),
        failed.saturating_add(more_failed),
    );
    println!(rt; "{passed} passed, {failed} failed")?;
    Ok(u8::from(failed > 0))
}

fn main(rt: HostRuntime) -> ExitCode {
    match run(&rt) {
        Ok(code) => ExitCode::from(code),
        Err(error) => {
            let _ = eprintln!(rt; "test_rows: {error}");
            ExitCode::from(2)
        }
    }
}
