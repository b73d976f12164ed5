//! Accesses by index to a table behind an index register and a data register, and what they came to.
//!
//! It shows how a caller of the libraries uses `rl_indirect`: a chip, its layout, a device model and a register model,
//! a bank over them, and writes and checks of its entries. `bench/table.sh` measures it.
#![tactic(auto)]

mod accesses;
mod chip;
mod fault;
mod parts;
mod summary;
mod table;

use crate::fault::Fault;
use crate::table::measure;
use std::env;
use std::process::ExitCode;
use std::rt::Env;

// The number that a word says, or another one where there is no word.
fn number(word: Option<String>, default: u32) -> Result<u32, Fault> {
    match word {
        Some(word) => Ok(word.as_str().parse::<u32>()?),
        None => Ok(default),
    }
}

// Makes the accesses that the arguments ask for: how many, and to how many entries.
fn run(rt: &(impl AllocGlobal + Env + Print)) -> Result<(), Fault> {
    let mut words = env::args(rt)?.skip(1);
    let accesses = number(words.next(), 100_000)?;
    let entries = number(words.next(), 65_536)?;
    let summary = measure(rt.alloc(), accesses, entries)?;
    println!(rt; "entries: {entries}\naccesses: {accesses}\n{summary}")?;
    Ok(())
}

fn main(rt: HostRuntime) -> ExitCode {
    match run(&rt) {
        Ok(()) => ExitCode::SUCCESS,
        Err(fault) => {
            let _ = eprintln!(rt; "example_indirect: {fault}");
            ExitCode::FAILURE
        }
    }
}
