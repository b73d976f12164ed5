// The words that a program is called with, and the code that it ends with.
ghost use Rattle.rl_log.specs.Statuses;
ghost use Rattle.rl_log.specs.declared.status.Status.TheVariants.{Memory, Words};
ghost use Rattle.std.specs.Prelude.{◌≡◌, ◌≢◌, IfErr, IfOk};
ghost use Rattle.std.specs.Process.{exit_status};
ghost use Rattle.std.specs.declared.io.ErrorKind.TheVariants.{OutOfMemory};
ghost use Rattle.std.specs.IoError.{error_kind};

use crate::fault::tell_fault;
use rl_log::Status;
use std::process::ExitCode;
use std::rt::Env;
use std::{env, io};

/// The words after the program's name.
///
/// # Errors
///
/// A word that isn't UTF-8, and running out of memory.
pub fn words(rt: &(impl Env + AllocGlobal)) -> io::Result<Vec<String>> {
    let mut words = Vec::new(rt.alloc());
    for word in env::args(rt)?.skip(1) {
        words.push(word)?;
    }
    Ok(words)
}

// The status of a program whose words couldn't be taken.
fn status_of(error: &io::Error) -> Status
    ensures memory { error_kind error.now ≡ OutOfMemory → result ≡ Memory }
    ensures words { error_kind error.now ≢ OutOfMemory → result ≡ Words }
{
    match error.kind() {
        io::ErrorKind::OutOfMemory => Status::Memory,
        _ => Status::Words,
    }
}

/// The exit code of a program: its own, or that of [`Status::Memory`] or [`Status::Words`] where its words couldn't be
/// taken. Then one line on standard error says why.
pub fn code_of(rt: &impl Eprint, program: &str, code: io::Result<u8>) -> ExitCode
    ensures own { IfOk code (λ own. exit_status result ≡ own) }
    ensures memory { IfErr code (λ error. error_kind error ≡ OutOfMemory → exit_status result ≡ Statuses.code_of Memory) }
    ensures words { IfErr code (λ error. error_kind error ≢ OutOfMemory → exit_status result ≡ Statuses.code_of Words) }
{
    match code {
        Ok(code) => ExitCode::from(code),
        Err(error) => {
            let status = status_of(&error);
            if status == Status::Words {
                let _ = eprintln!(rt; "{program}: a word isn't UTF-8");
            }
            tell_fault(rt, program, status);
            ExitCode::from(status.code())
        }
    }
}
