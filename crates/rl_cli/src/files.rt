// Files that a program is told of.
ghost use Rattle.std.specs.Prelude.{◌≡◌, IfErr, IfOk, None, Some};

use std::fs::Files;
use std::{fs, io};

// A file, where it could be had. Else one line on standard error says why not.
fn had<F>(rt: &impl Eprint, program: &str, path: &str, file: io::Result<F>) -> Option<F>
    ensures had { IfOk file (λ it. result ≡ Some it) }
    ensures none { IfErr file (λ error. result ≡ None) }
{
    match file {
        Ok(file) => Some(file),
        Err(error) => {
            let _ = eprintln!(rt; "{program}: {path}: {error}");
            None
        }
    }
}

/// A file to read. Where it can't be opened, one line on standard error says so, after the program's name.
pub fn open_file<R: Files + Eprint>(rt: &R, program: &str, path: &str) -> Option<R::File> {
    had(rt, program, path, fs::open(rt, path))
}

/// A file to write; one that is there is emptied. Where it can't be made, one line on standard error says so, after the
/// program's name.
pub fn create_file<R: Files + Eprint>(rt: &R, program: &str, path: &str) -> Option<R::File> {
    had(rt, program, path, fs::create(rt, path))
}
