// The exit status of a grading.
ghost use Rattle.std.specs.Prelude.{◌≡◌};
ghost use Rattle.rl_grade_report.specs.Ending.{exit_code};

use rl_log::Status;

/// The exit status of a program that grades: 8 where fewer flaws were found than asked for, and else the status's own.
pub fn exit_code(status: Status) -> u8
    ensures { result ≡ exit_code status }
{
    match status {
        Status::Found => 8,
        other => other.code(),
    }
}
