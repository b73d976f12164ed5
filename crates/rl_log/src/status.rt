// How a call ended.

/// How a call ended: this project's own codes, by which the program ends.
#[derive(Clone, Copy, Debug, PartialEq, Eq)]
pub enum Status {
    /// The input was read as far as the words ask (`map`: to the separator), and nothing differed or failed.
    Passed,
    /// The input was read to its end, and something differed or failed on the bus.
    Found,
    /// The session, its description or a line was refused.
    Refused,
    /// The source failed.
    SourceFault,
    /// The sink failed.
    SinkFault,
    /// Memory ran out.
    Memory,
    /// The words ask for nothing that is known.
    Words,
}

impl Status {
    ghost use Rattle.rl_log.specs.Statuses.{code_of, is_complete};
    ghost use Rattle.std.specs.Prelude.{◌≡◌};

    /// The exit status of the program.
    ///
    /// # Examples
    ///
    /// ```text
    /// Status::Passed.code() == 0
    /// Status::Refused.code() == 2
    /// ```
    pub fn code(&self) -> u8
        ensures { result ≡ code_of self.now }
    {
        match self {
            Status::Passed => 0,
            Status::Found => 1,
            Status::Refused => 2,
            Status::SourceFault => 3,
            Status::SinkFault => 4,
            Status::Memory => 5,
            Status::Words => 6,
        }
    }

    /// The last line was written.
    pub fn is_complete(&self) -> bool
        ensures { result ≡ is_complete self.now }
    {
        matches!(self, Status::Passed | Status::Found | Status::Refused)
    }
}
