// Where bytes go.
ghost use Rattle.std.specs.Prelude.{◌≡◌, ℕ, ◌<◌, ◌≤◌, List, length, IfOk, OnOk, OnErr};
ghost use Rattle.std.specs.declared.option.Option.{Option};
ghost use Rattle.std.specs.Io.KnownBytes.{Keeps, WriteAppends};
ghost use Rattle.rl_bus.specs.Causes.{HasCause};
ghost use Rattle.rl_report.specs.Ends.{EndedOnce};

use crate::Failed;

/// Where a log goes.
pub trait Sink {
    /// The bytes that were written, where the sink reports them.
    ghost written: { Self → Option (List ℕ) };

    /// How often the sink has failed. It stays at the end of `u64`.
    ghost faults: { Self → ℕ };

    /// How often the sink was finished with success. It stays at the end of `u64`.
    ghost ends: { Self → ℕ };

    /// Which sink the bytes reach in the end, where this one lends another. No call changes it.
    ghost target: { Self → ℕ } = { λ _. 0 };

    /// Takes one or more bytes from the front of the piece, and answers how many. A call that fails takes none.
    fn write(&mut self, piece: &[u8]) -> Result<usize, Failed>
        requires { 0 < length piece.now }
        ensures some { IfOk result (λ n. 0 < n) }
        ensures bound { IfOk result (λ n. n ≤ length piece.now) }
        ensures bytes { WriteAppends (written self.old) (written self.new) result piece.now }
        ensures cause { HasCause (faults self.old) (faults self.new) result }
        ensures ends_kept { ends self.new ≡ ends self.old }
        ensures same_target { target self.new ≡ target self.old };

    /// Ends the output, and counts that once. What was written stays, whatever the answer.
    fn finish(&mut self) -> Result<(), Failed>
        ensures kept { Keeps (written self.old) (written self.new) }
        ensures cause { HasCause (faults self.old) (faults self.new) result }
        ensures ended { OnOk result (EndedOnce (ends self.old) (ends self.new)) }
        ensures ends_kept { OnErr result (ends self.new ≡ ends self.old) }
        ensures same_target { target self.new ≡ target self.old };
}
