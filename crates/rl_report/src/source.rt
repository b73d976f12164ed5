// Where bytes come from.
ghost use Rattle.std.specs.Prelude.{ℕ, ◌<◌, List, length};
ghost use Rattle.std.specs.declared.option.Option.{Option};
ghost use Rattle.std.specs.Io.{ReadsAtMost};
ghost use Rattle.std.specs.Io.KnownBytes.{ReadConsumes};
ghost use Rattle.rl_bus.specs.Causes.{HasCause};

use crate::Failed;

/// Where a session comes from.
pub trait Source {
    /// The bytes that are left, where the source reports them.
    ghost left: { Self → Option (List ℕ) };

    /// How often the source has failed. It stays at the end of `u64`.
    ghost faults: { Self → ℕ };

    /// Takes bytes into the front of the buffer, and answers how many: none exactly at the end.
    /// A call that fails takes none.
    fn read(&mut self, buf: &mut [u8]) -> Result<usize, Failed>
        requires { 0 < length buf.old }
        ensures bound { ReadsAtMost result buf.new }
        ensures bytes { ReadConsumes (left self.old) (left self.new) result buf.new }
        ensures cause { HasCause (faults self.old) (faults self.new) result };
}
