ghost use Rattle.std.specs.Prelude.{ℕ, ◌<◌, ◌≤◌, List, Option, IfOk, length};
ghost use Rattle.dr_io.specs.{Faults.HasCause, Sink.Writes};

use crate::failed::Failed;

/// Where the program's output goes.
pub trait Sink {
    // The bytes that were written, where the sink tells them.
    ghost held: { Self → Option (List ℕ) };

    // How many calls of the sink failed.
    ghost faults: { Self → ℕ };

    /// Appends the first bytes of `from`, at least one, and answers how many they are.
    fn write(&mut self, from: &[u8]) -> Result<usize, Failed>
        requires { 0 < length from.now }
        ensures some { IfOk result (λ n. 0 < n) }
        ensures bound { IfOk result (λ n. n ≤ length from.now) }
        ensures bytes { Writes (held self.old) (held self.new) result from.now }
        ensures cause { HasCause (faults self.old) (faults self.new) result };
}
