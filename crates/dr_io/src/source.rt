ghost use Rattle.std.specs.{Io.ReadsAtMost, Prelude.{ℕ, ◌<◌, List, Option, length}};
ghost use Rattle.dr_io.specs.{Faults.HasCause, Source.Reads};

use crate::failed::Failed;

/// Where the program's input comes from.
pub trait Source {
    // The bytes that are left to read, where the source tells them.
    ghost left: { Self → Option (List ℕ) };

    // How many calls of the source failed.
    ghost faults: { Self → ℕ };

    /// Reads the next bytes to the front of `into`, and answers how many they are: 0 where the
    /// input has ended.
    fn read(&mut self, into: &mut [u8]) -> Result<usize, Failed>
        requires { 0 < length into.old }
        ensures bound { ReadsAtMost result into.new }
        ensures bytes { Reads (left self.old) (left self.new) result into.new }
        ensures cause { HasCause (faults self.old) (faults self.new) result };
}
