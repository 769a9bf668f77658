//! What a disk is.

ghost use Rattle.std.specs.Prelude.{◌≡◌, ◌+◌, ◌≤◌, ℕ, Bool, Option, IfOk, IfSome, OnOk, OnErr, length, take, drop};
ghost use Rattle.dr_io.specs.Faults.{HasCause};
ghost use Rattle.dr_disk.specs.{Calls.{Write, FailedWrite, Cut, FailedCut, Sync}, Disk.{Told, added, content_of}};
ghost use Rattle.dr_disk.specs.Images.{ReadsAnImage};

use dr_io::Failed;
use std::alloc::AllocError;

/// A file of bytes. What was written counts as safe once a sync has succeeded.
pub trait Disk: Send + Drop {
    // What the disk tells of itself, where it does: the calls that have changed it since it was empty, or
    // what has become of it.
    ghost told: { Self → Option Told };

    // For how many more calls of `write_at`, `cut` and `sync` there is room, and for how many
    // bytes that they write.
    ghost room_calls: { Self → ℕ };

    ghost room_bytes: { Self → ℕ };

    // How many calls of the disk failed.
    ghost faults: { Self → ℕ };

    // Whether what is written to it at once should be much.
    ghost groups: { Self → Bool };

    /// Whether a sync of it takes so long that it should be asked for few of them, each for many writes. It may answer
    /// `false` always.
    fn wants_groups(&self) -> bool
        ensures { result ≡ groups self.now };

    /// Makes room for so many further calls of `write_at`, `cut` and `sync`, and for so many bytes
    /// that they write together. A disk that keeps its bytes elsewhere has room for all.
    ///
    /// # Errors
    ///
    /// Want of memory alone.
    fn reserve(&mut self, calls: u64, bytes: u64) -> Result<(), AllocError>
        ensures told { told self.new ≡ told self.old }
        ensures calls { OnOk result (calls ≤ room_calls self.new) }
        ensures bytes { OnOk result (bytes ≤ room_bytes self.new) }
        ensures calls_kept { room_calls self.old ≤ room_calls self.new }
        ensures bytes_kept { room_bytes self.old ≤ room_bytes self.new }
        ensures faults { faults self.new ≡ faults self.old };

    /// The number of bytes.
    fn len(&mut self) -> Result<u64, Failed>
        ensures value { IfOk result (λ n. IfSome (told self.old)
            (λ told. n ≡ length (content_of told))) }
        ensures told { told self.new ≡ told self.old }
        ensures calls_kept { room_calls self.old ≤ room_calls self.new }
        ensures bytes_kept { room_bytes self.old ≤ room_bytes self.new }
        ensures cause { HasCause (faults self.old) (faults self.new) result };

    /// Reads the bytes from `at` on to the front of `into`, as many as there are and as it takes,
    /// and answers how many they are.
    fn read_at(&mut self, at: u64, into: &mut [u8]) -> Result<usize, Failed>
        ensures bound { IfOk result (λ n. n ≤ length into.new) }
        ensures value { IfOk result (λ n. IfSome (told self.old)
            (λ told. take n into.new ≡ take (length into.new) (drop at (content_of told)))) }
        ensures told { told self.new ≡ told self.old }
        ensures calls_kept { room_calls self.old ≤ room_calls self.new }
        ensures bytes_kept { room_bytes self.old ≤ room_bytes self.new }
        ensures cause { HasCause (faults self.old) (faults self.new) result };

    /// Writes the bytes over those at `at`, and past the end.
    fn write_at(&mut self, at: u64, from: &[u8]) -> Result<(), Failed>
        requires inside { IfSome (told self.old) (λ told. at ≤ length (content_of told)) }
        requires room_for_call { 1 ≤ room_calls self.old }
        requires room_for_bytes { length from.now ≤ room_bytes self.old }
        ensures ok { OnOk result (told self.new ≡ added (Write at from.now) (told self.old)) }
        ensures err { OnErr result
            (told self.new ≡ added (FailedWrite at (length from.now)) (told self.old)) }
        ensures calls_kept { room_calls self.old ≤ room_calls self.new + 1 }
        ensures bytes_kept { room_bytes self.old ≤ room_bytes self.new + length from.now }
        ensures cause { HasCause (faults self.old) (faults self.new) result };

    /// Drops what lies behind the first `to` bytes.
    fn cut(&mut self, to: u64) -> Result<(), Failed>
        requires room_for_call { 1 ≤ room_calls self.old }
        ensures ok { OnOk result (told self.new ≡ added (Cut to) (told self.old)) }
        ensures err { OnErr result (told self.new ≡ added (FailedCut to) (told self.old)) }
        ensures calls_kept { room_calls self.old ≤ room_calls self.new + 1 }
        ensures bytes_kept { room_bytes self.old ≤ room_bytes self.new }
        ensures cause { HasCause (faults self.old) (faults self.new) result };

    /// Makes what a read gives the one thing that a crash leaves.
    fn sync(&mut self) -> Result<(), Failed>
        requires room_for_call { 1 ≤ room_calls self.old }
        ensures ok { OnOk result (told self.new ≡ added Sync (told self.old)) }
        ensures err { OnErr result (told self.new ≡ told self.old) }
        ensures read { IfSome (told self.old) ReadsAnImage }
        ensures calls_kept { room_calls self.old ≤ room_calls self.new + 1 }
        ensures bytes_kept { room_bytes self.old ≤ room_bytes self.new }
        ensures cause { HasCause (faults self.old) (faults self.new) result };
}
