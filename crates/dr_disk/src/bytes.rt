//! What the disks in memory do with their bytes.

ghost use Rattle.std.specs.Prelude.{◌≡◌, ◌+◌, ◌≤◌, length, take, vec_len, vec_capacity};
ghost use Rattle.dr_disk.specs.Calls.{written};

/// Copies the front of `from` to that of `into`, as much as fits, and answers how much.
pub(crate) fn copy_front(from: &[u8], into: &mut [u8]) -> usize
    ensures bound { result ≤ length into.new }
    ensures value { take result into.new ≡ take (length into.new) from.now }
{
    let count = from.len().min(into.len());
    into[..count].copy_from_slice(&from[..count]);
    count
}

/// Puts these bytes over those at `at`, and past the end, for which there is room.
pub(crate) fn put(bytes: &mut Vec<u8>, at: usize, from: &[u8])
    requires inside { at ≤ vec_len bytes.old }
    requires room { vec_len bytes.old + length from.now ≤ vec_capacity bytes.old }
    ensures written { bytes.new.items ≡ written bytes.old.items at from.now }
    ensures capacity { vec_capacity bytes.old ≤ vec_capacity bytes.new }
    ensures longer { vec_len bytes.new ≤ vec_len bytes.old + length from.now }
{
    if from.len() < bytes.len() - at {
        bytes[at..at + from.len()].copy_from_slice(from);
    } else {
        bytes.truncate(at);
        bytes.extend_from_slice(from).unwrap();
    }
}
