ghost use Rattle.std.specs.Prelude.{◌≤◌, ◌+◌, length, vec_len, vec_capacity};

use dr_disk::Disk;
use dr_io::Failed;
use std::alloc::{AllocError, Global};

/// A disk in memory that keeps its bytes alone, and tells no calls.
#[derive(Drop)]
pub struct Bytes {
    bytes: Vec<u8>,
}

impl Bytes {
    /// An empty disk.
    pub fn new(alloc: Global) -> Bytes {
        Bytes {
            bytes: Vec::new(alloc),
        }
    }
}

/// Puts these bytes over those at `at`, and past the end, for which there is room.
fn put(bytes: &mut Vec<u8>, at: u64, from: &[u8])
    requires room { vec_len bytes.old + length from.now ≤ vec_capacity bytes.old }
    ensures capacity { vec_capacity bytes.old ≤ vec_capacity bytes.new }
    ensures longer { vec_len bytes.new ≤ vec_len bytes.old + length from.now }
{
    let at = (at as usize).min(bytes.len());
    if from.len() < bytes.len() - at {
        bytes[at..at + from.len()].copy_from_slice(from);
    } else {
        bytes.truncate(at);
        bytes.extend_from_slice(from).unwrap();
    }
}

impl Disk for Bytes {
    ghost use Rattle.std.specs.Prelude.{◌-◌, ◌^◌, None, vec_len, vec_capacity, false};

    ghost told = { λ _. None };

    // No call takes room but for the bytes that it writes.
    ghost room_calls = { λ _. 2 ^ 64 };

    ghost room_bytes = { λ disk. vec_capacity disk.bytes - vec_len disk.bytes };

    ghost faults = { λ _. 0 };

    ghost groups = { λ _. false };

    fn wants_groups(&self) -> bool {
        false
    }

    fn reserve(&mut self, _calls: u64, bytes: u64) -> Result<(), AllocError> {
        self.bytes.reserve(bytes as usize)
    }

    fn len(&mut self) -> Result<u64, Failed> {
        Ok(self.bytes.len() as u64)
    }

    fn read_at(&mut self, at: u64, into: &mut [u8]) -> Result<usize, Failed> {
        let from = &self.bytes[(at as usize).min(self.bytes.len())..];
        let count = from.len().min(into.len());
        into[..count].copy_from_slice(&from[..count]);
        Ok(count)
    }

    fn write_at(&mut self, at: u64, from: &[u8]) -> Result<(), Failed> {
        put(&mut self.bytes, at, from);
        Ok(())
    }

    fn cut(&mut self, to: u64) -> Result<(), Failed> {
        self.bytes.truncate(to as usize);
        Ok(())
    }

    fn sync(&mut self) -> Result<(), Failed> {
        Ok(())
    }
}
