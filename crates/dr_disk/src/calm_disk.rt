//! A disk in memory that never fails.

ghost use Rattle.std.specs.Prelude.{◌≡◌, []};
ghost use Rattle.dr_disk.specs.Calls.{at_rest};

use crate::bytes::{copy_front, put};
use crate::disk::Disk;
use dr_io::Failed;
use std::alloc::{AllocError, Global};
use std::marker::Model;

/// A disk in memory, none of whose calls fails. It keeps what a read gives, and of the time since the
/// last sync the first place that was written, the one behind the last, and the least and the greatest
/// length.
#[derive(Debug, Drop)]
pub struct CalmDisk {
    bytes: Vec<u8>,
    first: u64,
    behind: u64,
    least: u64,
    greatest: u64,
}

impl Model for CalmDisk {
    ghost use Rattle.std.specs.Prelude.{◌-◌, ◌≤◌, vec_len, vec_capacity};
    ghost use Rattle.dr_disk.specs.Memory.{CalmState};

    ghost Value = { CalmState };

    ghost view = { λ a. record {
      state = record {
        content = a.bytes.items;
        first = a.first;
        behind = a.behind;
        least = a.least;
        greatest = a.greatest;
      };
      room_bytes = vec_capacity a.bytes - vec_len a.bytes;
    } };

    ghost invariant = { λ a. (a.least ≤ vec_len a.bytes) × (vec_len a.bytes ≤ a.greatest) };
}

impl CalmDisk {
    /// An empty disk.
    pub fn new(alloc: Global) -> CalmDisk
        ensures { result.state ≡ at_rest [] }
    {
        CalmDisk {
            bytes: Vec::new(alloc),
            first: 0,
            behind: 0,
            least: 0,
            greatest: 0,
        }
    }

    /// What a read gives, from the first byte on.
    pub fn bytes(&self) -> &[u8]
        ensures { result.now ≡ self.now.state.content }
    {
        self.bytes.as_slice()
    }
}

impl Disk for CalmDisk {
    ghost use Rattle.std.specs.Prelude.{◌^◌, Some, false};
    ghost use Rattle.dr_disk.specs.Disk.{Now};

    ghost told = { λ disk. Some (Now disk.state) };

    // No call takes room but for the bytes that it writes.
    ghost room_calls = { λ _. 2 ^ 64 };

    ghost room_bytes = { λ disk. disk.room_bytes };

    ghost faults = { λ disk. 0 };

    ghost groups = { λ _. false };

    fn wants_groups(&self) -> bool {
        false
    }

    fn reserve(&mut self, _calls: u64, bytes: u64) -> Result<(), AllocError> {
        self.bytes.reserve(bytes as usize)
    }

    fn len(&mut self) -> Result<u64, Failed> {
        Ok(self.bytes.len() as u64)
    }

    fn read_at(&mut self, at: u64, into: &mut [u8]) -> Result<usize, Failed> {
        let at = (at as usize).min(self.bytes.len());
        Ok(copy_front(&self.bytes[at..], into))
    }

    fn write_at(&mut self, at: u64, from: &[u8]) -> Result<(), Failed> {
        put(&mut self.bytes, at as usize, from);
        let end = at + from.len() as u64;
        self.first = self.first.min(at);
        self.behind = self.behind.max(end);
        self.greatest = self.greatest.max(end);
        Ok(())
    }

    fn cut(&mut self, to: u64) -> Result<(), Failed> {
        self.bytes.truncate(to as usize);
        self.least = self.least.min(to);
        Ok(())
    }

    fn sync(&mut self) -> Result<(), Failed> {
        let len = self.bytes.len() as u64;
        self.first = len;
        self.behind = 0;
        self.least = len;
        self.greatest = len;
        Ok(())
    }
}
