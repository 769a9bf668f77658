//! A disk of the program's own.
use dr_disk::{CalmDisk, Disk};
use dr_io::Failed;
use std::alloc::{AllocError, Global};

/// A disk in memory that counts its syncs, and the calls that read its bytes.
#[derive(Drop)]
pub struct CountedDisk {
    disk: CalmDisk,
    syncs: u64,
    reads: u64,
}

impl CountedDisk {
    /// An empty disk.
    pub fn new(alloc: Global) -> CountedDisk {
        CountedDisk {
            disk: CalmDisk::new(alloc),
            syncs: 0,
            reads: 0,
        }
    }

    /// How many syncs it has counted.
    pub fn syncs(&self) -> u64 {
        self.syncs
    }

    /// How many calls of `read_at` it has counted.
    pub fn reads(&self) -> u64 {
        self.reads
    }
}

impl Disk for CountedDisk {
    ghost use Rattle.std.specs.Prelude.{◌^◌, Some, false};
    ghost use Rattle.dr_disk.specs.Disk.{Now};

    ghost told = { λ disk. Some (Now disk.disk.state) };

    ghost room_calls = { λ _. 2 ^ 64 };

    ghost room_bytes = { λ disk. disk.disk.room_bytes };

    ghost faults = { λ _. 0 };

    ghost groups = { λ _. false };

    fn wants_groups(&self) -> bool {
        false
    }

    fn reserve(&mut self, calls: u64, bytes: u64) -> Result<(), AllocError> {
        self.disk.reserve(calls, bytes)
    }

    fn len(&mut self) -> Result<u64, Failed> {
        self.disk.len()
    }

    fn read_at(&mut self, at: u64, into: &mut [u8]) -> Result<usize, Failed> {
        self.reads = self.reads.saturating_add(1);
        self.disk.read_at(at, into)
    }

    fn write_at(&mut self, at: u64, from: &[u8]) -> Result<(), Failed> {
        self.disk.write_at(at, from)
    }

    fn cut(&mut self, to: u64) -> Result<(), Failed> {
        self.disk.cut(to)
    }

    fn sync(&mut self) -> Result<(), Failed> {
        self.syncs = self.syncs.saturating_add(1);
        self.disk.sync()
    }
}
