//! The place of a disk in memory.

ghost use Rattle.std.specs.Prelude.{◌≡◌, ◌≤◌, false};
ghost use Rattle.dr_io.specs.Faults.{Rose};
ghost use Rattle.dr_yard.specs.{Memory.{faulted, faults_in, is_lent}, declared.berth.Berth.TheVariants.{Here, Lent}};

use dr_disk::MemoryDisk;
use std::mem;

/// Where the disk of a member is: here, or lent since it had counted so many faults.
#[derive(Debug, Drop)]
pub(crate) enum Berth {
    Here(MemoryDisk),
    Lent { faults: u64 },
}

impl Berth {
    /// Takes the disk away.
    pub(crate) fn take(&mut self) -> MemoryDisk
        requires { is_lent self.old ≡ false }
        ensures disk { self.old ≡ Here result }
        ensures place { self.new ≡ Lent result.plan.faults }
        ensures count { faults_in self.new ≡ faults_in self.old }
    {
        let faults = self.faults();
        match mem::replace(self, Berth::Lent { faults }) {
            Berth::Here(disk) => disk,
            // It is not lent.
            Berth::Lent { .. } => unreachable!(),
        }
    }

    /// How many faults the disk has counted.
    fn faults(&self) -> u64
        ensures { result ≡ faults_in self.now }
    {
        match self {
            Berth::Here(disk) => disk.faults(),
            Berth::Lent { faults } => *faults,
        }
    }

    /// Counts a fault of the disk that is here.
    pub(crate) fn count_fault(&mut self)
        requires { is_lent self.old ≡ false }
        ensures place { self.new ≡ faulted self.old }
        ensures later { faults_in self.old ≤ faults_in self.new }
        ensures rose { Rose (faults_in self.old) (faults_in self.new) }
    {
        match self {
            Berth::Here(disk) => disk.count_fault(),
            // It is not lent.
            Berth::Lent { .. } => unreachable!(),
        }
    }
}
