//! Why a call of a log is refused.

use dr_disk::Disk;
use dr_io::Failed;
use std::alloc::AllocError;

/// Why bytes on a disk did not become a log.
#[derive(Clone, Copy, Debug, PartialEq, Eq)]
pub enum MountWhy {
    OutOfMemory,
    /// A call of the disk failed.
    DiskFault,
    /// The bytes are no log: they do not begin as one, where `at` is 0, or their records break off
    /// at the gate at the place `at`.
    Damaged { at: u64 },
}

/// A mount that was refused gives the disk back.
#[derive(Debug, Drop)]
pub struct MountFault<D: Disk> {
    pub disk: D,
    pub why: MountWhy,
}

/// Why a record was not appended.
#[derive(Clone, Copy, Debug, PartialEq, Eq)]
pub enum LogFault {
    /// A call of the disk failed.
    DiskFault,
    /// The log, `len` bytes long, would have become longer than its limit.
    LogFull { len: u64 },
}

impl From<AllocError> for MountWhy {
    ghost use Rattle.std.specs.Prelude.{◌≡◌};
    ghost use Rattle.dr_log.specs.declared.fault.MountWhy.TheVariants.{OutOfMemory};

    ghost from_gives = { λ _ why. why ≡ OutOfMemory };

    fn from(_: AllocError) -> Self {
        MountWhy::OutOfMemory
    }
}

impl From<Failed> for MountWhy {
    ghost use Rattle.std.specs.Prelude.{◌≡◌};
    ghost use Rattle.dr_log.specs.declared.fault.MountWhy.TheVariants.{DiskFault};

    ghost from_gives = { λ _ why. why ≡ DiskFault };

    fn from(_: Failed) -> Self {
        MountWhy::DiskFault
    }
}
