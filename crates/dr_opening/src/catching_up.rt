//! Brings a log up to a start.
ghost use Rattle.std.specs.Prelude.{◌≡◌, ◌≢◌, ◌<◌, ℕ, false, true, All, IfErr, IsErrOf, OnErr, OnOk};
ghost use Rattle.dr_entry.specs.Spelling.{IsValidEntry};
ghost use Rattle.dr_history.specs.History.{IsPrefixOf};
ghost use Rattle.dr_io.specs.Faults.{Rose};
ghost use Rattle.dr_log.specs.{Standing.entries_length, declared.fault.LogFault.TheVariants.{DiskFault, LogFull}};
ghost use Rattle.dr_opening.specs.declared.catching_up.CatchFault.TheVariants as faults;
ghost use Rattle.dr_opening.specs.CatchingUp.{FitsOrIsFull, HasCaughtUp, HasStayed, IsLeftAlone, lacked, opened_with};

use dr_disk::Disk;
use dr_entry::Entry;
use dr_log::{Log, LogFault};
use dr_restart::Start;
use dr_words::Mask;
use std::alloc::AllocError;

/// Why a log was not brought up to a start.
#[derive(Clone, Copy, Debug, PartialEq, Eq)]
pub enum CatchFault {
    OutOfMemory,
    /// A call of the disk failed.
    DiskFault,
    /// The log, `len` bytes long, would have become longer than its limit.
    LogFull { len: u64 },
}

impl From<AllocError> for CatchFault {
    ghost use Rattle.std.specs.Prelude.{◌≡◌};
    ghost use Rattle.dr_opening.specs.declared.catching_up.CatchFault.TheVariants.{OutOfMemory};

    ghost from_gives = { λ _ fault. fault ≡ OutOfMemory };

    fn from(_: AllocError) -> Self {
        CatchFault::OutOfMemory
    }
}

/// The fault that a log's refusal is.
fn fault_of(fault: LogFault) -> CatchFault
    ensures disk { fault ≡ DiskFault → result ≡ faults.DiskFault }
    ensures full { (len : ℕ) → fault ≡ LogFull len → result ≡ faults.LogFull len }
{
    match fault {
        LogFault::DiskFault => CatchFault::DiskFault,
        LogFault::LogFull { len } => CatchFault::LogFull { len },
    }
}

/// Appends what a log lacks of a start's entries, and then View 0 of the age, with these members, all of them
/// behind one gate. It takes its memory first.
///
/// # Errors
///
/// Want of memory, a fault of the disk, or a log that would become longer than its limit. The log has what it
/// had; its disk may have all of the new entries where it failed, and never some of them alone.
pub fn catch_up<D: Disk>(start: &Start, members: Mask, log: &mut Log<D>) -> Result<(), CatchFault>
    requires valid { All IsValidEntry start.now.entries }
    requires some { 0 < members }
    requires part { IsPrefixOf log.old.content.entries start.now.entries }
    requires whole { log.old.failed ≡ false }
    ensures caught { OnOk result
        (HasCaughtUp D.told D.faults (opened_with start.now members) log.old log.new) }
    ensures stayed { OnErr result
        (HasStayed D.told D.faults (opened_with start.now members) log.old log.new) }
    // Unless the disk failed, nothing was asked of it.
    ensures left_alone { IfErr result
        (λ why. why ≢ faults.DiskFault → IsLeftAlone D.told D.faults log.old log.new) }
    ensures failed { IsErrOf result faults.DiskFault → log.new.failed ≡ true }
    ensures cause { IsErrOf result faults.DiskFault → Rose (D.faults log.old.disk) (D.faults log.new.disk) }
    ensures limit { FitsOrIsFull log.old.limit log.old.content.length
        (entries_length (lacked log.old (opened_with start.now members))) result }
{
    let entries = start.entries.as_slice();
    let have = log.entries().len();
    log.reserve(entries.len() - have + 1, 0)?;
    let view = Entry::View {
        age: start.age,
        number: 0,
        members: members.bits(),
    };
    match log.append_entries(&entries[have..], &view) {
        Ok(()) => Ok(()),
        Err(why) => Err(fault_of(why)),
    }
}
