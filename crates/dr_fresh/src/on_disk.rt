//! A fresh log, on any disk.
ghost use Rattle.std.specs.Prelude.{◌≡◌, ◌≢◌, ◌<◌, ◌≤◌, ◌↔◌, IfOk, IfErr, IfSome, IsErrOf, MatchResult, OnOk, []};
ghost use Rattle.dr_disk.specs.Disk.{content_of};
ghost use Rattle.dr_io.specs.Faults.{Rose};
ghost use Rattle.dr_fresh.specs.declared.on_disk.FreshWhy.TheVariants as whys;
ghost use Rattle.dr_fresh.specs.Fresh.{HasNoRecord, IsEmpty, IsFresh};

use dr_disk::Disk;
use dr_entry::{Entry, Record};
use dr_log::{Log, LogFault, MountWhy};
use dr_restart::Start;
use std::alloc::{AllocError, Global};

/// The bytes of a log with View 0 alone.
const VIEW_0: u64 = 16;

/// Why there is no fresh log.
#[derive(Clone, Copy, Debug, PartialEq, Eq)]
pub enum FreshWhy {
    OutOfMemory,
    /// A call of the disk failed.
    DiskFault,
    /// With View 0 the log would be longer than its limit.
    LogFull,
    /// The disk has records, or bytes that are no log.
    Used,
}

/// What is no fresh log gives the disk back.
#[derive(Debug, Drop)]
pub struct FreshFault<D: Disk> {
    pub disk: D,
    pub why: FreshWhy,
}

impl From<AllocError> for FreshWhy {
    ghost use Rattle.std.specs.Prelude.{◌≡◌};
    ghost use Rattle.dr_fresh.specs.declared.on_disk.FreshWhy.TheVariants.{OutOfMemory};

    ghost from_gives = { λ _ why. why ≡ OutOfMemory };

    fn from(_: AllocError) -> Self {
        FreshWhy::OutOfMemory
    }
}

/// A log with View 0 of a start on it, on a disk without a record. It may grow to `limit` bytes.
///
/// # Errors
///
/// A limit that is too low for View 0; want of memory; a fault of the disk; or a disk that is used.
/// The disk is given back.
pub fn fresh_log<D: Disk>(
    alloc: Global,
    disk: D,
    limit: u64,
    start: &Start,
) -> Result<Log<D>, FreshFault<D>>
    requires { 0 < start.now.members }
    ensures fresh { IfOk result (IsFresh start.now limit) }
    ensures unused { IfOk result (λ _. IfSome (D.told disk) HasNoRecord) }
    ensures used { IfErr result (λ e. e.why ≡ whys.Used → IfSome (D.told disk)
        (λ told. content_of told ≢ [])) }
    ensures fault { IfErr result (λ e. e.why ≡ whys.DiskFault → Rose (D.faults disk) (D.faults e.disk)) }
    // No fault of the disk is hidden.
    ensures calm { IfOk result (λ log. D.faults log.disk ≡ D.faults disk) }
    ensures calm_err { IfErr result (λ e. e.why ≢ whys.DiskFault → D.faults e.disk ≡ D.faults disk) }
    ensures full { MatchResult result (λ _. 16 ≤ limit) (λ e. (e.why ≡ whys.LogFull) ↔ (limit < 16)) }
{
    if limit < VIEW_0 {
        return Err(FreshFault {
            disk,
            why: FreshWhy::LogFull,
        });
    }
    let mut log = empty_log(alloc, disk, limit)?;
    match begin(&mut log, start) {
        Ok(()) => Ok(log),
        Err(why) => Err(FreshFault {
            disk: log.unmount(),
            why,
        }),
    }
}

/// A log without a record, on a disk without one.
fn empty_log<D: Disk>(alloc: Global, disk: D, limit: u64) -> Result<Log<D>, FreshFault<D>>
    requires { 9 ≤ limit }
    ensures empty { IfOk result (IsEmpty limit) }
    ensures unused { IfOk result (λ _. IfSome (D.told disk) HasNoRecord) }
    ensures used { IfErr result (λ e. e.why ≡ whys.Used → IfSome (D.told disk)
        (λ told. content_of told ≢ [])) }
    ensures fault { IfErr result (λ e. e.why ≡ whys.DiskFault → Rose (D.faults disk) (D.faults e.disk)) }
    ensures calm { IfOk result (λ log. D.faults log.disk ≡ D.faults disk) }
    ensures calm_err { IfErr result (λ e. e.why ≢ whys.DiskFault → D.faults e.disk ≡ D.faults disk) }
    ensures room { IfErr result (λ e. e.why ≢ whys.LogFull) }
{
    match Log::mount(alloc, disk, limit) {
        Ok(log) => {
            if log.is_empty() {
                return Ok(log);
            }
            Err(FreshFault {
                disk: log.unmount(),
                why: FreshWhy::Used,
            })
        }
        Err(fault) => Err(FreshFault {
            disk: fault.disk,
            why: match fault.why {
                MountWhy::OutOfMemory => FreshWhy::OutOfMemory,
                MountWhy::DiskFault => FreshWhy::DiskFault,
                MountWhy::Damaged { .. } => FreshWhy::Used,
            },
        }),
    }
}

/// Puts View 0 of a start on a log without a record.
fn begin<D: Disk>(log: &mut Log<D>, start: &Start) -> Result<(), FreshWhy>
    requires empty { IsEmpty log.old.limit log.old }
    requires some { 0 < start.now.members }
    requires limit { 16 ≤ log.old.limit }
    ensures fresh { OnOk result (IsFresh start.now log.old.limit log.new) }
    ensures fault { IsErrOf result whys.DiskFault
        → Rose (D.faults log.old.disk) (D.faults log.new.disk) }
    ensures calm { (IsErrOf result whys.DiskFault → ⊥) → D.faults log.new.disk ≡ D.faults log.old.disk }
    ensures others { MatchResult result (λ _. 16 ≤ log.old.limit)
        (λ why. (why ≢ whys.LogFull) × (why ≢ whys.Used)) }
{
    log.reserve(1, 0)?;
    let view = Record::Entry(Entry::View {
        age: start.age,
        number: 0,
        members: start.members,
    });
    match log.append(&view) {
        Ok(()) => Ok(()),
        Err(LogFault::DiskFault) => Err(FreshWhy::DiskFault),
        // View 0 takes the log to 16 bytes.
        Err(LogFault::LogFull { .. }) => unreachable!(),
    }
}
