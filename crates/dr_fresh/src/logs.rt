ghost use Rattle.std.specs.Prelude.{◌≡◌, ◌<◌, IfOk, []};
ghost use Rattle.dr_machine.specs.Group.{IsGroup};
ghost use Rattle.dr_restart.specs.Groups.{group_of};
ghost use Rattle.dr_script.specs.Ranges.{HasGroupRanges};
ghost use Rattle.dr_play.specs.Logged.{AreAmple, AreOpened};
ghost use Rattle.dr_entry.specs.declared.limits.TheConstants.{MAX_MEMBERS};
ghost use Rattle.dr_fresh.specs.declared.logs.TheConstants.{LOG_LIMIT};
ghost use Rattle.dr_fresh.specs.Fresh.{HaveLimit, IsFresh, IsFreshAt};

use crate::on_disk::{FreshWhy, fresh_log};
use dr_disk::CalmDisk;
use dr_log::Log;
use dr_restart::Start;
use dr_script::Script;
use dr_words::Mask;
use std::alloc::{AllocError, Global};

/// The most bytes of a log.
pub const LOG_LIMIT: u64 = 1 << 31;

/// The logs of the members of the group of a script that are there, by number, as an age without entries of
/// earlier ones begins; there is none at the place of a member that is absent.
///
/// # Errors
///
/// Want of memory alone.
pub fn logs_of(
    alloc: Global,
    script: &Script,
    start: &Start,
) -> Result<Vec<Option<Log<CalmDisk>>>, AllocError>
    requires ranges { HasGroupRanges script.now }
    requires group { IsGroup (group_of script.now start.now) }
    requires none { start.now.entries ≡ [] }
    ensures opened { IfOk result (λ logs. AreOpened (group_of script.now start.now) logs.items) }
    ensures limit { IfOk result (λ logs. HaveLimit 2147483648 logs.items) }
    ensures ample { IfOk result (λ logs. AreAmple (group_of script.now start.now) logs.items) }
{
    let mut logs = Vec::with_capacity(alloc, usize::from(script.members))?;
    for member in 0..script.members {
        logs.push(log_at(alloc, start, member)?)?;
    }
    Ok(logs)
}

/// The fresh log of a member; `None` exactly where it is absent.
fn log_at(alloc: Global, start: &Start, member: u8) -> Result<Option<Log<CalmDisk>>, AllocError>
    requires some { 0 < start.now.members }
    requires member { member < MAX_MEMBERS }
    ensures { IfOk result (IsFreshAt start.now LOG_LIMIT member) }
{
    if !Mask::of(start.present).has(member) {
        return Ok(None);
    }
    Ok(Some(calm_log(alloc, start)?))
}

/// A fresh log on a disk that never fails.
fn calm_log(alloc: Global, start: &Start) -> Result<Log<CalmDisk>, AllocError>
    requires some { 0 < start.now.members }
    ensures { IfOk result (IsFresh start.now LOG_LIMIT) }
{
    match fresh_log(alloc, CalmDisk::new(alloc), LOG_LIMIT, start) {
        Ok(log) => Ok(log),
        Err(fault) => match fault.why {
            FreshWhy::OutOfMemory => Err(AllocError),
            // Such a disk has no faults and nothing on it, and View 0 is short.
            FreshWhy::DiskFault | FreshWhy::LogFull | FreshWhy::Used => unreachable!(),
        },
    }
}
