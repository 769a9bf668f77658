//! The append that a member is due to do, to its log.
ghost use Rattle.std.specs.Prelude.{◌≡◌, ◌≢◌, ℕ, All, None, false, true, IsErrOf, OnOk};
ghost use Rattle.dr_entry.specs.Spelling.{IsValidEntry};
ghost use Rattle.dr_log.specs.declared.fault.LogFault.TheVariants.{DiskFault, LogFull};
ghost use Rattle.dr_member.specs.Deeds.{is_append};
ghost use Rattle.dr_machine.specs.declared.step.Step.TheVariants.{Append};
ghost use Rattle.dr_play.specs.declared.appending.Together.TheVariants.{Appended, Failed, Apart};
ghost use Rattle.dr_program.specs.{Form.IsRunningMember, Running.{next_deed, next_step}};
ghost use Rattle.dr_served.specs.Appended.{HasAppended, HasAppendedAll, HasBroken, HasBrokenAll, IsOver};
ghost use Rattle.dr_served.specs.Served.{AppendsWell, IsReady};

use dr_disk::Disk;
use dr_log::{Log, LogFault};
use dr_member::{Deed, Member};

/// Appends to the log what the member, whose next deed is an append, appends next. An entry is lent by the member's
/// history: the deed would have a copy of it.
///
/// # Errors
///
/// Those of the append: the log is full, and is as before, or its disk failed.
#[inline(always)]
pub fn append_due<D: Disk>(log: &mut Log<D>, member: &Member) -> Result<(), LogFault>
    requires due { is_append (next_deed member.now) ≡ true }
    requires going { member.now.replica.end ≡ None }
    requires form { IsRunningMember member.now }
    requires appends { AppendsWell member.now }
    requires ready { IsReady log.old member.now }
    ensures ok { OnOk result (HasAppended D.told D.faults log.old log.new member.now) }
    ensures fault { IsErrOf result DiskFault → HasBroken D.told D.faults log.old log.new member.now }
    ensures full { (len : ℕ) → IsErrOf result (LogFull len)
        → (log.new ≡ log.old) × IsOver log.old len member.now }
{
    if let Some(entry) = member.next_entry() {
        return log.append_entry(entry);
    }
    match member.due_deed() {
        Deed::Append(record) => log.append(&record),
        _ => unreachable!(),
    }
}

/// What became of the entries that a member has due.
#[derive(Clone, Copy, Debug, PartialEq, Eq)]
pub enum Together {
    /// All of them are on the log.
    Appended,
    /// The disk failed: it has all of them or none.
    Failed,
    /// The log is as it was: what is due goes there by itself.
    Apart,
}

/// Appends to the log all entries that the member has due, behind one gate, where it is to append one of several, the
/// log wants groups, and there is room for all.
#[inline(always)]
pub fn append_together<D: Disk>(log: &mut Log<D>, member: &Member) -> Together
    requires going { member.now.replica.end ≡ None }
    requires form { IsRunningMember member.now }
    requires valid { All IsValidEntry member.now.replica.history }
    requires ready { IsReady log.old member.now }
    ensures due { result ≢ Apart → next_step member.now ≡ Append }
    ensures appended { result ≡ Appended → HasAppendedAll D.told D.faults log.old log.new member.now }
    ensures failed { result ≡ Failed → HasBrokenAll D.told D.faults log.old log.new member.now }
    ensures apart { result ≡ Apart → log.new ≡ log.old }
    ensures groups { D.groups log.old.disk ≡ false → result ≡ Apart }
{
    if !log.wants_groups() || member.next_entry().is_none() {
        return Together::Apart;
    }
    let due = member.entries_due();
    if due.len() < 2 {
        return Together::Apart;
    }
    let last = due.len() - 1;
    match log.append_entries(&due[..last], &due[last]) {
        Ok(()) => Together::Appended,
        Err(LogFault::DiskFault) => Together::Failed,
        Err(LogFault::LogFull { .. }) => Together::Apart,
    }
}
