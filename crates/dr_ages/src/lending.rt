//! The logs of a yard's disks.
//!
//! Logs are borrowed and mounted one by one, by ascending number: a disk is asked for once the log before it
//! was mounted, and that of a missing member never.
ghost use Rattle.std.specs.Prelude.{◌≡◌, ◌≢◌, ◌<◌, ◌≤◌, ℕ, None, false, true, is_some, not, length, vec_capacity, OnOk, OnErr, IfOk, IfErr, IfSome};
ghost use Rattle.dr_entry.specs.declared.limits.TheConstants.{MAX_MEMBERS};
ghost use Rattle.dr_history.specs.Members.{has};
ghost use Rattle.dr_opening.specs.Lists.{log_of};
ghost use Rattle.dr_yard.specs.Yards.{state_by};
ghost use Rattle.dr_ages.specs.Lent.{AreAllBut, AreLent, AreMounted, IsAlike, IsMounted, WasRefused, WereRefused, with_logs};
ghost use Rattle.dr_ages.specs.Passing.{AreUntouched};

use crate::part::Part;
use crate::stop::Stop;
use dr_log::Log;
use dr_yard::Yard;
use std::alloc::Global;

/// The most bytes of a log: 2,147,483,648.
pub const LOG_LIMIT: u64 = 1 << 31;

/// Borrows and mounts the logs of so many members, ascending, up to the first that is refused. That one's
/// disk is given back. In the place of a missing one is nothing.
pub(crate) fn mount_all<Y: Yard>(
    alloc: Global,
    folder: &str,
    yard: &mut Y,
    part: &Part,
    members: u8,
    logs: &mut Vec<Option<Log<Y::Store>>>,
) -> Result<(), Stop>
    requires few { members ≤ MAX_MEMBERS }
    requires none { length logs.old.items ≡ 0 }
    requires room { members ≤ vec_capacity logs.old }
    requires here { AreLent Y.is_lent Y.faults Y.Store.faults yard.old logs.old.items }
    ensures all { OnOk result (length logs.new.items ≡ members) }
    ensures places { AreAllBut part.now.missing logs.new.items }
    ensures mounted { AreMounted Y.Store.told Y.Store.faults (state_by Y.told Y.faults yard.old)
        logs.new.items }
    ensures lent { AreLent Y.is_lent Y.faults Y.Store.faults yard.new logs.new.items }
    ensures rest { OnOk result ((m : ℕ) → members ≤ m
        → (Y.told yard.new m ≡ Y.told yard.old m) × (Y.faults yard.new m ≡ Y.faults yard.old m)) }
    ensures untouched { AreUntouched part.now.missing (state_by Y.told Y.faults yard.old)
        (state_by Y.told Y.faults yard.new) }
    ensures on { (m : ℕ) → log_of logs.new.items m ≡ None
        → IsAlike (Y.told yard.old m) (Y.faults yard.old m) (Y.told yard.new m) (Y.faults yard.new m) }
    ensures stopped { IfErr result (WereRefused members part.now.missing (length logs.new.items)
        (state_by Y.told Y.faults yard.old) (state_by Y.told Y.faults yard.new)) }
{
    for member in 0..members {
        let place = mount_at(alloc, folder, yard, part, member)?;
        logs.push(place).unwrap();
    }
    Ok(())
}

/// Borrows and mounts the log of one member, unless it is missing. Of a missing one the yard is asked nothing.
fn mount_at<Y: Yard>(
    alloc: Global,
    folder: &str,
    yard: &mut Y,
    part: &Part,
    member: u8,
) -> Result<Option<Log<Y::Store>>, Stop>
    requires below { member < MAX_MEMBERS }
    requires here { Y.is_lent yard.old member ≡ false }
    ensures lent { IfOk result (λ place. Y.is_lent yard.new member ≡ is_some place) }
    ensures kept { OnErr result (Y.is_lent yard.new member ≡ false) }
    ensures there { IfOk result (λ place. is_some place ≡ not (has part.now.missing member)) }
    ensures refused { OnErr result (has part.now.missing member ≡ false) }
    ensures untouched { has part.now.missing member ≡ true → (Y.told yard.new member ≡ Y.told yard.old member)
        × (Y.faults yard.new member ≡ Y.faults yard.old member) }
    ensures counted { IfOk result (λ place. IfSome place (λ log.
        Y.faults yard.new member ≤ Y.Store.faults log.disk)) }
    ensures mounted { IfOk result (λ place. IfSome place (IsMounted Y.Store.told Y.Store.faults
        (Y.told yard.old member) (Y.faults yard.old member))) }
    ensures on { OnErr result (IsAlike (Y.told yard.old member) (Y.faults yard.old member)
        (Y.told yard.new member) (Y.faults yard.new member)) }
    ensures stopped { IfErr result (WasRefused member (Y.told yard.old member) (Y.told yard.new member)
        (Y.faults yard.old member) (Y.faults yard.new member)) }
    ensures others { (m : ℕ) → m ≢ member → (Y.told yard.new m ≡ Y.told yard.old m)
        × (Y.is_lent yard.new m ≡ Y.is_lent yard.old m) × (Y.faults yard.new m ≡ Y.faults yard.old m) }
{
    if part.missing.has(member) {
        return Ok(None);
    }
    Ok(Some(mount(alloc, folder, yard, member)?))
}

/// Borrows and mounts the log of one member. The disk of one that is refused is given back.
fn mount<Y: Yard>(
    alloc: Global,
    folder: &str,
    yard: &mut Y,
    member: u8,
) -> Result<Log<Y::Store>, Stop>
    requires below { member < MAX_MEMBERS }
    requires here { Y.is_lent yard.old member ≡ false }
    ensures lent { OnOk result (Y.is_lent yard.new member ≡ true) }
    ensures kept { OnErr result (Y.is_lent yard.new member ≡ false) }
    ensures counted { IfOk result (λ log. Y.faults yard.new member ≤ Y.Store.faults log.disk) }
    ensures mounted { IfOk result (IsMounted Y.Store.told Y.Store.faults
        (Y.told yard.old member) (Y.faults yard.old member)) }
    ensures on { OnErr result (IsAlike (Y.told yard.old member) (Y.faults yard.old member)
        (Y.told yard.new member) (Y.faults yard.new member)) }
    ensures stopped { IfErr result (WasRefused member (Y.told yard.old member) (Y.told yard.new member)
        (Y.faults yard.old member) (Y.faults yard.new member)) }
    ensures others { (m : ℕ) → m ≢ member → (Y.told yard.new m ≡ Y.told yard.old m)
        × (Y.is_lent yard.new m ≡ Y.is_lent yard.old m) × (Y.faults yard.new m ≡ Y.faults yard.old m) }
{
    let Ok(disk) = yard.lend(folder, member) else {
        return Err(Stop::DiskFault { member });
    };
    match Log::mount(alloc, disk, LOG_LIMIT) {
        Ok(log) => Ok(log),
        Err(fault) => {
            let why = fault.why;
            yard.give_back(member, fault.disk);
            Err(Stop::of_mount(member, why))
        }
    }
}

/// Gives all disks back.
pub(crate) fn give_all_back<Y: Yard>(yard: &mut Y, logs: Vec<Option<Log<Y::Store>>>)
    requires lent { AreLent Y.is_lent Y.faults Y.Store.faults yard.old logs.items }
    ensures here { (m : ℕ) → m < MAX_MEMBERS → Y.is_lent yard.new m ≡ false }
    ensures back { (m : ℕ)
        → (Y.told yard.new m ≡ (with_logs Y.Store.told Y.Store.faults (state_by Y.told Y.faults yard.old)
        logs.items).told m)
        × (Y.faults yard.new m ≡ (with_logs Y.Store.told Y.Store.faults (state_by Y.told Y.faults yard.old)
        logs.items).faults m) }
{
    let mut logs = logs;
    while let Some(place) = logs.pop() {
        if let Some(log) = place {
            yard.give_back(logs.len() as u8, log.unmount());
        }
    }
}
