//! Cuts a log back to what it and a start have in common.
ghost use Rattle.std.specs.Prelude.{◌≡◌, ◌<◌, ◌≤◌, ◌^◌, OnOk, length, take, true, false};
ghost use Rattle.dr_history.specs.History.{IsPrefixOf};
ghost use Rattle.dr_opening.specs.CuttingBack.{IsCommonFront, WasCutBack};

use dr_disk::Disk;
use dr_entry::{Entry, Record};
use dr_log::{Log, LogFault};
use dr_quorum::first_difference;
use dr_restart::Start;

/// How many entries two lists have in common at their beginnings.
fn common_length(one: &[Entry], other: &[Entry]) -> usize
    ensures common { IsCommonFront one.now other.now (take result one.now) }
    ensures within_one { result ≤ length one.now }
    ensures within_other { result ≤ length other.now }
{
    match first_difference(one, other) {
        Some(at) => at,
        None => one.len().min(other.len()),
    }
}

/// Cuts a log back to what its entries and a start's have in common, by one cut, exactly where its entries are
/// no front of the start's. It takes no memory.
///
/// # Errors
///
/// That of the append that was refused.
pub fn cut_back<D: Disk>(start: &Start, log: &mut Log<D>) -> Result<(), LogFault>
    requires few { length start.now.entries < 2 ^ 32 }
    requires newer { log.old.content.newer ≡ true }
    requires spare { 1 ≤ log.old.spare_others }
    requires whole { log.old.failed ≡ false }
    ensures cut { WasCutBack D.told D.faults start.now.entries log.old log.new result }
    ensures part { OnOk result (IsPrefixOf log.new.content.entries start.now.entries) }
    ensures whole { OnOk result (log.new.failed ≡ false) }
{
    let own = log.entries();
    let keep = common_length(own, start.entries.as_slice());
    if keep == own.len() {
        return Ok(());
    }
    log.append(&Record::Cut { keep: keep as u32 })
}
