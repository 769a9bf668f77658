//! Disks with logs.
ghost use Rattle.std.specs.Prelude.{◌≡◌, ◌≤◌, ℕ, IfOk, IsTrue, Some, false, length, vec_len};
ghost use Rattle.dr_entry.specs.declared.limits.TheConstants.{MAX_MEMBERS};
ghost use Rattle.dr_disk.specs.Memory.{MemoryState};
ghost use Rattle.dr_log.specs.State.{LogState};
ghost use Rattle.dr_opening.specs.Lists.{SomebodyPrompt, log_of};

use crate::choices::reading::mask_of;
use anyhow::anyhow;
use dr_disk::{Disk, MemoryDisk};
use dr_log::Log;
use dr_words::Mask;
use std::alloc::Global;

/// The most bytes of a log.
const LIMIT: u64 = 1 << 20;

/// The logs on the disks of the first members, but those of the missing.
pub(crate) fn logs_of(
    alloc: Global,
    members: u8,
    disks: &[String],
    missing: &str,
    broken: &str,
) -> anyhow::Result<Vec<Option<Log<MemoryDisk>>>>
    ensures all { IfOk result (λ logs. vec_len logs ≡ members) }
    ensures whole { IfOk result (λ logs. (m : ℕ) (log : LogState MemoryState) → log_of logs.items m ≡ Some log
        → log.failed ≡ false) }
{
    let mut logs = Vec::new(alloc);
    for m in 0..members {
        logs.push(log_at(alloc, m, disks, missing, broken)?)?;
    }
    Ok(logs)
}

/// The late members, listed as digits, where somebody else is there.
pub(crate) fn late_among(logs: &[Option<Log<MemoryDisk>>], members: &str) -> anyhow::Result<Mask>
    requires { length logs.now ≤ MAX_MEMBERS }
    ensures { IfOk result (λ late. SomebodyPrompt late logs.now) }
{
    let late = Mask::of(mask_of(members.trim())?);
    if has_prompt(logs, late) {
        Ok(late)
    } else {
        Err(anyhow!("everybody who is there is late"))
    }
}

/// Whether the log of somebody is there who isn't late.
fn has_prompt(logs: &[Option<Log<MemoryDisk>>], late: Mask) -> bool
    requires { length logs.now ≤ MAX_MEMBERS }
    ensures { IsTrue result → SomebodyPrompt late logs.now }
{
    for m in 0..logs.len() {
        if logs[m].is_some() && !late.has(m as u8) {
            return true;
        }
    }
    false
}

/// The log of a member, unless it is missing.
fn log_at(
    alloc: Global,
    member: u8,
    disks: &[String],
    missing: &str,
    broken: &str,
) -> anyhow::Result<Option<Log<MemoryDisk>>>
    ensures { IfOk result (λ place. (log : LogState MemoryState) → place ≡ Some log → log.failed ≡ false) }
{
    let name = format!(in alloc; "{member}")?;
    if missing.contains(name.as_str()) {
        return Ok(None);
    }
    let Some(text) = disks.get(usize::from(member)) else {
        return Err(anyhow!("member {member} has no disk"));
    };
    let disk = disk_of(alloc, text.as_str(), stop_of(name.as_str(), broken)?)?;
    match Log::mount(alloc, disk, LIMIT) {
        Ok(log) => Ok(Some(log)),
        Err(_) => Err(anyhow!("the disk of member {member} has no log")),
    }
}

/// Behind which call the disk of this member fails, if it does.
fn stop_of(name: &str, broken: &str) -> anyhow::Result<Option<u64>> {
    let mut words = broken.split_whitespace();
    if words.next() == Some(name) {
        return Ok(Some(words.next().unwrap_or("").parse()?));
    }
    Ok(None)
}

/// A disk on which these bytes stand, in hexadecimal. To put them there takes two calls.
fn disk_of(alloc: Global, text: &str, stop: Option<u64>) -> anyhow::Result<MemoryDisk> {
    let bytes = hex::decode(alloc, text)?;
    let mut disk = MemoryDisk::new(alloc, &[], stop)?;
    disk.reserve(2, bytes.len() as u64)?;
    if disk.write_at(0, bytes.as_slice()).is_err() || disk.sync().is_err() {
        return Err(anyhow!("the disk fails too early"));
    }
    Ok(disk)
}

/// Keeps what stands on the disks of these logs, in hexadecimal, by the numbers of their members.
pub(crate) fn keep_all(
    alloc: Global,
    logs: Vec<Option<Log<MemoryDisk>>>,
    disks: &mut Vec<String>,
) -> anyhow::Result<()> {
    for (m, place) in logs.into_iter().enumerate() {
        if let Some(log) = place {
            let text = hex::encode(alloc, log.unmount().bytes())?;
            if m < disks.len() {
                disks[m] = text;
            }
        }
    }
    Ok(())
}
