//! A log alone, over a disk of the program's own.
ghost use Rattle.std.specs.Prelude.{◌≡◌, false, IfOk};
ghost use Rattle.dr_entry.specs.Spelling.{IsValid};
ghost use Rattle.dr_log.specs.State.{as_entry, as_other, as_vote};
ghost use Rattle.dr_log_bytes.specs.Content.{IsPlaced, OnLog};

use crate::disk::CountedDisk;
use anyhow::anyhow;
use dr_entry::{Entry, Message, Record};
use dr_log::Log;
use std::alloc::Global;
use std::io::Print;

/// The most bytes that the log may come to.
const LIMIT: u64 = 4096;

/// A record goes on a log. Prints how many syncs it took, what the next to mount the disk finds, and by how
/// many reads.
pub fn show_log(rt: &impl Print, alloc: Global) -> anyhow::Result<()> {
    let mut log = mounted(alloc, CountedDisk::new(alloc))?;
    log.reserve(1, 0)?;
    log.append(&greeting())
        .map_err(|fault| anyhow!("{fault:?}"))?;
    // Whatever a crash leaves from here on has the record.
    let disk = log.unmount();
    println!(rt; "  syncs: {}", disk.syncs())?;
    let log = mounted(alloc, disk)?;
    for entry in log.entries() {
        println!(rt; "  {entry:?}")?;
    }
    println!(rt; "  reads: {}", log.unmount().reads())?;
    Ok(())
}

/// The log on a disk; an empty one, where the disk is empty.
fn mounted(alloc: Global, disk: CountedDisk) -> anyhow::Result<Log<CountedDisk>>
    ensures { IfOk result (λ log. log.failed ≡ false) }
{
    Log::mount(alloc, disk, LIMIT).map_err(|fault| anyhow!("{:?}", fault.why))
}

/// The first message of member 0, as an entry of a history.
fn greeting() -> Record
    ensures valid { IsValid result }
    ensures entry { as_entry result ≡ 1 }
    ensures vote { as_vote result ≡ 0 }
    ensures other { as_other result ≡ 0 }
    ensures placed { (c : OnLog) → IsPlaced c result }
{
    Record::Entry(Entry::Msg {
        sender: 0,
        index: 0,
        bytes: Message::of(b"hello").unwrap(),
    })
}
