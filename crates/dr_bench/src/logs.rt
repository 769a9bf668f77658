ghost use Rattle.std.specs.Prelude.{◌≡◌, ◌≤◌, false, IfOk};
ghost use Rattle.dr_entry.specs.Spelling.{IsValid};
ghost use Rattle.dr_log.specs.State.{as_entry, as_other, as_vote};
ghost use Rattle.dr_log_bytes.specs.Content.{IsPlaced, OnLog};

use crate::bytes::Bytes;
use crate::group::{Tally, mixed};
use dr_disk::{CalmDisk, Disk};
use dr_entry::{Entry, MAX_MESSAGE_LENGTH, Message, Record};
use dr_log::Log;
use std::alloc::{AllocError, Global};

/// No log comes to this length.
const LIMIT: u64 = u64::MAX;

/// A disk on which a log can be begun.
pub trait NewDisk: Disk {
    /// An empty disk.
    fn new_disk(alloc: Global) -> Self;
}

impl NewDisk for CalmDisk {
    fn new_disk(alloc: Global) -> CalmDisk {
        CalmDisk::new(alloc)
    }
}

impl NewDisk for Bytes {
    fn new_disk(alloc: Global) -> Bytes {
        Bytes::new(alloc)
    }
}

/// Appends so many records to a new log, again and again.
#[inline(never)]
pub fn appends<D: NewDisk>(alloc: Global, records: u32, rounds: u32) -> Result<Tally, AllocError> {
    let mut count: u64 = 0;
    let mut disk = D::new_disk(alloc);
    for _ in 0..rounds {
        let log = log_of(alloc, D::new_disk(alloc), records)?;
        count = count.wrapping_add(log.entries().len() as u64);
        disk = log.unmount();
    }
    let checksum = checksum(&mount(alloc, disk)?);
    Ok(Tally { count, checksum })
}

/// Mounts a log of so many records, again and again.
#[inline(never)]
pub fn mounts<D: NewDisk>(alloc: Global, records: u32, rounds: u32) -> Result<Tally, AllocError> {
    let mut count: u64 = 0;
    let mut log = log_of(alloc, D::new_disk(alloc), records)?;
    for _ in 0..rounds {
        log = mount(alloc, log.unmount())?;
        count = count.wrapping_add(log.entries().len() as u64);
    }
    let checksum = checksum(&log);
    Ok(Tally { count, checksum })
}

/// A new log with so many records, on an empty disk.
fn log_of<D: Disk>(alloc: Global, disk: D, records: u32) -> Result<Log<D>, AllocError> {
    let mut log = mount(alloc, disk)?;
    log.reserve(records as usize, 0)?;
    append_all(&mut log, &message(), records);
    Ok(log)
}

/// The log on a disk that never fails, and on which no other bytes stand than those of a log: so the
/// one thing that may be wanting is memory.
fn mount<D: Disk>(alloc: Global, disk: D) -> Result<Log<D>, AllocError>
    ensures { IfOk result (λ log. log.failed ≡ false) }
{
    Log::mount(alloc, disk, LIMIT).map_err(|_| AllocError)
}

/// Appends a record so many times, for which there is room.
fn append_all<D: Disk>(log: &mut Log<D>, r: &Record, count: u32)
    requires whole { log.old.failed ≡ false }
    requires room { count ≤ log.old.spare_entries }
    requires valid { IsValid r.now }
    requires entry { as_entry r.now ≡ 1 }
    requires vote { as_vote r.now ≡ 0 }
    requires other { as_other r.now ≡ 0 }
    requires placed { (c : OnLog) → IsPlaced c r.now }
{
    for done in 0..count {
        if log.append(r).is_err() {
            break;
        }
    }
}

/// The record of a message of 64 bytes.
#[inline(never)]
fn message() -> Record
    ensures valid { IsValid result }
    ensures entry { as_entry result ≡ 1 }
    ensures vote { as_vote result ≡ 0 }
    ensures other { as_other result ≡ 0 }
    ensures placed { (c : OnLog) → IsPlaced c result }
{
    let bytes: &[u8; MAX_MESSAGE_LENGTH] =
        b"abcdefghijklmnopqrstuvwxyzabcdefghijklmnopqrstuvwxyzabcdefghijkl";
    Record::Entry(Entry::Msg {
        sender: 0,
        index: 0,
        bytes: Message::of(bytes).unwrap(),
    })
}

/// A number made of the length of a log and all its entries.
fn checksum<D: Disk>(log: &Log<D>) -> u64 {
    let mut sum = log.len();
    for entry in log.entries() {
        sum = mixed_entry(sum, entry);
    }
    sum
}

/// A message counts by its sender, its index and its bytes.
fn mixed_entry(sum: u64, entry: &Entry) -> u64 {
    match entry {
        Entry::View { members, .. } => mixed(sum, u64::from(*members)),
        Entry::Msg {
            sender,
            index,
            bytes,
        } => {
            let mut sum = mixed(mixed(sum, u64::from(*sender)), u64::from(*index));
            for byte in bytes.bytes() {
                sum = mixed(sum, u64::from(*byte));
            }
            sum
        }
    }
}
