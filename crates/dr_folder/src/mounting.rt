//! Mounts copies of files, as a run mounts the files.

ghost use Rattle.std.specs.Prelude.{◌≡◌, [], Some, IfOk, IsErrOf, length};
ghost use Rattle.dr_log_bytes.specs.Grammar.{StandFor};
ghost use Rattle.dr_opening.specs.Lists.{contents_of};
ghost use Rattle.dr_text.specs.declared.last.Last.{Last as LastOf};
ghost use Rattle.dr_folder.specs.Foretold.{AreTakenFor, IsRefusedAt, IsRefusedBy, IsRefusedWith, IsTakenFor};

use crate::file::LogFile;
use dr_disk::{CalmDisk, Disk};
use dr_log::{Log, MountWhy};
use dr_text::Last;
use std::alloc::{AllocError, Global};

/// The most bytes of a log.
const LOG_LIMIT: u64 = 1 << 31;

/// The logs that a run finds in these files, by member, up to the first at which it stops.
///
/// # Errors
///
/// The last line of that run; none where memory was wanting.
pub(crate) fn mount_files(
    alloc: Global,
    files: &[LogFile],
    members: u8,
) -> Result<Vec<Option<Log<CalmDisk>>>, Option<Last>>
    requires { length files.now ≡ members }
    ensures taken { IfOk result (λ logs. AreTakenFor members files.now (contents_of logs.items)) }
    ensures all { IfOk result (λ logs. length logs.items ≡ members) }
    ensures refused { (last : LastOf) → IsErrOf result (Some last) → IsRefusedAt members files.now last }
{
    let mut logs = Vec::new(alloc);
    for member in 0..members {
        let m = usize::from(member);
        let log = mount_file(alloc, &files[m], member)?;
        if logs.push(Some(log)).is_err() {
            return Err(None);
        }
    }
    Ok(logs)
}

/// The log in the file of a member. Where there is none a run makes an empty one.
fn mount_file(alloc: Global, file: &LogFile, member: u8) -> Result<Log<CalmDisk>, Option<Last>>
    ensures taken { IfOk result (λ log. IsTakenFor file.now log.content) }
    ensures refused { (last : LastOf) → IsErrOf result (Some last) → IsRefusedBy file.now member last }
{
    match file {
        LogFile::Missing => mount(alloc, empty_disk(alloc), member),
        LogFile::Unread { .. } => Err(Some(Last::DiskFault { member })),
        LogFile::Bytes(bytes) => match disk_of(alloc, bytes.as_slice()) {
            Ok(disk) => mount(alloc, disk, member),
            Err(_) => Err(None),
        },
    }
}

/// The log of a member on a disk that never fails.
fn mount(alloc: Global, disk: CalmDisk, member: u8) -> Result<Log<CalmDisk>, Option<Last>>
    ensures taken { IfOk result (λ log. StandFor disk.state.content log.content) }
    ensures refused { (last : LastOf) → IsErrOf result (Some last)
        → IsRefusedWith disk.state.content member last }
{
    match Log::mount(alloc, disk, LOG_LIMIT) {
        Ok(log) => Ok(log),
        Err(fault) => match fault.why {
            MountWhy::Damaged { at } => Err(Some(Last::Damaged { member, at })),
            MountWhy::OutOfMemory => Err(None),
            MountWhy::DiskFault => unreachable!(),
        },
    }
}

/// A disk without a byte.
fn empty_disk(alloc: Global) -> CalmDisk
    ensures { result.state.content ≡ [] }
{
    CalmDisk::new(alloc)
}

/// A disk with these bytes.
fn disk_of(alloc: Global, bytes: &[u8]) -> Result<CalmDisk, AllocError>
    ensures { IfOk result (λ disk. disk.state.content ≡ bytes.now) }
{
    let mut disk = CalmDisk::new(alloc);
    disk.reserve(1, bytes.len() as u64)?;
    match disk.write_at(0, bytes) {
        Ok(()) => Ok(disk),
        Err(_) => unreachable!(),
    }
}
