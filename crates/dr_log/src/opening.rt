//! Finds the log on a disk, or makes one.

ghost use Rattle.std.specs.Prelude.{◌≡◌, ◌≢◌, ◌≤◌, ℕ, IfOk, IfErr, IfSome, IsErrOf, OnOk, Err, length};
ghost use Rattle.dr_io.specs.Faults.{Rose, HasCause};
ghost use Rattle.dr_disk.specs.{Calls.Sync, Disk.{added, content_of}, Images.{Goes, ReadsAnImage}};
ghost use Rattle.dr_log.specs.{Appending.IsMounted, Kept.IsSettled, Standing.{KeepsRecords, least_length}};
ghost use Rattle.dr_log.specs.declared.fault.MountWhy.TheVariants.{DiskFault, Damaged};
ghost use Rattle.dr_log_bytes.specs.Grammar.{IsDamaged, IsLogOf, IsNoLog, StandFor};

use crate::fault::MountWhy;
use crate::making::make;
use dr_disk::Disk;
use dr_log_bytes::{Content, EMPTY, ParseFault, parse};
use std::alloc::Global;

/// Finds what is on the disk's log, and makes an empty one where there is none: where the file is no longer than one.
pub(crate) fn open<D: Disk>(alloc: Global, disk: &mut D) -> Result<Content, MountWhy>
    ensures records { IfOk result (λ found. IfSome (D.told disk.old)
        (λ told. StandFor (content_of told) found)) }
    ensures read { IfOk result (λ _. IfSome (D.told disk.old) ReadsAnImage) }
    ensures settled { IfOk result (λ found. IfSome (D.told disk.new)
        (IsSettled found)) }
    ensures least { IfOk result (λ found. least_length found ≤ found.length) }
    ensures any_moment { Goes (D.told disk.old) (D.told disk.new) KeepsRecords }
    ensures calls { OnOk result (IsMounted (D.told disk.old) (D.told disk.new)) }
    ensures damaged { (at : ℕ) → result ≡ Err (Damaged at)
        → IfSome (D.told disk.old) (λ told. IsDamaged (content_of told) at) }
    ensures read_damaged { (at : ℕ) → result ≡ Err (Damaged at)
        → IfSome (D.told disk.old) ReadsAnImage }
    ensures left_damaged { (at : ℕ) → result ≡ Err (Damaged at)
        → D.told disk.new ≡ added Sync (D.told disk.old) }
    ensures fault { IsErrOf result DiskFault → Rose (D.faults disk.old) (D.faults disk.new) }
    ensures calm { OnOk result (D.faults disk.new ≡ D.faults disk.old) }
    ensures calm_err { IfErr result (λ why. why ≢ DiskFault → D.faults disk.new ≡ D.faults disk.old) }
    ensures faults { D.faults disk.old ≤ D.faults disk.new }
{
    disk.reserve(6, EMPTY)?;
    disk.sync()?;
    let len = disk.len()?;
    if len <= EMPTY {
        make(disk)?;
        return Ok(Content::empty(alloc, true));
    }
    let bytes = read_all(alloc, disk, len)?;
    found_in(alloc, bytes.as_slice())
}

/// What is on the log that these bytes are.
fn found_in(alloc: Global, bytes: &[u8]) -> Result<Content, MountWhy>
    ensures found { IfOk result (IsLogOf bytes.now) }
    ensures damaged { (at : ℕ) → result ≡ Err (Damaged at) → IsNoLog bytes.now at }
    ensures fault { IsErrOf result DiskFault → ⊥ }
{
    match parse(alloc, bytes) {
        Ok(found) => Ok(found),
        Err(ParseFault::OutOfMemory) => Err(MountWhy::OutOfMemory),
        Err(ParseFault::Damaged { at }) => Err(MountWhy::Damaged { at }),
    }
}

/// The bytes of a disk that told this length, by one call. Where it gives fewer, it ends there.
fn read_all<D: Disk>(alloc: Global, disk: &mut D, len: u64) -> Result<Vec<u8>, MountWhy>
    requires { IfSome (D.told disk.old) (λ told. len ≡ length (content_of told)) }
    ensures bytes { IfOk result (λ bytes. IfSome (D.told disk.old)
        (λ told. bytes.items ≡ content_of told)) }
    ensures told { D.told disk.new ≡ D.told disk.old }
    ensures damaged { (at : ℕ) → result ≡ Err (Damaged at) → ⊥ }
    ensures fault { IsErrOf result DiskFault → Rose (D.faults disk.old) (D.faults disk.new) }
    ensures calm { OnOk result (D.faults disk.new ≡ D.faults disk.old) }
    ensures calm_err { IfErr result (λ why. why ≢ DiskFault → D.faults disk.new ≡ D.faults disk.old) }
    ensures faults { D.faults disk.old ≤ D.faults disk.new }
{
    let mut bytes = vec![in alloc; 0u8; len as usize]?;
    let count = disk.read_at(0, bytes.as_mut_slice())?;
    bytes.truncate(count);
    Ok(bytes)
}
