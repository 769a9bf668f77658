//! What the next run over a folder of logs begins with, or is refused by.

ghost use Rattle.std.specs.Prelude.{◌≡◌, ◌<◌, Some, IfOk, IfSome, IsErrOf, IsSomeAnd, length, slice_set};
ghost use Rattle.dr_opening.specs.{Lists.contents_of, Tries.IsChosenOf};
ghost use Rattle.dr_restart.specs.Groups.{first_group_of};
ghost use Rattle.dr_script.specs.Ranges.{HasGroupRanges};
ghost use Rattle.dr_text.specs.declared.last.Last.{Last as LastOf};
ghost use Rattle.dr_folder.specs.Foretold.{AreRefusedBy, IsBarred, IsForetold, refused_by};
ghost use Rattle.dr_folder.specs.declared.file.LogFile.TheVariants.{Missing};
ghost use Rattle.dr_quorum.specs.Telling.{reason_of};

use crate::file::LogFile;
use crate::mounting::mount_files;
use dr_disk::Disk;
use dr_log::Log;
use dr_opening::lists_of;
use dr_quorum::{ChooseFault, choose};
use dr_restart::Start;
use dr_script::Script;
use dr_text::Last;
use std::alloc::Global;
use std::mem;

/// What the first age of a run over these files, by member, starts with.
///
/// # Errors
///
/// The last line of a run that is refused for them; none where memory was wanting.
pub(crate) fn foretell(
    alloc: Global,
    script: &Script,
    files: &[LogFile],
) -> Result<Start, Option<Last>>
    requires ranges { HasGroupRanges script.now }
    requires all { length files.now ≡ script.now.members }
    ensures start { IfOk result (IsForetold script.now files.now) }
    ensures barred { (last : LastOf) → IsErrOf result (Some last) → IsBarred script.now files.now last }
{
    let logs = mount_files(alloc, files, script.members)?;
    choose_of(alloc, script, logs.as_slice())
}

/// What is chosen of these logs.
///
/// # Errors
///
/// The last line of a run that is refused for what they are; none where memory was wanting.
fn choose_of<D: Disk>(
    alloc: Global,
    script: &Script,
    logs: &[Option<Log<D>>],
) -> Result<Start, Option<Last>>
    requires ranges { HasGroupRanges script.now }
    requires all { length logs.now ≡ script.now.members }
    ensures start { IfOk result (IsChosenOf (first_group_of script.now).opening (contents_of logs.now)) }
    ensures members { IfOk result (λ start. start.members ≡ start.present) }
    ensures refused { (last : LastOf) → IsErrOf result (Some last)
        → AreRefusedBy script.now last (contents_of logs.now) }
{
    let Ok(lists) = lists_of(alloc, logs) else {
        return Err(None);
    };
    match choose(alloc, script, lists.as_slice()) {
        Ok(start) => Ok(start),
        Err(fault) => Err(last_of(fault)),
    }
}

/// The last line of a run that is refused for this; none where memory was wanting.
fn last_of(fault: ChooseFault) -> Option<Last>
    ensures { IfSome result (λ last.
        IsSomeAnd (refused_by last) (λ why. reason_of fault ≡ Some why)) }
{
    match fault {
        ChooseFault::OutOfMemory => None,
        ChooseFault::Foreign { member, place } => Some(Last::Foreign { member, place }),
        ChooseFault::NoQuorum { view, have, need } => Some(Last::NoQuorum { view, have, need }),
        ChooseFault::Disagree { a, b, place } => Some(Last::Disagree { a, b, place }),
        ChooseFault::AgesUsedUp => Some(Last::AgesUsedUp),
    }
}

/// The same, if the file of a member were moved away.
pub(crate) fn foretell_without(
    alloc: Global,
    script: &Script,
    files: &mut [LogFile],
    member: usize,
) -> Result<Start, Option<Last>>
    requires ranges { HasGroupRanges script.now }
    requires all { length files.old ≡ script.now.members }
    requires member { member < length files.old }
    ensures start { IfOk result (IsForetold script.now (slice_set files.old member Missing)) }
    ensures barred { (last : LastOf) → IsErrOf result (Some last)
        → IsBarred script.now (slice_set files.old member Missing) last }
    ensures kept { files.new ≡ files.old }
{
    let file = mem::replace(&mut files[member], LogFile::Missing);
    let told = foretell(alloc, script, files);
    files[member] = file;
    told
}
