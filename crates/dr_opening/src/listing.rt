//! What stands on logs, as lists.
ghost use Rattle.std.specs.Prelude.{◌≡◌, IfOk, option_map};
ghost use Rattle.dr_log.specs.State.{LogState};
ghost use Rattle.dr_opening.specs.Lists.{all_as_lists, as_lists, contents_of};

use dr_disk::Disk;
use dr_log::Log;
use dr_quorum::BorrowedLists;
use std::alloc::{AllocError, Global};

/// What stands on a log.
fn list_of<D: Disk>(log: &Log<D>) -> BorrowedLists<'_>
    ensures { result ≡ as_lists log.now.content }
{
    BorrowedLists::new(log.entries(), log.votes(), log.age_votes())
}

/// So it is of a log that may be missing.
fn list_at<D: Disk>(place: &Option<Log<D>>) -> Option<BorrowedLists<'_>>
    ensures { result ≡ option_map as_lists (option_map (λ (log : LogState D). log.content) place.now) }
{
    match place {
        Some(log) => Some(list_of(log)),
        None => None,
    }
}

/// What stands on each log, and nothing where it is missing. Nothing of it is copied.
///
/// # Errors
///
/// Want of memory alone.
pub fn lists_of<'a, D: Disk>(
    alloc: Global,
    logs: &'a [Option<Log<D>>],
) -> Result<Vec<Option<BorrowedLists<'a>>>, AllocError>
    ensures { IfOk result (λ lists. lists.items ≡ all_as_lists (contents_of logs.now)) }
{
    let mut lists = Vec::with_capacity(alloc, logs.len())?;
    for place in logs {
        lists.push(list_at(place))?;
    }
    Ok(lists)
}
