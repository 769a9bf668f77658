//! Chooses what the next age starts with.
ghost use Rattle.std.specs.Prelude.{◌≡◌, ◌⊎◌, IfErr, IfOk, MatchResult, Some, length};
ghost use Rattle.dr_restart.specs.Choosing.{AreOfHolders, AreOfNobody, IsAgeAfter, IsChosenStart, IsLastAge};
ghost use Rattle.dr_restart.specs.{Groups.first_group_of, Refusing.{AreEnough, IsRefusedFor, Refusal}};
ghost use Rattle.dr_restart.specs.declared.start.Start.{Start as StartOf};
ghost use Rattle.dr_script.specs.Ranges.{HasGroupRanges};
ghost use Rattle.dr_quorum.specs.{Handing.handed_by, Telling.{IsRightlyTold, reason_of}};
ghost use Rattle.dr_quorum.specs.declared.faults.ChooseFault.TheVariants.{OutOfMemory};

use crate::ages::{age_after, last_age};
use crate::borrowed::BorrowedLists;
use crate::comparing::find_split;
use crate::copies::copy_of;
use crate::faults::ChooseFault;
use crate::handing::{check_logs, handed_among, roster_of};
use crate::holders::longest_held;
use crate::path::find_short_view;
use dr_entry::Entry;
use dr_restart::Start;
use dr_script::Script;
use std::alloc::Global;

/// The entries of the longest log that ends in the last age.
///
/// # Errors
///
/// The first two of these logs that differ, or the first view on the path of which too few logs are there.
fn entries_of_age<'a>(
    script: &Script,
    lists: &[Option<BorrowedLists<'a>>],
    age: u16,
) -> Result<&'a [Entry], ChooseFault>
    requires ranges { HasGroupRanges script.now }
    requires all { length lists.now ≡ script.now.members }
    requires enough { AreEnough (first_group_of script.now).opening (handed_by lists.now) }
    requires last { IsLastAge (handed_by lists.now) age }
    ensures chosen { IfOk result (λ es.
        AreOfHolders (first_group_of script.now).opening (handed_by lists.now) es.now
        ⊎ AreOfNobody (handed_by lists.now) es.now) }
    ensures refused { IfErr result (IsRightlyTold (first_group_of script.now).opening (handed_by lists.now)) }
{
    let longest = longest_held(lists, age);
    if let Some((a, b, place)) = find_split(lists, age, longest) {
        return Err(ChooseFault::Disagree {
            a: a as u8,
            b: b as u8,
            place: place as u64,
        });
    }
    match find_short_view(script, lists, age, longest) {
        Some((view, have, need)) => Err(ChooseFault::NoQuorum {
            view: Some(view),
            have,
            need,
        }),
        None => Ok(longest),
    }
}

/// So it is where the last age is still to be found. There are no entries where no log has a View.
fn choose_entries<'a>(
    script: &Script,
    lists: &[Option<BorrowedLists<'a>>],
) -> Result<&'a [Entry], ChooseFault>
    requires ranges { HasGroupRanges script.now }
    requires all { length lists.now ≡ script.now.members }
    requires enough { AreEnough (first_group_of script.now).opening (handed_by lists.now) }
    ensures chosen { IfOk result (λ es.
        AreOfHolders (first_group_of script.now).opening (handed_by lists.now) es.now
        ⊎ AreOfNobody (handed_by lists.now) es.now) }
    ensures refused { IfErr result (IsRightlyTold (first_group_of script.now).opening (handed_by lists.now)) }
{
    match last_age(lists) {
        Some(age) => entries_of_age(script, lists, age),
        None => Ok(&[]),
    }
}

/// The start of an age with these entries, and the members that have handed in their logs.
///
/// # Errors
///
/// Want of memory alone.
fn start_with(
    alloc: Global,
    script: &Script,
    lists: &[Option<BorrowedLists>],
    age: u16,
    entries: &[Entry],
) -> Result<Start, ChooseFault>
    requires ranges { HasGroupRanges script.now }
    requires enough { AreEnough (first_group_of script.now).opening (handed_by lists.now) }
    requires chosen { AreOfHolders (first_group_of script.now).opening (handed_by lists.now) entries.now
        ⊎ AreOfNobody (handed_by lists.now) entries.now }
    requires after { IsAgeAfter (handed_by lists.now) age }
    ensures start { IfOk result (IsChosenStart (first_group_of script.now).opening (handed_by lists.now)) }
    ensures members { IfOk result (λ start. start.members ≡ start.present) }
    ensures memory { IfErr result (λ why. why ≡ OutOfMemory) }
{
    let members = handed_among(lists, roster_of(script)).bits();
    Ok(Start {
        age,
        members,
        present: members,
        entries: copy_of(alloc, entries)?,
    })
}

/// What the next age starts with; see `choose`.
fn choose_start(
    alloc: Global,
    script: &Script,
    lists: &[Option<BorrowedLists>],
) -> Result<Start, ChooseFault>
    requires ranges { HasGroupRanges script.now }
    requires all { length lists.now ≡ script.now.members }
    ensures start { IfOk result (IsChosenStart (first_group_of script.now).opening (handed_by lists.now)) }
    ensures members { IfOk result (λ start. start.members ≡ start.present) }
    ensures refused { IfErr result (IsRightlyTold (first_group_of script.now).opening (handed_by lists.now)) }
{
    check_logs(script, lists)?;
    let entries = choose_entries(script, lists)?;
    match age_after(lists) {
        Some(age) => start_with(alloc, script, lists, age, entries),
        None => Err(ChooseFault::AgesUsedUp),
    }
}

/// What the next age starts with, by the logs that the members have handed in, ascending, where others are
/// missing. Its entries are those of the longest log among those that end in the last age, and who is there, and
/// in the first view, are those that have handed in their logs. Each log has to be one that the script can have
/// brought about; there have to be the logs of more than half of the roster; of any two logs that end in the
/// last age one has to be a front of the other; and there have to be those of more than half of each view on the
/// path that they name.
///
/// # Errors
///
/// Want of memory; or what the first thing is that is wrong with the logs.
pub fn choose(
    alloc: Global,
    script: &Script,
    lists: &[Option<BorrowedLists>],
) -> Result<Start, ChooseFault>
    requires ranges { HasGroupRanges script.now }
    requires all { length lists.now ≡ script.now.members }
    ensures start { IfOk result (IsChosenStart (first_group_of script.now).opening (handed_by lists.now)) }
    // Its first view has all who have handed in their logs.
    ensures members { IfOk result (λ start. start.members ≡ start.present) }
    ensures refused { IfErr result (IsRightlyTold (first_group_of script.now).opening (handed_by lists.now)) }
    // Where logs make a start, nothing but want of memory refuses it.
    ensures only_memory { (start : StartOf)
        → IsChosenStart (first_group_of script.now).opening (handed_by lists.now) start
        → IfErr result (λ why. why ≡ OutOfMemory) }
    // Where they are refused for a reason, it is told, unless memory was wanting.
    ensures only_reason { (why : Refusal)
        → IsRefusedFor (first_group_of script.now).opening (handed_by lists.now) why
        → MatchResult result (λ start. ⊥) (λ fault. (fault ≡ OutOfMemory) ⊎ (reason_of fault ≡ Some why)) }
{
    choose_start(alloc, script, lists)
}
