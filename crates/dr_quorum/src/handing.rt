//! Which logs were handed in, and whether they are such as the script can have brought about.
ghost use Rattle.std.specs.Prelude.{◌≡◌, ◌<◌, IfErr, IfNone, IfOk, IfSome, length};
ghost use Rattle.dr_history.specs.Soundness.{whole_roster};
ghost use Rattle.dr_restart.specs.{Choosing.{HasQuorum, handed_of}, Groups.first_group_of};
ghost use Rattle.dr_restart.specs.Refusing.{AreEnough, HaveNothingForeign, IsFirstForeignOf, LacksQuorum};
ghost use Rattle.dr_script.specs.Ranges.{HasGroupRanges};
ghost use Rattle.dr_quorum.specs.{Handing.handed_by, Telling.IsRightlyTold};

use crate::borrowed::BorrowedLists;
use crate::faults::ChooseFault;
use crate::reading::first_foreign;
use dr_entry::MAX_MEMBERS;
use dr_script::Script;
use dr_words::Mask;

/// The first log with an entry that may not stand, and where.
fn find_foreign(script: &Script, lists: &[Option<BorrowedLists>]) -> Option<(usize, usize)>
    requires { HasGroupRanges script.now }
    ensures none { IfNone result (HaveNothingForeign (first_group_of script.now).opening (handed_by lists.now)) }
    ensures some { IfSome result (λ at.
        IsFirstForeignOf (first_group_of script.now).opening (handed_by lists.now) at.0 at.1) }
    ensures within { IfSome result (λ at. at.0 < length lists.now) }
{
    for m in 0..lists.len() {
        if let Some(log) = &lists[m] {
            if let Some(place) = first_foreign(script, log.entries()) {
                return Some((m, place));
            }
        }
    }
    None
}

/// The members of a mask whose logs were handed in.
pub(crate) fn handed_among(lists: &[Option<BorrowedLists>], members: Mask) -> Mask
    ensures { result ≡ handed_of (handed_by lists.now) members }
{
    let mut mask = Mask::empty();
    let most = lists.len().min(MAX_MEMBERS);
    for m in 0..most {
        if members.has(m as u8) && lists[m].is_some() {
            mask = mask.with(m as u8);
        }
    }
    mask
}

/// How many of these members have handed in their logs, and how many are needed, where they are too few.
pub(crate) fn lacking(lists: &[Option<BorrowedLists>], members: Mask) -> Option<(u8, u8)>
    ensures none { IfNone result (HasQuorum (handed_by lists.now) members) }
    ensures some { IfSome result (λ x. LacksQuorum (handed_by lists.now) members x.0 x.1) }
{
    let have = handed_among(lists, members).count();
    let need = members.count() / 2 + 1;
    if have < need {
        Some((have, need))
    } else {
        None
    }
}

/// All members of the roster.
pub(crate) fn roster_of(script: &Script) -> Mask
    requires { HasGroupRanges script.now }
    ensures { result ≡ whole_roster (first_group_of script.now).opening }
{
    Mask::all(script.members)
}

/// Whether nothing on the logs is foreign, and they are those of more than half of the roster.
///
/// # Errors
///
/// The first entry that is foreign, or how many logs there are.
pub(crate) fn check_logs(
    script: &Script,
    lists: &[Option<BorrowedLists>],
) -> Result<(), ChooseFault>
    requires ranges { HasGroupRanges script.now }
    requires all { length lists.now ≡ script.now.members }
    ensures enough { IfOk result (λ _. AreEnough (first_group_of script.now).opening (handed_by lists.now)) }
    ensures refused { IfErr result (IsRightlyTold (first_group_of script.now).opening (handed_by lists.now)) }
{
    if let Some((member, place)) = find_foreign(script, lists) {
        return Err(ChooseFault::Foreign {
            member: member as u8,
            place: place as u64,
        });
    }
    match lacking(lists, roster_of(script)) {
        Some((have, need)) => Err(ChooseFault::NoQuorum {
            view: None,
            have,
            need,
        }),
        None => Ok(()),
    }
}
