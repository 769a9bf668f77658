//! Reads a log's entries, up to the first that may not stand.
ghost use Rattle.std.specs.Prelude.{◌≡◌, ◌<◌, ◌+◌, ◌↔◌, IsTrue, IfSome, IfNone, length, slice_get, take, Some};
ghost use Rattle.dr_entry.specs.declared.entry.Entry.{Entry as EntryOf};
ghost use Rattle.dr_history.specs.{Restarting.{AllStand, IsForeignAt}, Soundness.MayStand};
ghost use Rattle.dr_restart.specs.Groups.{first_group_of};
ghost use Rattle.dr_script.specs.Ranges.{HasGroupRanges};
ghost use Rattle.dr_quorum.specs.Reading.{IsRead};

use crate::standing::{continues, is_next, is_of_roster, opens};
use dr_entry::{Entry, MAX_MEMBERS};
use dr_history::GroupView;
use dr_script::Script;

/// Whether entry `at` may stand behind those before it, where this view and these counts are known of them.
fn may_stand(
    script: &Script,
    entries: &[Entry],
    at: usize,
    view: &Option<GroupView>,
    counts: &[u32; MAX_MEMBERS],
) -> bool
    requires ranges { HasGroupRanges script.now }
    requires at { at < length entries.now }
    requires read { IsRead (take at entries.now) view.now counts.now }
    ensures { (e : EntryOf) → slice_get entries.now at ≡ Some e
        → IsTrue result ↔ MayStand (first_group_of script.now).opening (take at entries.now) e }
{
    match &entries[at] {
        Entry::View {
            age,
            number,
            members,
        } => {
            is_of_roster(script, *members)
                && (opens(view, *age, *number) || continues(view, *age, *number, *members))
        }
        Entry::Msg {
            sender,
            index,
            bytes,
        } => is_next(script, view, counts, *sender, *index, bytes),
    }
}

/// Notes entry `at`, which may stand behind those before it.
fn note(
    script: &Script,
    entries: &[Entry],
    at: usize,
    view: &mut Option<GroupView>,
    counts: &mut [u32; MAX_MEMBERS],
)
    requires ranges { HasGroupRanges script.now }
    requires at { at < length entries.now }
    requires read { IsRead (take at entries.now) view.old counts.old }
    requires stands { (e : EntryOf) → slice_get entries.now at ≡ Some e
        → MayStand (first_group_of script.now).opening (take at entries.now) e }
    ensures { IsRead (take (at + 1) entries.now) view.new counts.new }
{
    match &entries[at] {
        Entry::View {
            age,
            number,
            members,
        } => *view = Some(GroupView::new(*age, *number, *members)),
        Entry::Msg { sender, .. } => counts[usize::from(*sender)] += 1,
    }
}

/// The first entry that may not stand behind those before it.
pub fn first_foreign(script: &Script, entries: &[Entry]) -> Option<usize>
    requires { HasGroupRanges script.now }
    ensures none { IfNone result (AllStand (first_group_of script.now).opening entries.now) }
    ensures some { IfSome result (IsForeignAt (first_group_of script.now).opening entries.now) }
{
    let mut view = None;
    let mut counts = [0; MAX_MEMBERS];
    for at in 0..entries.len() {
        if !may_stand(script, entries, at, &view, &counts) {
            return Some(at);
        }
        note(script, entries, at, &mut view, &mut counts);
    }
    None
}
