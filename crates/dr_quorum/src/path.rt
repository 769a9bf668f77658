//! The path of the views that the logs handed in name.
ghost use Rattle.dr_entry.specs.declared.limits.TheConstants.{MAX_MEMBERS};
ghost use Rattle.dr_entry.specs.declared.entry.Entry.TheVariants.{View};
ghost use Rattle.dr_entry.specs.declared.record.Vote.{Vote as VoteOf};
ghost use Rattle.std.specs.Option.{option_map_or};
ghost use Rattle.std.specs.Prelude.{◌≡◌, ◌≤◌, ℕ, IfNone, IfSome, List, [], ◌++◌, Contains, filter, length, Some};
ghost use Rattle.dr_restart.specs.{Choosing.{highest, names_next, next_on_path, next_votes}, Groups.first_group_of};
ghost use Rattle.dr_restart.specs.Refusing.{HasPath, LacksPath};
ghost use Rattle.dr_history.specs.Restarting.{AllStand};
ghost use Rattle.dr_script.specs.Ranges.{HasGroupRanges};
ghost use Rattle.dr_quorum.specs.{Ballots.better, Handing.handed_by};

use crate::borrowed::BorrowedLists;
use crate::handing::lacking;
use dr_entry::{Entry, MAX_MEMBERS, Vote};
use dr_script::Script;
use dr_words::Mask;

/// Whether a vote of a view of these members names the next one.
fn names_next(roster: u8, age: u16, view: u8, members: Mask, vote: &Vote) -> bool
    requires some { 1 ≤ roster }
    requires most { roster ≤ MAX_MEMBERS }
    ensures { result ≡ names_next roster age view members vote.now }
{
    vote.age == age
        && vote.view == view
        && vote.members == roster
        && vote.value.leavers != 0
        && Mask::of(vote.value.leavers)
            .without(Mask::all(roster))
            .bits()
            == 0
        && members.next(Mask::of(vote.value.leavers)).bits() != 0
}

/// The vote of the higher ballot, and the first one where these are equal.
fn better(best: Option<Vote>, vote: &Vote) -> Option<Vote>
    ensures { result ≡ Some (better best vote.now) }
{
    match best {
        Some(first) => {
            if first.ballot < vote.ballot {
                Some(vote.copy())
            } else {
                Some(first)
            }
        }
        None => Some(vote.copy()),
    }
}

/// The votes on the log of a member, where it was handed in.
fn votes_of<'a>(lists: &[Option<BorrowedLists<'a>>], member: usize) -> &'a [Vote]
    ensures { result.now ≡ option_map_or (λ log. log.votes) (handed_by lists.now member) [] }
{
    match lists.get(member) {
        Some(Some(log)) => log.votes(),
        _ => &[],
    }
}

/// The best of the votes so far and of those among these that name the next view.
fn best_among(
    best: Option<Vote>,
    votes: &[Vote],
    roster: u8,
    age: u16,
    view: u8,
    members: Mask,
) -> Option<Vote>
    requires some { 1 ≤ roster }
    requires most { roster ≤ MAX_MEMBERS }
    ensures { (before : List VoteOf) → best ≡ highest before
        → result ≡ highest (before ++ filter (names_next roster age view members) votes.now) }
{
    let mut best = best;
    for vote in votes {
        if names_next(roster, age, view, members, vote) {
            best = better(best, vote);
        }
    }
    best
}

/// The first vote of the highest ballot that names the view after one of these members.
fn best_vote(
    lists: &[Option<BorrowedLists>],
    roster: u8,
    age: u16,
    view: u8,
    members: Mask,
) -> Option<Vote>
    requires some { 1 ≤ roster }
    requires most { roster ≤ MAX_MEMBERS }
    ensures { result ≡ highest (next_votes (handed_by lists.now) roster age view members) }
{
    let mut best = None;
    for m in 0..MAX_MEMBERS {
        if members.has(m as u8) {
            best = best_among(best, votes_of(lists, m), roster, age, view, members);
        }
    }
    best
}

/// The members of the view after one of these members, where a vote names it.
fn next_view(
    lists: &[Option<BorrowedLists>],
    roster: u8,
    age: u16,
    view: u8,
    members: Mask,
) -> Option<Mask>
    requires some { 1 ≤ roster }
    requires most { roster ≤ MAX_MEMBERS }
    ensures { result ≡ next_on_path (handed_by lists.now) roster age view members }
{
    match best_vote(lists, roster, age, view, members) {
        Some(vote) => Some(members.next(Mask::of(vote.value.leavers))),
        None => None,
    }
}

/// The first view on the path from View 0 with these members of which too few have handed in their logs: its
/// number, how many have, and how many are needed.
fn find_lacking(
    lists: &[Option<BorrowedLists>],
    roster: u8,
    age: u16,
    first: Mask,
) -> Option<(u8, u8, u8)>
    requires some { 1 ≤ roster }
    requires most { roster ≤ MAX_MEMBERS }
    ensures none { IfNone result (HasPath roster (handed_by lists.now) age first) }
    ensures some { IfSome result (λ x. LacksPath roster (handed_by lists.now) age first x.0 x.1 x.2) }
{
    let mut members = first;
    for view in 0..u8::MAX {
        if let Some((have, need)) = lacking(lists, members) {
            return Some((view, have, need));
        }
        match next_view(lists, roster, age, view, members) {
            Some(next) => members = next,
            None => return None,
        }
    }
    match lacking(lists, members) {
        Some((have, need)) => Some((u8::MAX, have, need)),
        None => None,
    }
}

/// The members of View 0 of an age, where an entry is this View.
fn members_in(entry: &Entry, age: u16) -> Option<u16>
    ensures some { IfSome result (λ members. entry.now ≡ View age 0 members) }
    ensures none { IfNone result ((members : ℕ) → entry.now ≡ View age 0 members → ⊥) }
{
    match entry {
        Entry::View {
            age: of,
            number,
            members,
        } => {
            if *of == age && *number == 0 {
                Some(*members)
            } else {
                None
            }
        }
        Entry::Msg { .. } => None,
    }
}

/// The members of View 0 of an age, where these entries have one.
fn first_members(entries: &[Entry], age: u16) -> Option<u16>
    ensures some { IfSome result (λ members. Contains entries.now (View age 0 members)) }
    ensures none { IfNone result ((members : ℕ) → Contains entries.now (View age 0 members) → ⊥) }
{
    for entry in entries {
        if let Some(members) = members_in(entry, age) {
            return Some(members);
        }
    }
    None
}

/// The first view on the path, from View 0 of an age on these entries, of which too few have handed in their
/// logs.
pub(crate) fn find_short_view(
    script: &Script,
    lists: &[Option<BorrowedLists>],
    age: u16,
    entries: &[Entry],
) -> Option<(u8, u8, u8)>
    requires ranges { HasGroupRanges script.now }
    requires stand { AllStand (first_group_of script.now).opening entries.now }
    ensures none { IfNone result ((first : ℕ) → Contains entries.now (View age 0 first)
        → HasPath (length script.now.messages) (handed_by lists.now) age first) }
    ensures some { IfSome result (λ x. (first : ℕ) × Contains entries.now (View age 0 first)
        × LacksPath (length script.now.messages) (handed_by lists.now) age first x.0 x.1 x.2) }
{
    match first_members(entries, age) {
        Some(first) => find_lacking(lists, script.members, age, Mask::of(first)),
        None => None,
    }
}
