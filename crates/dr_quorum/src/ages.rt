//! The greatest ages that logs know.
ghost use Rattle.std.specs.Prelude.{◌≡◌, ◌+◌, IfNone, IfSome};
ghost use Rattle.dr_restart.specs.Choosing.{EndsInAge, HasAge, IsAgeAfter, IsLastAge};
ghost use Rattle.dr_quorum.specs.Handing.{handed_by};
ghost use Rattle.dr_quorum.specs.Knowing.{HasAgeVoteOf, HasViewOfAge, HasVoteOfAge, HaveNoView, IsGreatestAge, OfLog, OfSomeLog, age_of_view, later_age};

use crate::borrowed::BorrowedLists;
use dr_entry::{AgeVote, Entry, Vote};
use dr_history::view_of;

/// The greater one of two ages, or the only one.
fn later(one: Option<u16>, other: Option<u16>) -> Option<u16>
    ensures { result ≡ later_age one other }
{
    let Some(first) = one else {
        return other;
    };
    let Some(second) = other else {
        return Some(first);
    };
    if first < second {
        Some(second)
    } else {
        Some(first)
    }
}

/// The age of an entry, where it is a View.
fn age_of_view(entry: &Entry) -> Option<u16>
    ensures { result ≡ age_of_view entry.now }
{
    match entry {
        Entry::View { age, .. } => Some(*age),
        Entry::Msg { .. } => None,
    }
}

/// The greatest age of a View.
fn latest_view(entries: &[Entry]) -> Option<u16>
    ensures { IsGreatestAge (HasViewOfAge entries.now) result }
{
    let mut best = None;
    for entry in entries {
        best = later(best, age_of_view(entry));
    }
    best
}

/// The greatest age of a vote.
fn latest_vote(votes: &[Vote]) -> Option<u16>
    ensures { IsGreatestAge (HasVoteOfAge votes.now) result }
{
    let mut best = None;
    for vote in votes {
        best = later(best, Some(vote.age));
    }
    best
}

/// The greatest age of an age vote.
fn latest_age_vote(votes: &[AgeVote]) -> Option<u16>
    ensures { IsGreatestAge (HasAgeVoteOf votes.now) result }
{
    let mut best = None;
    for vote in votes {
        best = later(best, Some(vote.age));
    }
    best
}

/// The greatest age that a log knows.
fn latest_on(log: &BorrowedLists) -> Option<u16>
    ensures { IsGreatestAge (HasAge log.now) result }
{
    let voted = later(latest_vote(log.votes()), latest_age_vote(log.age_votes()));
    later(latest_view(log.entries()), voted)
}

/// So it is of a log that may be missing.
fn latest_there(list: &Option<BorrowedLists>) -> Option<u16>
    ensures { IsGreatestAge (OfLog HasAge list.now) result }
{
    match list {
        Some(log) => latest_on(log),
        None => None,
    }
}

/// The greatest age that a log knows which was handed in.
fn latest_known(lists: &[Option<BorrowedLists>]) -> Option<u16>
    ensures { IsGreatestAge (OfSomeLog HasAge (handed_by lists.now)) result }
{
    let mut best = None;
    for list in lists {
        best = later(best, latest_there(list));
    }
    best
}

/// The age after one, where there is one.
fn next_of(age: u16) -> Option<u16>
    ensures some { IfSome result (λ next. next ≡ age + 1) }
    ensures none { IfNone result (age ≡ 65535) }
{
    if age == u16::MAX { None } else { Some(age + 1) }
}

/// The age after all those that logs know, where there is one.
pub(crate) fn age_after(lists: &[Option<BorrowedLists>]) -> Option<u16>
    ensures some { IfSome result (IsAgeAfter (handed_by lists.now)) }
    ensures none { IfNone result (OfSomeLog HasAge (handed_by lists.now) 65535) }
{
    match latest_known(lists) {
        Some(age) => next_of(age),
        None => Some(0),
    }
}

/// The age of the last View of a log.
fn end_of(log: &BorrowedLists) -> Option<u16>
    ensures { IsGreatestAge (EndsInAge log.now) result }
{
    match view_of(log.entries()) {
        Some(view) => Some(view.age()),
        None => None,
    }
}

/// So it is of a log that may be missing.
fn end_there(list: &Option<BorrowedLists>) -> Option<u16>
    ensures { IsGreatestAge (OfLog EndsInAge list.now) result }
{
    match list {
        Some(log) => end_of(log),
        None => None,
    }
}

/// The greatest age of a last View.
fn latest_end(lists: &[Option<BorrowedLists>]) -> Option<u16>
    ensures { IsGreatestAge (OfSomeLog EndsInAge (handed_by lists.now)) result }
{
    let mut best = None;
    for list in lists {
        best = later(best, end_there(list));
    }
    best
}

/// The greatest age of a last View, and none where no log has a View.
pub(crate) fn last_age(lists: &[Option<BorrowedLists>]) -> Option<u16>
    ensures some { IfSome result (IsLastAge (handed_by lists.now)) }
    ensures none { IfNone result (HaveNoView (handed_by lists.now)) }
{
    latest_end(lists)
}
