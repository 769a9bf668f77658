//! What stands on logs, where it stands.
ghost use Rattle.std.specs.Prelude.{◌≡◌};

use dr_entry::{AgeVote, Entry, Vote};
use std::marker::Model;

/// What stands on the log of a member, as in `LogLists`, but that nothing is copied.
#[derive(Drop)]
pub struct BorrowedLists<'a> {
    entries: &'a [Entry],
    votes: &'a [Vote],
    age_votes: &'a [AgeVote],
}

impl<'a> Model for BorrowedLists<'a> {
    ghost use Rattle.dr_restart.specs.declared.lists.LogLists.{LogLists};

    ghost Value = { LogLists };

    ghost view = { λ a. record {
      entries = a.entries.now;
      votes = a.votes.now;
      age_votes = a.age_votes.now;
    } };
}

impl<'a> BorrowedLists<'a> {
    /// The lists of what stands on a log: its logged entries, its votes on trims and its votes for ages, each
    /// in the log's order.
    pub fn new(
        entries: &'a [Entry],
        votes: &'a [Vote],
        age_votes: &'a [AgeVote],
    ) -> BorrowedLists<'a>
        ensures entries { result.entries ≡ entries.now }
        ensures votes { result.votes ≡ votes.now }
        ensures age_votes { result.age_votes ≡ age_votes.now }
    {
        BorrowedLists {
            entries,
            votes,
            age_votes,
        }
    }

    pub(crate) fn entries(&self) -> &'a [Entry]
        ensures { result.now ≡ self.now.entries }
    {
        self.entries
    }

    pub(crate) fn votes(&self) -> &'a [Vote]
        ensures { result.now ≡ self.now.votes }
    {
        self.votes
    }

    pub(crate) fn age_votes(&self) -> &'a [AgeVote]
        ensures { result.now ≡ self.now.age_votes }
    {
        self.age_votes
    }
}
