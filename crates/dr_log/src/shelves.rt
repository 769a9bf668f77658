//! What is on a log, each kind in a list of its own, with places for more.

ghost use Rattle.std.specs.Prelude.{◌≡◌, ◌+◌, ◌≤◌, ◌<◌, ◌^◌, ◌++◌, ◌∷◌, [], IsOk, OnOk, length, vec_len, vec_capacity};
ghost use Rattle.dr_log.specs.{Shelved.{HasPlaces, KeepsPlaces}, Standing.{entries_length, with_entries}};
ghost use Rattle.dr_log.specs.State.{as_entry, as_other, as_vote};
ghost use Rattle.dr_log_bytes.specs.Content.{block_length, with_record};

use crate::spares::Spares;
use dr_entry::{AgeVote, Entry, Record, Vote};
use dr_log_bytes::Content;
use std::alloc::AllocError;
use std::marker::Model;

/// What is on a log: each kind of record in order, whether the log is of the newer format, and how long it is.
#[derive(Debug, Drop)]
pub(crate) struct Shelves {
    entries: Vec<Entry>,
    votes: Vec<Vote>,
    age_votes: Vec<AgeVote>,
    newer: bool,
    len: u64,
}

impl Model for Shelves {
    ghost use Rattle.std.specs.Prelude.{vec_capacity};
    ghost use Rattle.dr_log.specs.Shelved.{Shelved};

    ghost Value = { Shelved };

    ghost view = { λ a. record {
      content = record {
        entries = a.entries.items;
        votes = a.votes.items;
        age_votes = a.age_votes.items;
        newer = a.newer;
        length = a.len;
      };
      entry_places = vec_capacity a.entries;
      vote_places = vec_capacity a.votes;
      age_vote_places = vec_capacity a.age_votes;
    } };
}

impl Shelves {
    /// What was found on a disk.
    pub(crate) fn of(content: Content) -> Shelves
        ensures { result.content ≡ content }
    {
        let Content {
            entries,
            votes,
            age_votes,
            newer,
            len,
        } = content;
        Shelves {
            entries,
            votes,
            age_votes,
            newer,
            len,
        }
    }

    /// The entries, in order.
    pub(crate) fn entries(&self) -> &[Entry]
        ensures { result.now ≡ self.now.content.entries }
    {
        self.entries.as_slice()
    }

    /// The votes, in order.
    pub(crate) fn votes(&self) -> &[Vote]
        ensures { result.now ≡ self.now.content.votes }
    {
        self.votes.as_slice()
    }

    /// The age votes, in order.
    pub(crate) fn age_votes(&self) -> &[AgeVote]
        ensures { result.now ≡ self.now.content.age_votes }
    {
        self.age_votes.as_slice()
    }

    /// Whether the log is of the newer format.
    pub(crate) fn is_newer(&self) -> bool
        ensures { result ≡ self.now.content.newer }
    {
        self.newer
    }

    /// The number of bytes up to the closed gate, with it.
    pub(crate) fn len(&self) -> u64
        ensures { result ≡ self.now.content.length }
    {
        self.len
    }

    /// Makes places for so many records more.
    ///
    /// # Errors
    ///
    /// Want of memory alone.
    pub(crate) fn reserve(&mut self, spares: Spares) -> Result<(), AllocError>
        ensures content { self.new.content ≡ self.old.content }
        ensures kept { KeepsPlaces self.old self.new }
        ensures places { OnOk result (HasPlaces self.new spares) }
    {
        self.entries.reserve(spares.entries)?;
        self.votes.reserve(spares.votes)?;
        self.age_votes.reserve(spares.others)
    }

    /// Takes one record more, which has so many bytes with its gate, into a place that there is.
    #[inline(always)]
    pub(crate) fn take(&mut self, r: Record, size: u64)
        requires size { size ≡ block_length r }
        requires small { self.old.content.length + size < 2 ^ 64 }
        requires entry { length self.old.content.entries + as_entry r ≤ self.old.entry_places }
        requires vote { length self.old.content.votes + as_vote r ≤ self.old.vote_places }
        requires age_vote { length self.old.content.age_votes + as_other r ≤ self.old.age_vote_places }
        ensures content { self.new.content ≡ with_record r self.old.content }
        ensures kept { KeepsPlaces self.old self.new }
    {
        match r {
            Record::Entry(entry) => self.entries.push(entry).unwrap(),
            Record::Vote(vote) => self.votes.push(vote).unwrap(),
            Record::AgeVote(vote) => self.age_votes.push(vote).unwrap(),
            Record::Cut { keep } => self.entries.truncate(keep as usize),
            Record::Upgrade => self.newer = true,
        }
        self.len += size;
    }

    /// Takes entries, which have so many bytes with their gates, into places that there are.
    pub(crate) fn take_all(&mut self, first: &[Entry], last: &Entry, size: u64)
        requires size { size ≡ entries_length (first.now ++ last.now ∷ []) }
        requires small { self.old.content.length + size < 2 ^ 64 }
        requires places { length self.old.content.entries + (length first.now + 1) ≤ self.old.entry_places }
        ensures content { self.new.content ≡ with_entries (first.now ++ last.now ∷ []) self.old.content }
        ensures kept { KeepsPlaces self.old self.new }
    {
        push_all(first, last, &mut self.entries).unwrap();
        self.len += size;
    }
}

/// Puts entries behind others, where there is room for them.
fn push_all(first: &[Entry], last: &Entry, entries: &mut Vec<Entry>) -> Result<(), AllocError>
    ensures entries { OnOk result (entries.new.items ≡ entries.old.items ++ (first.now ++ last.now ∷ [])) }
    ensures places { vec_capacity entries.old ≤ vec_capacity entries.new }
    ensures room { (vec_len entries.old + (length first.now + 1) ≤ vec_capacity entries.old) → IsOk result }
{
    for i in 0..first.len() {
        entries.push(first[i].copy())?;
    }
    entries.push(last.copy())?;
    Ok(())
}
