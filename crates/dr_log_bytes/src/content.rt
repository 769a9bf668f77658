//! What is on a log.
ghost use Rattle.std.specs.Prelude.{◌≡◌, ◌↔◌, ◌+◌, ◌<◌, ◌^◌, IsTrue, OnOk};
ghost use Rattle.dr_log_bytes.specs.Content.{IsPlaced, MayFollow, block_length, empty_of, with_record};

use dr_entry::{AgeVote, Entry, Record, Vote};
use std::alloc::{AllocError, Global};
use std::marker::Model;

/// The length of a log without a record: its first bytes, and a closed gate.
pub const EMPTY: u64 = 9;

/// What is on a log: its entries, its votes and its age votes, each kind in order, whether it is of the newer
/// format, and how long it is, up to the closed gate, with it.
#[derive(Debug, Drop)]
pub struct Content {
    pub entries: Vec<Entry>,
    pub votes: Vec<Vote>,
    pub age_votes: Vec<AgeVote>,
    pub newer: bool,
    pub len: u64,
}

impl Model for Content {
    ghost use Rattle.dr_log_bytes.specs.Content.{OnLog};

    ghost Value = { OnLog };

    ghost view = { λ a. record {
      entries = a.entries.items;
      votes = a.votes.items;
      age_votes = a.age_votes.items;
      newer = a.newer;
      length = a.len;
    } };
}

impl Content {
    /// What is on a log without a record.
    pub fn empty(alloc: Global, newer: bool) -> Content
        ensures { result ≡ empty_of newer }
    {
        Content {
            entries: Vec::new(alloc),
            votes: Vec::new(alloc),
            age_votes: Vec::new(alloc),
            newer,
            len: EMPTY,
        }
    }

    /// Whether a record may stand behind those that made this. Any other is misplaced.
    pub fn may_take(&self, r: &Record) -> bool
        ensures { IsTrue result ↔ IsPlaced self.now r.now }
    {
        may_follow(self.newer, self.entries.len(), r)
    }

    /// Takes one record more, which has so many bytes with its gate.
    ///
    /// # Errors
    ///
    /// Want of memory alone.
    pub fn take(&mut self, r: Record, size: u64) -> Result<(), AllocError>
        requires size { size ≡ block_length r }
        requires small { self.old.length + size < 2 ^ 64 }
        ensures { OnOk result (self.new ≡ with_record r self.old) }
    {
        match r {
            Record::Entry(entry) => self.entries.push(entry)?,
            Record::Vote(vote) => self.votes.push(vote)?,
            Record::AgeVote(vote) => self.age_votes.push(vote)?,
            Record::Cut { keep } => self.entries.truncate(keep as usize),
            Record::Upgrade => self.newer = true,
        }
        self.len += size;
        Ok(())
    }
}

/// Whether a record may stand on a log of this format behind so many entries.
pub fn may_follow(newer: bool, entries: usize, r: &Record) -> bool
    ensures { IsTrue result ↔ MayFollow newer entries r.now }
{
    match r {
        Record::Entry(_) | Record::Vote(_) => true,
        Record::AgeVote(_) => newer,
        Record::Cut { keep } => newer && *keep as usize <= entries,
        Record::Upgrade => !newer,
    }
}
