ghost use Rattle.std.specs.Prelude.{◌≡◌, ◌<◌};
ghost use Rattle.dr_entry.specs.declared.limits.TheConstants.{MAX_MEMBERS};
ghost use Rattle.dr_words.specs.declared.column.TheConstants.{BEAT_COLUMN, DONE_COLUMN};
ghost use Rattle.dr_suspect.specs.Answers.{AreOfGroup, IsLeastOrNone, least_where};
ghost use Rattle.dr_suspect.specs.Waits.{IsWaits, begun, compared, is_late, is_overdue};

use crate::others::others;
use dr_entry::MAX_MEMBERS;
use dr_rows::Rows;
use dr_words::{BEAT_COLUMN, DONE_COLUMN, Mask};
use std::marker::Model;

/// For how many turns a member has seen no news of each other member, and how many it waits for.
///
/// A member that acts goes on to raise its beat, so its row brings news as long as it runs and is seen.
/// One that is done acts no more, and isn't waited for.
#[derive(Debug, Drop)]
pub struct Patience {
    limit: u32,
    counts: [u32; MAX_MEMBERS],
    beats: [u64; MAX_MEMBERS],
}

impl Model for Patience {
    ghost use Rattle.dr_suspect.specs.Waits.{Waits, IsWaits};

    ghost Value = { Waits };

    ghost view = { λ p. record { limit = p.limit; counts = p.counts; beats = p.beats } };

    ghost invariant = { λ p. IsWaits (record { limit = p.limit; counts = p.counts; beats = p.beats }) };
}

impl Patience {
    /// The wait begins. With the limit 0 it has no end.
    pub fn new(limit: u32) -> Patience
        ensures value { result ≡ begun limit }
        ensures form { IsWaits result }
    {
        Patience {
            limit,
            counts: [0; MAX_MEMBERS],
            beats: [0; MAX_MEMBERS],
        }
    }

    /// A row has been seen whole: compares its beat with the one that it compared last, and keeps it. The
    /// same beat again is a turn without news.
    #[inline]
    pub fn compare(&mut self, rows: &Rows, row: u8)
        requires row { row < rows.now.members }
        requires most { row < MAX_MEMBERS }
        requires column { BEAT_COLUMN < rows.now.columns }
        ensures after { self.new ≡ compared self.old rows.now row }
        ensures form { IsWaits self.new }
    {
        let beat = rows.seen(row, BEAT_COLUMN);
        let row = usize::from(row);
        self.counts[row] = if beat == self.beats[row] {
            self.counts[row].saturating_add(1)
        } else {
            0
        };
        self.beats[row] = beat;
    }

    /// The least other unsuspected row that is waited for too long: without news for as many turns as
    /// the limit says, and not done.
    pub fn overdue(&self, unsuspected: Mask, rows: &Rows) -> Option<u8>
        requires { AreOfGroup unsuspected rows.now }
        ensures value { result ≡ least_where (is_overdue self.now rows.now unsuspected) }
        ensures least { IsLeastOrNone (is_overdue self.now rows.now unsuspected) result }
    {
        if self.limit == 0 {
            return None;
        }
        let awaited = others(unsuspected, rows.me());
        for row in 0..MAX_MEMBERS as u8 {
            if awaited.has(row) && self.is_late(rows, row) {
                return Some(row);
            }
        }
        None
    }

    /// Begins the wait anew, with the same limit.
    pub fn reset(&mut self)
        ensures after { self.new ≡ begun self.old.limit }
        ensures form { IsWaits self.new }
    {
        *self = Patience::new(self.limit);
    }

    // Whether the count of a row has reached the limit, and its member isn't done.
    fn is_late(&self, rows: &Rows, row: u8) -> bool
        requires row { row < rows.now.members }
        requires most { row < MAX_MEMBERS }
        requires column { DONE_COLUMN < rows.now.columns }
        ensures { result ≡ is_late self.now rows.now row }
    {
        self.counts[usize::from(row)] >= self.limit && rows.seen(row, DONE_COLUMN) == 0
    }
}
