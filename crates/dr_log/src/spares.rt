//! For how many more records there is room.

ghost use Rattle.std.specs.Prelude.{◌≡◌, ◌-◌, ◌≤◌, max};
ghost use Rattle.dr_log.specs.State.{as_entry, as_other, as_vote};

use dr_entry::Record;

/// For how many records of the other kinds there always is room: an age vote, an upgrade and a cut.
const OTHERS: usize = 3;

/// For how many more entries, votes and other records there is room.
#[derive(Clone, Copy, Debug)]
pub(crate) struct Spares {
    pub entries: usize,
    pub votes: usize,
    pub others: usize,
}

impl Spares {
    /// For none.
    pub(crate) fn none() -> Spares
        ensures { result ≡ record { entries = 0; votes = 0; others = 0 } }
    {
        Spares {
            entries: 0,
            votes: 0,
            others: 0,
        }
    }

    /// These, or more: for so many entries and votes at least, and for all of the other kinds.
    pub(crate) fn at_least(self, entries: usize, votes: usize) -> Spares
        ensures { result ≡ record {
          entries = max self.entries entries;
          votes = max self.votes votes;
          others = max self.others 3;
        } }
    {
        Spares {
            entries: self.entries.max(entries),
            votes: self.votes.max(votes),
            others: self.others.max(OTHERS),
        }
    }

    /// Takes one, of the record's kind.
    #[inline(always)]
    pub(crate) fn spend(&mut self, r: &Record)
        requires entry { as_entry r.now ≤ self.old.entries }
        requires vote { as_vote r.now ≤ self.old.votes }
        requires other { as_other r.now ≤ self.old.others }
        ensures entries { self.new.entries ≡ self.old.entries - as_entry r.now }
        ensures votes { self.new.votes ≡ self.old.votes - as_vote r.now }
        ensures others { self.new.others ≡ self.old.others - as_other r.now }
    {
        match r {
            Record::Entry(_) => self.entries -= 1,
            Record::Vote(_) => self.votes -= 1,
            Record::AgeVote(_) | Record::Cut { .. } | Record::Upgrade => self.others -= 1,
        }
    }
}
