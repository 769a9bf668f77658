use dr_entry::{End, Record};

/// What a member does next.
#[derive(Debug, PartialEq, Eq, Drop)]
pub enum Deed {
    /// It loads the word of the table with this index.
    Look(usize),
    /// It stores this word at this index of the table, in the copy of another member.
    Push(usize, u64),
    /// It stores the number of its acts, this one among them, at the index of its own beat word.
    Act(usize, u64),
    /// It appends this record to its log.
    Append(Record),
    /// It gives this late member the letter with which that one comes into the view.
    Give { late: u8 },
    /// It takes its letter, if there is one.
    Take,
    /// It has ended, and does nothing more.
    Rest(End),
}
