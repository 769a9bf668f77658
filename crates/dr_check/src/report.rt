use dr_entry::{Entry, Seq};

/// What a report tells: its ages, in their order.
#[derive(Debug, PartialEq, Eq, Drop)]
pub struct Report {
    pub ages: Seq<ReportAge>,
}

/// An age of a report: its number, the line of the text at which it stands, the entries that it started
/// with, and its members, ascending.
#[derive(Debug, PartialEq, Eq, Drop)]
pub struct ReportAge {
    pub age: u16,
    pub line: u64,
    pub start: Seq<Entry>,
    pub members: Seq<ReportMember>,
}

/// A member of an age of a report: the line at which it stands, whether it took part, its whole history, the
/// number of entries on its log, and the number of entries that it knew to be durable. One that was absent
/// has no entries, and the numbers 0.
#[derive(Debug, PartialEq, Eq, Drop)]
pub struct ReportMember {
    pub line: u64,
    pub present: bool,
    pub history: Seq<Entry>,
    pub logged: u64,
    pub durable: u64,
}
