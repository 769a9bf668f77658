use dr_entry::Entry;

/// A line of a report's text, by what a report keeps of it.
#[derive(Debug, PartialEq, Eq, Drop)]
pub(crate) enum Line {
    /// An age, which started with so many entries.
    Age {
        age: u16,
        start: u64,
    },
    /// A member that took part, and its numbers of entries.
    Present {
        member: u8,
        history: u64,
        logged: u64,
        durable: u64,
    },
    /// A member that was absent.
    Absent {
        member: u8,
    },
    /// An entry of a start or of a history.
    Entry(Entry),
    /// The last line.
    Last,
}
