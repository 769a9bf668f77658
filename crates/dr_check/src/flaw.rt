use dr_text::Clause;

/// The first thing that is wrong with a report: the clause that is broken, and the line of the text.
#[derive(Clone, Copy, Debug, PartialEq, Eq)]
pub struct Flaw {
    pub clause: Clause,
    pub line: u64,
}
