/// A word that is on its way to a place of the table.
#[derive(Debug, Clone, Copy, PartialEq, Eq)]
pub struct Packet {
    /// The index of the place.
    pub index: usize,
    /// The word.
    pub word: u64,
}
