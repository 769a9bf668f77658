ghost use Rattle.std.specs.Prelude.{◌≡◌, ℕ, ◌+◌, ◌<◌, ◌≤◌};
ghost use Rattle.dr_entry.specs.declared.limits.TheConstants.{MAX_MEMBERS};
ghost use Rattle.dr_words.specs.Columns.{columns_of, recv_column, leavers_column, trim_column, head_column, body_column};
ghost use Rattle.dr_words.specs.Layout.{words_of, word_index_of};

use crate::PIECES;

/// The shape of a group's table: how many members the roster has, how many slots a ring has, and how
/// many banks, one for each view of an age, there are.
#[derive(Clone, Copy, Debug, PartialEq, Eq)]
pub struct Shape {
    /// The members of the roster, 1 to `MAX_MEMBERS`.
    pub members: u8,
    /// The slots of a ring, 1 to 8.
    pub window: u8,
    /// The banks of the table.
    pub banks: u8,
    ghost some_member: { 1 ≤ members },
    ghost most_members: { members ≤ MAX_MEMBERS },
    ghost some_slot: { 1 ≤ window },
    ghost most_slots: { window ≤ 8 },
}

impl Shape {
    /// The number of columns of a row.
    #[inline]
    pub const fn columns(&self) -> usize
        ensures { result ≡ columns_of self.now.members self.now.window }
    {
        6 + 2 * self.members as usize + PIECES * self.window as usize
    }

    /// The number of words of the table.
    #[inline]
    pub const fn words(&self) -> usize
        ensures { result ≡ words_of self.now.members self.now.window self.now.banks }
    {
        let members = self.members as usize;
        self.banks as usize * members * members * self.columns()
    }

    /// The index of a word in the table: of this row and column, in the copy that member `copy` reads,
    /// in this bank.
    #[inline]
    pub const fn word_index(&self, bank: u8, copy: u8, row: u8, column: usize) -> usize
        requires bank { bank < self.now.banks }
        requires copy { copy < self.now.members }
        requires row { row < self.now.members }
        requires column { column < columns_of self.now.members self.now.window }
        ensures value { result ≡ word_index_of self.now.members self.now.window bank copy row column }
        ensures within { result < words_of self.now.members self.now.window self.now.banks }
        ensures one_to_one { (b c r k : ℕ) → c < self.now.members → r < self.now.members
            → k < columns_of self.now.members self.now.window
            → word_index_of self.now.members self.now.window b c r k ≡ result
            → (b ≡ bank) × (c ≡ copy) × (r ≡ row) × (k ≡ column) }
    {
        let members = self.members as usize;
        let place = (bank as usize * members + copy as usize) * members + row as usize;
        place * self.columns() + column
    }

    /// The column of the recv word of a sender: how many items of it the owner has received.
    #[inline]
    pub const fn recv_column(&self, sender: u8) -> usize
        requires { sender < self.now.members }
        ensures value { result ≡ recv_column sender }
        ensures within { result < columns_of self.now.members self.now.window }
    {
        5 + sender as usize
    }

    /// The column of the accept word whose value is the mask of those that leave or come.
    #[inline]
    pub const fn leavers_column(&self) -> usize
        ensures value { result ≡ leavers_column self.now.members }
        ensures within { result < columns_of self.now.members self.now.window }
    {
        5 + self.members as usize
    }

    /// The column of the accept word whose value is the trim of a sender.
    #[inline]
    pub const fn trim_column(&self, sender: u8) -> usize
        requires { sender < self.now.members }
        ensures value { result ≡ trim_column self.now.members sender }
        ensures within { result < columns_of self.now.members self.now.window }
    {
        6 + self.members as usize + sender as usize
    }

    /// The column of the head word of a slot.
    #[inline]
    pub const fn head_column(&self, slot: u8) -> usize
        requires { slot < self.now.window }
        ensures value { result ≡ head_column self.now.members slot }
        ensures within { result < columns_of self.now.members self.now.window }
    {
        6 + 2 * self.members as usize + PIECES * slot as usize
    }

    /// The column of a body word of a slot; `part` counts them from 0.
    #[inline]
    pub const fn body_column(&self, slot: u8, part: u8) -> usize
        requires slot { slot < self.now.window }
        requires part { part + 1 < PIECES }
        ensures value { result ≡ body_column self.now.members slot part }
        ensures within { result < columns_of self.now.members self.now.window }
    {
        7 + 2 * self.members as usize + PIECES * slot as usize + part as usize
    }
}
