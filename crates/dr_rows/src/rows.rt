ghost use Rattle.std.specs.Prelude.{◌≡◌, ◌≢◌, ℕ, ◌+◌, ◌-◌, ◌*◌, ◌<◌, ◌≤◌, false, true, IfOk, length, map, slice_index, take};
ghost use Rattle.dr_history.specs.Members.{has, members_of};

use dr_entry::MAX_MEMBERS;
use dr_history::has;
use std::alloc::{AllocError, Global};
use std::marker::Model;

/// One member's own words, the words that it last saw of each other member, and for each member
/// the own words that were last pushed to it.
///
/// Rows go by the members' numbers. Words only grow, and a row that is frozen stays as it is.
#[derive(Debug, Drop)]
pub struct Rows {
    members: u8,
    columns: usize,
    me: u8,
    /// The own words, by column.
    own: Vec<u64>,
    /// The words of all rows, also of the own one, column by column, so that a question to many rows
    /// finds its words side by side.
    words: Vec<u64>,
    /// What was last pushed to each member, row by row, since pushes go by row.
    sent: Vec<u64>,
    frozen: Vec<bool>,
}

impl Model for Rows {
    ghost use Rattle.dr_rows.specs.Words.{Words};

    ghost Value = { Words };

    ghost use Rattle.dr_rows.specs.Inside.{IsInsideRows, rows_inside};

    ghost view = { rows_inside };

    ghost invariant = { IsInsideRows };
}

impl Rows {
    ghost use Rattle.dr_rows.specs.Along.{looked_along, pushed_along};
    ghost use Rattle.dr_rows.specs.Growth.{IsFresh, RowsGrew};
    ghost use Rattle.dr_rows.specs.Words.{IsWords, begun, changed, is_frozen, last_pushed, looked, own, pushed, renewed, row_of, seen, with_frozen, with_own};

    /// The rows of member `me` in a group of 1 to [`MAX_MEMBERS`] members, with at most 1,024 columns.
    /// All words are 0, and no row is frozen. No later call takes memory.
    pub fn new(alloc: Global, members: u8, columns: usize, me: u8) -> Result<Rows, AllocError>
        requires members { members ≤ MAX_MEMBERS }
        requires columns { columns ≤ 1024 }
        requires me { me < members }
        ensures begun { IfOk result (λ rows. rows ≡ begun members columns me) }
        ensures fresh { IfOk result IsFresh }
        ensures form { IfOk result IsWords }
    {
        let places = usize::from(members) * columns;
        Ok(Rows {
            members,
            columns,
            me,
            own: vec![in alloc; 0; columns]?,
            words: vec![in alloc; 0; places]?,
            sent: vec![in alloc; 0; places]?,
            frozen: vec![in alloc; false; usize::from(members)]?,
        })
    }

    /// The number of the own member, which never changes.
    #[inline]
    pub fn me(&self) -> u8
        ensures me { result ≡ self.now.me }
        ensures form { IsWords self.now }
    {
        self.me
    }

    /// The own word of a column.
    #[inline]
    pub fn own(&self, column: usize) -> u64
        requires { column < self.now.columns }
        ensures { result ≡ own self.now column }
    {
        self.own[column]
    }

    /// The own words, by column.
    pub fn own_words(&self) -> &[u64]
        ensures { result.now ≡ row_of self.now.words self.now.me }
    {
        self.own.as_slice()
    }

    /// Sets the own word of a column to `word`, which is not smaller.
    #[inline]
    pub fn set_own(&mut self, column: usize, word: u64)
        requires column { column < self.old.columns }
        requires grown { own self.old column ≤ word }
        ensures after { self.new ≡ with_own self.old column word }
        ensures grown { RowsGrew self.old self.new }
        ensures form { IsWords self.new }
    {
        let cell = self.cell(self.me, column);
        self.own[column] = word;
        self.words[cell] = word;
    }

    /// The word of a column that was last seen of a member, or the own word in the own row.
    #[inline]
    pub fn seen(&self, row: u8, column: usize) -> u64
        requires row { row < self.now.members }
        requires column { column < self.now.columns }
        ensures { result ≡ seen self.now row column }
    {
        self.words[self.cell(row, column)]
    }

    /// The words that were last seen of a row, or the own ones in the own row, from a column on, and how far they
    /// stand apart: the word of each column is so many places behind that of the column before.
    #[inline(always)]
    pub fn seen_from(&self, row: u8, column: usize) -> (&[u64], usize)
        requires row { row < self.now.members }
        requires column { column < self.now.columns }
        ensures words { (i : ℕ) → column + i < self.now.columns
            → slice_index result.0.now (i * result.1) ≡ seen self.now row (column + i) }
        ensures within { (i : ℕ) → column + i < self.now.columns → i * result.1 < length result.0.now }
        ensures apart { result.1 ≡ self.now.members }
        ensures few { result.1 ≤ MAX_MEMBERS }
    {
        let words = self.words.as_slice();
        (&words[self.cell(row, column)..], usize::from(self.members))
    }

    /// Puts the words that the rows of these members have in a column to the front of `into`, ascending
    /// by member, and answers how many they are.
    pub fn column_of(&self, column: usize, members: u16, into: &mut [u64; MAX_MEMBERS]) -> usize
        requires column { column < self.now.columns }
        requires members { (i : ℕ) → has members i ≡ true → i < self.now.members }
        ensures words { take result into.new
            ≡ map (λ i. seen self.now i column) (members_of members) }
        ensures count { result ≡ length (members_of members) }
        ensures within { result ≤ MAX_MEMBERS }
    {
        let first = column * usize::from(self.members);
        let mut count = 0;
        for member in 0..self.members {
            if has(members, member) {
                into[count] = self.words[first + usize::from(member)];
                count += 1;
            }
        }
        count
    }

    /// Takes a word that was seen of another member, whose row is not frozen. The word is not
    /// smaller than the one last seen.
    #[inline]
    pub fn look(&mut self, row: u8, column: usize, word: u64)
        requires row { row < self.old.members }
        requires column { column < self.old.columns }
        requires other { row ≢ self.old.me }
        requires unfrozen { is_frozen self.old row ≡ false }
        requires grown { seen self.old row column ≤ word }
        ensures after { self.new ≡ looked self.old row column word }
        ensures grown { RowsGrew self.old self.new }
        ensures form { IsWords self.new }
    {
        let cell = self.cell(row, column);
        self.words[cell] = word;
    }

    /// Freezes the row of another member: no look changes it any more.
    pub fn freeze(&mut self, row: u8)
        requires row { row < self.old.members }
        requires other { row ≢ self.old.me }
        ensures after { self.new ≡ with_frozen self.old row }
        ensures grown { RowsGrew self.old self.new }
        ensures form { IsWords self.new }
    {
        let row = usize::from(row);
        self.frozen[row] = true;
    }

    /// Whether the row of a member is frozen.
    pub fn is_frozen(&self, row: u8) -> bool
        requires { row < self.now.members }
        ensures { result ≡ is_frozen self.now row }
    {
        self.frozen[usize::from(row)]
    }

    /// Whether the own word of a column differs from the one last pushed to the member `to`.
    #[inline]
    pub fn changed(&self, to: u8, column: usize) -> bool
        requires to { to < self.now.members }
        requires column { column < self.now.columns }
        ensures { result ≡ changed self.now to column }
    {
        self.own(column) != self.last_pushed(to, column)
    }

    /// Notes that the own word of a column was pushed to the member `to`.
    #[inline]
    pub fn pushed(&mut self, to: u8, column: usize)
        requires to { to < self.old.members }
        requires column { column < self.old.columns }
        ensures after { self.new ≡ pushed self.old to column }
        ensures grown { RowsGrew self.old self.new }
        ensures form { IsWords self.new }
    {
        let word = self.own(column);
        let place = self.place(to, column);
        self.sent[place] = word;
    }

    /// Takes the words of another member's row, from a column on, as [`Rows::look`] takes one. They stand in
    /// a table, the one of column 0 at the index `first`.
    #[inline(always)]
    pub fn look_row(&mut self, row: u8, from: usize, table: &[u64], first: usize)
        requires row { row < self.old.members }
        requires from { from ≤ self.old.columns }
        requires other { row ≢ self.old.me }
        requires unfrozen { is_frozen self.old row ≡ false }
        requires within { first + self.old.columns ≤ length table.now }
        requires grown { (c : ℕ) → from ≤ c → c < self.old.columns
            → seen self.old row c ≤ slice_index table.now (first + c) }
        ensures after { self.new
            ≡ looked_along row table.now first self.old from (self.old.columns - from) }
        ensures grown { RowsGrew self.old self.new }
        ensures form { IsWords self.new }
    {
        let columns = self.columns;
        let members = usize::from(self.members);
        let mut cell = from * members + usize::from(row);
        let words = self.words.as_mut_slice();
        for column in from..columns {
            words[cell] = table[first + column];
            cell += members;
        }
    }

    /// Pushes the own words that have changed, from a column on, to the member `to`, and notes it, as
    /// [`Rows::pushed`] does for one. In the table the word of column 0 stands at the index `first`. Answers
    /// how many they were.
    #[inline(always)]
    pub fn push_row(&mut self, to: u8, from: usize, table: &mut [u64], first: usize) -> u32
        requires to { to < self.old.members }
        requires from { from ≤ self.old.columns }
        requires within { first + self.old.columns ≤ length table.old }
        ensures after { let done = pushed_along to first
            (record { words = self.old; table = table.old; count = 0 }) from (self.old.columns - from) in
            (self.new ≡ done.words) × (table.new ≡ done.table) × (result ≡ done.count) }
        ensures grown { RowsGrew self.old self.new }
        ensures form { IsWords self.new }
    {
        let columns = self.columns;
        let row = usize::from(to) * columns;
        let own = self.own.as_slice();
        let sent = self.sent.as_mut_slice();
        let mut count = 0;
        // Without a branch, so that two words are pushed at once.
        for column in from..columns {
            let word = own[column];
            let there = table[first + column];
            let changed = word != sent[row + column];
            sent[row + column] = word;
            table[first + column] = if changed { word } else { there };
            count += u32::from(changed);
        }
        count
    }

    /// Makes all words 0 and all rows unfrozen, as at the beginning.
    pub fn renew(&mut self)
        ensures after { self.new ≡ renewed self.old }
        ensures fresh { IsFresh self.new }
        ensures form { IsWords self.new }
    {
        self.own.fill(0);
        self.words.fill(0);
        self.sent.fill(0);
        self.frozen.fill(false);
    }

    /// The own word of a column that was last pushed to the member `to`.
    #[inline]
    fn last_pushed(&self, to: u8, column: usize) -> u64
        requires to { to < self.now.members }
        requires column { column < self.now.columns }
        ensures { result ≡ last_pushed self.now to column }
    {
        self.sent[self.place(to, column)]
    }

    /// The place of a row's column among the pushed words.
    #[inline]
    fn place(&self, row: u8, column: usize) -> usize
        requires row { row < self.now.members }
        requires column { column < self.now.columns }
        ensures place { result ≡ row * self.now.columns + column }
        ensures within { result < self.now.members * self.now.columns }
    {
        usize::from(row) * self.columns + column
    }

    /// The place of a row's column among the words.
    #[inline]
    fn cell(&self, row: u8, column: usize) -> usize
        requires row { row < self.now.members }
        requires column { column < self.now.columns }
        ensures place { result ≡ column * self.now.members + row }
        ensures within { result < self.now.members * self.now.columns }
    {
        column * usize::from(self.members) + usize::from(row)
    }
}
