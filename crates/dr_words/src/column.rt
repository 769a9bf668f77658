//! The columns of a row whose place is the same in every group, and how many words a slot has.
ghost use Rattle.std.specs.Prelude.{◌≡◌, ℕ, ◌+◌, ◌*◌};
ghost use Rattle.dr_words.specs.Columns.{columns_of, recv_column, leavers_column, trim_column, head_column, body_column};
ghost use Rattle.dr_words.specs.Layout.{words_of, word_index_of};

/// The column of the beat word: the number of acts that the member has done.
pub const BEAT_COLUMN: usize = 0;

/// The column of the suspected word: the mask of the members that the row's owner suspects or wishes for.
pub const SUSPECTED_COLUMN: usize = 1;

/// The column of the received word: the front of the owner's counts.
pub const RECEIVED_COLUMN: usize = 2;

/// The column of the logged word: the number of entries on the owner's log.
pub const LOGGED_COLUMN: usize = 3;

/// The column of the done word, which is 0 or 1.
pub const DONE_COLUMN: usize = 4;

/// The number of words of a ring's slot: its head, and 16 that hold four bytes of the body each.
pub const PIECES: usize = 17;

/// The law of the columns: where each word of a row stands, in numbers.
pub fn column_law()
    ensures beat { BEAT_COLUMN ≡ 0 }
    ensures suspected { SUSPECTED_COLUMN ≡ 1 }
    ensures received { RECEIVED_COLUMN ≡ 2 }
    ensures logged { LOGGED_COLUMN ≡ 3 }
    ensures done { DONE_COLUMN ≡ 4 }
    ensures recv { (sender : ℕ) → recv_column sender ≡ 5 + sender }
    ensures leavers { (members : ℕ) → leavers_column members ≡ 5 + members }
    ensures trim { (members sender : ℕ) → trim_column members sender ≡ 6 + members + sender }
    ensures head { (members slot : ℕ) → head_column members slot ≡ 6 + 2 * members + 17 * slot }
    ensures body { (members slot part : ℕ)
        → body_column members slot part ≡ 7 + 2 * members + 17 * slot + part }
    ensures columns { (members window : ℕ) → columns_of members window ≡ 6 + 2 * members + 17 * window }
{}

/// The law of the table: banks, copies and rows follow one another in this order, each row whole.
pub fn layout_law()
    ensures words { (members window banks : ℕ) → words_of members window banks
        ≡ banks * members * members * (6 + 2 * members + 17 * window) }
    ensures index { (members window bank copy row column : ℕ)
        → word_index_of members window bank copy row column
        ≡ ((bank * members + copy) * members + row) * (6 + 2 * members + 17 * window) + column }
{}
