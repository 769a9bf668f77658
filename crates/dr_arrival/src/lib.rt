//! Words that arrive: whether one is in form for its column, and has grown from another.
//!
//! Both tests are exact. No call of this crate takes memory.
#![tactic(auto)]

ghost use Rattle.std.specs.Prelude.{◌≡◌, ◌≤◌, ◌↔◌, IsTrue};
ghost use Rattle.dr_entry.specs.declared.limits.TheConstants.{MAX_MEMBERS};
ghost use Rattle.dr_words.specs.{Form.IsInForm, Grown.HasGrown};
ghost use Rattle.dr_arrival.specs.Tests.{grown, in_form, is_accept};

use dr_words::{DONE_COLUMN, Mask, SUSPECTED_COLUMN, unpack_accept};

/// The column of the first recv word; those of the members follow one another from there.
const RECV: usize = 5;

/// Whether a word of this column is in form, where the roster has so many members.
pub fn is_in_form(members: u8, column: usize, word: u64) -> bool
    requires some { 1 ≤ members }
    requires most { members ≤ MAX_MEMBERS }
    ensures value { result ≡ in_form members column word }
    ensures exact { IsTrue result ↔ IsInForm members column word }
{
    form_test(members, column, word)
}

/// Whether a word of this column is as the older one or has grown from it, in the sense of its column.
pub fn has_grown(members: u8, column: usize, old: u64, new: u64) -> bool
    ensures value { result ≡ grown members column old new }
    ensures exact { IsTrue result ↔ HasGrown members column old new }
{
    growth_test(members, column, old, new)
}

/// The test of form, column by column.
fn form_test(members: u8, column: usize, word: u64) -> bool
    requires some { 1 ≤ members }
    requires most { members ≤ MAX_MEMBERS }
    ensures { result ≡ in_form members column word }
{
    let all = u64::from(Mask::all(members).bits());
    let leavers = RECV + usize::from(members);
    if column == SUSPECTED_COLUMN {
        return word <= all;
    }
    if column == DONE_COLUMN {
        return word <= 1;
    }
    if column < RECV || leavers + usize::from(members) < column {
        return true;
    }
    if column < leavers {
        return word < 1 << 33;
    }
    accept_test(
        members,
        if column == leavers { all } else { 0xffff_ffff },
        word,
    )
}

/// Whether an accept word is in form whose value is at most so great.
fn accept_test(members: u8, most: u64, word: u64) -> bool
    ensures { result ≡ is_accept members most word }
{
    let (promise, tag, value) = unpack_accept(word);
    promise < members && tag <= members && value <= most
}

/// The test of growth, column by column.
fn growth_test(members: u8, column: usize, old: u64, new: u64) -> bool
    ensures { result ≡ grown members column old new }
{
    if column == SUSPECTED_COLUMN {
        return old <= new && old & new == old;
    }
    if RECV <= column && column < RECV + usize::from(members) && old % 2 == 1 {
        return new == old;
    }
    old <= new
}
