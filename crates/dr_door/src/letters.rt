//! Letters for late members, as they come.
ghost use Rattle.std.specs.Prelude.{◌≡◌, ◌≤◌, ◌↔◌, All, IsTrue, length};
ghost use Rattle.dr_door.specs.Letters.{Suits, is_fitting, may_enter};
ghost use Rattle.dr_entry.specs.Spelling.{IsValidEntry};
ghost use Rattle.dr_form.specs.Letters.{IsFitting};

use dr_entry::{Entry, MAX_MEMBERS, MAX_MESSAGE_LENGTH};
use dr_install::{first_unsent, last_view};
use dr_oracle::is_prefix;
use dr_replica::Replica;
use dr_words::Mask;

/// Whether a letter begins with the history of a member that hasn't joined, has valid entries alone, and fits it.
pub(crate) fn suits(replica: &Replica, letter: &[Entry]) -> bool
    ensures { IsTrue result ↔ Suits replica.now letter.now }
{
    if !is_prefix(replica.history(), letter) {
        return false;
    }
    if !are_valid(letter) {
        return false;
    }
    does_fit(replica, letter)
}

/// Whether all of these entries are valid.
fn are_valid(entries: &[Entry]) -> bool
    ensures { IsTrue result ↔ All IsValidEntry entries.now }
{
    for i in 0..entries.len() {
        if !is_valid(&entries[i]) {
            return false;
        }
    }
    true
}

/// Whether an entry is valid.
fn is_valid(entry: &Entry) -> bool
    ensures { IsTrue result ↔ IsValidEntry entry.now }
{
    match entry {
        Entry::View { members, .. } => *members > 0,
        Entry::Msg { sender, bytes, .. } => {
            usize::from(*sender) < MAX_MEMBERS && bytes.bytes().len() <= MAX_MESSAGE_LENGTH
        }
    }
}

/// Whether a letter that is no shorter than the member's history fits it.
fn does_fit(replica: &Replica, letter: &[Entry]) -> bool
    requires { length replica.now.history ≤ length letter.now }
    ensures { IsTrue result ↔ IsFitting replica.now letter.now }
{
    fit_test(replica, letter)
}

/// The test of that: there is room for it, it has no more messages of the member than that has, and its last View is
/// one that the member may come into.
fn fit_test(replica: &Replica, letter: &[Entry]) -> bool
    ensures { result ≡ is_fitting replica.now letter.now }
{
    let me = replica.me();
    if replica.room() < letter.len() {
        return false;
    }
    if replica.own_messages() < first_unsent(letter, me) as usize {
        return false;
    }
    let (view, members) = last_view(letter);
    may_enter(replica, view, members)
}

/// Whether a view of this number and of these members is one that the member may come into.
fn may_enter(replica: &Replica, view: u8, members: Mask) -> bool
    ensures { result ≡ may_enter replica.now (view, members) }
{
    let me = replica.me();
    let shape = replica.shape();
    let all = Mask::all(shape.members).bits();
    0 < view && view < shape.banks && members.bits() <= all && members.has(me)
}
