ghost use Rattle.std.specs.Prelude.{◌≡◌, ◌≢◌, ℕ, ◌*◌, ◌<◌, ◌≤◌, ◌==◌, ◌&&◌, ◌||◌, ◌↔◌, not, true, false, length, nat_lt, IsTrue, MatchOption};
ghost use Rattle.dr_history.specs.Members.{has, members_of};
ghost use Rattle.dr_words.specs.declared.column.TheConstants.{SUSPECTED_COLUMN};
ghost use Rattle.dr_words.specs.Masks.{IsPartOf, with_member, without};
ghost use Rattle.dr_rows.specs.Words.{seen};
ghost use Rattle.dr_suspect.specs.{Answers.{AreOfGroup, IsLeastOrNone, least_where}, Wishes.may_wish};
ghost use Rattle.dr_suspect.specs.Suspicion.{IsNextSpread, IsSuspicion, is_unsuspected, names_me, spread_of, spreads, trusting, unsuspected_of};

use crate::others::{common, either, others};
use crate::wish::wishable;
use dr_entry::{Entry, MAX_MEMBERS};
use dr_rows::Rows;
use dr_words::{Mask, SUSPECTED_COLUMN};
use std::marker::Model;

/// Whom one member suspects of having stopped, and whom it wishes for: a late member that isn't in the view.
///
/// It never suspects itself. A suspicion may be wrong, and is never taken back: who is suspected is left behind,
/// stopped or not.
#[derive(Debug, Drop)]
pub struct Suspects {
    me: u8,
    members: Mask,
    suspects: Mask,
}

impl Model for Suspects {
    ghost use Rattle.dr_suspect.specs.Suspicion.{Suspicion, IsSuspicion};

    ghost Value = { Suspicion };

    ghost view = { λ s. record { me = s.me; members = s.members; suspects = s.suspects } };

    ghost invariant = { λ s. IsSuspicion (record { me = s.me; members = s.members; suspects = s.suspects }) };
}

impl Suspects {
    /// Member `me`, which has the view with these members, suspects nobody.
    pub fn new(me: u8, members: Mask) -> Suspects
        requires number { me < MAX_MEMBERS }
        ensures value { result ≡ trusting me members }
        ensures nobody { (i : ℕ) → has result.suspects i ≡ false }
        ensures form { IsSuspicion result }
    {
        Suspects {
            me,
            members,
            suspects: Mask::empty(),
        }
    }

    /// The members that it suspects or wishes for.
    #[inline]
    pub fn mask(&self) -> Mask
        ensures value { result ≡ self.now.suspects }
        ensures form { IsSuspicion self.now }
    {
        self.suspects
    }

    /// The members of the view that it does not suspect, itself among them.
    #[inline]
    pub fn unsuspected(&self) -> Mask
        ensures members { result ≡ without self.now.members self.now.suspects }
        ensures each { (i : ℕ) → has result i ≡ is_unsuspected self.now i }
        ensures list { members_of result ≡ unsuspected_of self.now }
        ensures part { IsPartOf result self.now.members }
        ensures me { has self.now.members self.now.me ≡ true → has result self.now.me ≡ true }
    {
        self.members.without(self.suspects)
    }

    /// Suspects another member of the view, or wishes for one that isn't in it.
    pub fn add(&mut self, other: u8)
        requires number { other < MAX_MEMBERS }
        requires other { other ≢ self.old.me }
        ensures rest { self.new ≡ record self.old { suspects = self.new.suspects } }
        ensures suspects { self.new.suspects ≡ with_member self.old.suspects other }
        ensures grows { self.old.suspects ≤ self.new.suspects }
        ensures form { IsSuspicion self.new }
    {
        self.suspects = self.suspects.with(other);
    }

    /// The least unsuspected row whose suspected word names this member.
    ///
    /// Such a member is still trusted here, and goes on without this one.
    pub fn named_by(&self, rows: &Rows) -> Option<u8>
        requires { AreOfGroup self.now.members rows.now }
        ensures value { result ≡ least_where (names_me self.now rows.now) }
        ensures least { IsLeastOrNone (names_me self.now rows.now) result }
    {
        let unsuspected = self.unsuspected();
        for row in 0..MAX_MEMBERS as u8 {
            if unsuspected.has(row) && self.named_in(rows, row).has(self.me) {
                return Some(row);
            }
        }
        None
    }

    /// The member to suspect or to wish for next. The least unsuspected row that names another member of which
    /// that may be says it, and of those that it names it is the least.
    ///
    /// So a suspicion is taken over from any unsuspected member, and never from a suspected one. A wish is taken
    /// over for a late member that is in no View of this age in the history.
    pub fn next_spread(&self, rows: &Rows, late: Mask, history: &[Entry], age: u16) -> Option<u8>
        requires { AreOfGroup self.now.members rows.now }
        ensures value { result ≡ spread_of self.now (may_wish history.now age late) rows.now }
        ensures next { MatchOption result
            ((row member : ℕ) → spreads self.now (may_wish history.now age late) rows.now row member ≡ false)
            (IsNextSpread self.now (may_wish history.now age late) rows.now) }
    {
        let unsuspected = self.unsuspected();
        let inside = self.unnamed(self.members);
        let outside = self.unnamed(late.without(self.members));
        for row in 0..MAX_MEMBERS as u8 {
            if unsuspected.has(row) {
                let named = self.named_in(rows, row);
                // The history is gone through for a wish alone that is new here.
                let wished = wishable(history, age, common(named, outside));
                if let Some(member) = either(common(named, inside), wished).least() {
                    return Some(member);
                }
            }
        }
        None
    }

    /// Whether the row is that of an unsuspected member that names this one.
    pub fn is_named_by(&self, rows: &Rows, row: u8) -> bool
        requires row { row < rows.now.members }
        requires rows { AreOfGroup self.now.members rows.now }
        ensures { result ≡ names_me self.now rows.now row }
    {
        self.unsuspected().has(row) && self.named_in(rows, row).has(self.me)
    }

    /// Whether the unsuspected members are more than half of the view. Exactly half is no majority.
    pub fn has_majority(&self) -> bool
        ensures value { result ≡ nat_lt (length (members_of self.now.members))
            (2 * length (members_of (without self.now.members self.now.suspects))) }
        ensures majority { IsTrue result ↔
            (length (members_of self.now.members) < 2 * length (unsuspected_of self.now)) }
    {
        self.unsuspected().is_majority_of(self.members)
    }

    // The others among these members that it doesn't suspect or wish for so far.
    fn unnamed(&self, members: Mask) -> Mask
        ensures { (i : ℕ) → has result i
            ≡ (has members i && (not (i == self.now.me) && not (has self.now.suspects i))) }
    {
        others(members.without(self.suspects), self.me)
    }

    // The members that the suspected word of a row names.
    fn named_in(&self, rows: &Rows, row: u8) -> Mask
        requires row { row < rows.now.members }
        requires rows { AreOfGroup self.now.members rows.now }
        ensures { result ≡ seen rows.now row SUSPECTED_COLUMN }
    {
        Mask::of(rows.seen(row, SUSPECTED_COLUMN) as u16)
    }
}
