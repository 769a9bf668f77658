ghost use Rattle.std.specs.Prelude.{◌≡◌, ℕ, ◌<◌, ◌↔◌, true, IsTrue};
ghost use Rattle.dr_history.specs.Members.{has};
ghost use Rattle.dr_words.specs.{Columns.recv_column, Masks.IsInRoster, Packing.is_final};
ghost use Rattle.dr_rows.specs.Words.{seen};

use crate::Watch;
use crate::column::{all_done, all_final, all_promise, any_suspects, least_word};
use dr_entry::MAX_MEMBERS;
use dr_rows::Rows;
use dr_words::{DONE_COLUMN, LOGGED_COLUMN, Mask, RECEIVED_COLUMN, SUSPECTED_COLUMN, Shape};

/// Every received word of the members is above `at`.
#[derive(Clone, Copy, Debug, PartialEq, Eq)]
pub struct ReceivedFront {
    pub members: Mask,
    pub at: u64,
}

impl Watch for ReceivedFront {
    ghost use Rattle.dr_words.specs.declared.column.TheConstants.{RECEIVED_COLUMN};
    ghost use Rattle.std.proofs.Common.{le_trans};
    ghost use Rattle.dr_pred.specs.Group.{IsOfGroup};
    ghost use Rattle.dr_pred.specs.Watches.{AllReceivedAbove};

    ghost fits = { λ w rows. IsOfGroup rows × IsInRoster rows.members w.members };

    ghost waits_for = { λ w rows. AllReceivedAbove w.members w.at rows };

    ghost lasts = { λ w old new f g grown holds i member.
        le_trans (holds i member) (grown.grown.words i RECEIVED_COLUMN).number };

    fn holds(&self, rows: &Rows) -> bool {
        least_word(rows, self.members, RECEIVED_COLUMN).is_none_or(|least| least > self.at)
    }
}

/// Every logged word of the members is at least `at`.
#[derive(Clone, Copy, Debug, PartialEq, Eq)]
pub struct LoggedFront {
    pub members: Mask,
    pub at: u64,
}

impl Watch for LoggedFront {
    ghost use Rattle.dr_words.specs.declared.column.TheConstants.{LOGGED_COLUMN};
    ghost use Rattle.std.proofs.Common.{le_trans};
    ghost use Rattle.dr_pred.specs.Group.{IsOfGroup};
    ghost use Rattle.dr_pred.specs.Watches.{AllLogged};

    ghost fits = { λ w rows. IsOfGroup rows × IsInRoster rows.members w.members };

    ghost waits_for = { λ w rows. AllLogged w.members w.at rows };

    ghost lasts = { λ w old new f g grown holds i member.
        le_trans (holds i member) (grown.grown.words i LOGGED_COLUMN).number };

    fn holds(&self, rows: &Rows) -> bool {
        least_word(rows, self.members, LOGGED_COLUMN).is_none_or(|least| least >= self.at)
    }
}

/// In the rows of the members of `of`, every count of the `senders` is final.
#[derive(Clone, Copy, Debug, PartialEq, Eq)]
pub struct AllFinal {
    pub shape: Shape,
    pub of: Mask,
    pub senders: Mask,
}

impl AllFinal {
    ghost use Rattle.dr_pred.specs.Group.{IsOfShape};

    // Whether the counts of a sender are final.
    fn is_final(&self, rows: &Rows, sender: u8) -> bool
        requires shape { IsOfShape self.now.shape rows.now }
        requires of { IsInRoster rows.now.members self.now.of }
        requires sender { sender < rows.now.members }
        ensures { IsTrue result ↔ ((i : ℕ) → has self.now.of i ≡ true
            → is_final (seen rows.now i (recv_column sender)) ≡ true) }
    {
        let mut words = [0; MAX_MEMBERS];
        let column = self.shape.recv_column(sender);
        let count = rows.column_of(column, self.of.bits(), &mut words);
        all_final(&words[..count])
    }
}

impl Watch for AllFinal {
    ghost use Rattle.dr_words.proofs.Lasting.{final_lasts};
    ghost use Rattle.dr_pred.specs.Group.{IsOfShape};
    ghost use Rattle.dr_pred.specs.Watches.{AllCountsFinal};

    ghost fits = { λ w rows. IsOfShape w.shape rows × IsInRoster rows.members w.of
        × IsInRoster rows.members w.senders };

    ghost waits_for = { λ w rows. AllCountsFinal w.of w.senders rows };

    ghost lasts = { λ w old new f g grown holds i s member sender.
        final_lasts old.members s (seen old i (recv_column s)) (seen new i (recv_column s))
        (grown.grown.words i (recv_column s)) (f.2 s sender) (holds i s member sender) };

    fn holds(&self, rows: &Rows) -> bool {
        for sender in 0..MAX_MEMBERS as u8 {
            if self.senders.has(sender) && !self.is_final(rows, sender) {
                return false;
            }
        }
        true
    }
}

/// In the rows of the members of `of`, the accept word of the leavers and those of the trims of the
/// `senders` have a promise of at least `promise`.
#[derive(Clone, Copy, Debug, PartialEq, Eq)]
pub struct PromisedAt {
    pub shape: Shape,
    pub of: Mask,
    pub senders: Mask,
    pub promise: u8,
}

impl PromisedAt {
    ghost use Rattle.dr_pred.specs.Group.{IsOfShape};
    ghost use Rattle.dr_pred.specs.Watches.{Promises};

    // Whether the accept words of a column have the promise.
    fn is_promised(&self, rows: &Rows, column: usize) -> bool
        requires shape { IsOfShape self.now.shape rows.now }
        requires of { IsInRoster rows.now.members self.now.of }
        requires column { column < rows.now.columns }
        ensures { IsTrue result ↔ ((i : ℕ) → has self.now.of i ≡ true
            → Promises rows.now self.now.promise i column) }
    {
        let mut words = [0; MAX_MEMBERS];
        let count = rows.column_of(column, self.of.bits(), &mut words);
        all_promise(&words[..count], self.promise)
    }
}

impl Watch for PromisedAt {
    ghost use Rattle.std.proofs.Common.{sym, subst};
    ghost use Rattle.dr_words.proofs.Lasting.{promise_lasts};
    ghost use Rattle.dr_words.specs.Columns.{leavers_column, trim_column};
    ghost use Rattle.dr_pred.specs.Watches.{Promises};
    ghost use Rattle.dr_pred.specs.Group.{IsOfShape};
    ghost use Rattle.dr_pred.specs.Watches.{AllPromised};

    ghost fits = { λ w rows. IsOfShape w.shape rows × IsInRoster rows.members w.of
        × IsInRoster rows.members w.senders };

    ghost waits_for = { λ w rows. AllPromised w.of w.senders w.promise rows };

    ghost lasts = { λ w old new f g grown holds. record {
      leavers = λ i member. subst (λ (n : ℕ). Promises new w.promise i (leavers_column n))
          (sym grown.members)
          (promise_lasts old.members (leavers_column old.members) w.promise _ _
          (grown.grown.words i (leavers_column old.members)) (holds.leavers i member));
      trims = λ i s member sender. subst (λ (n : ℕ). Promises new w.promise i (trim_column n s))
          (sym grown.members)
          (promise_lasts old.members (trim_column old.members s) w.promise _ _
          (grown.grown.words i (trim_column old.members s)) (holds.trims i s member sender));
    } };

    fn holds(&self, rows: &Rows) -> bool {
        for sender in 0..MAX_MEMBERS as u8 {
            if self.senders.has(sender) && !self.is_promised(rows, self.shape.trim_column(sender)) {
                return false;
            }
        }
        self.is_promised(rows, self.shape.leavers_column())
    }
}

/// Some of the members suspects member `name`.
#[derive(Clone, Copy, Debug, PartialEq, Eq)]
pub struct SomeSuspect {
    pub members: Mask,
    pub name: u8,
}

impl Watch for SomeSuspect {
    ghost use Rattle.dr_words.specs.declared.column.TheConstants.{SUSPECTED_COLUMN};
    ghost use Rattle.std.proofs.Common.{refl};
    ghost use Rattle.dr_pred.specs.Group.{IsOfGroup};
    ghost use Rattle.dr_pred.specs.Watches.{IsSuspected};

    ghost fits = { λ w rows. IsOfGroup rows × IsInRoster rows.members w.members
        × (w.name < rows.members) };

    ghost waits_for = { λ w rows. IsSuspected w.members w.name rows };

    ghost lasts = { λ w old new f g grown holds. (
      holds.0,
      holds.1,
      (grown.grown.words holds.0 SUSPECTED_COLUMN).suspected refl w.name holds.2,
    ) };

    fn holds(&self, rows: &Rows) -> bool {
        let mut words = [0; MAX_MEMBERS];
        let count = rows.column_of(SUSPECTED_COLUMN, self.members.bits(), &mut words);
        any_suspects(&words[..count], self.name)
    }
}

/// Every done word of the members is 1.
#[derive(Clone, Copy, Debug, PartialEq, Eq)]
pub struct AllDone {
    pub members: Mask,
}

impl Watch for AllDone {
    ghost use Rattle.dr_words.specs.declared.column.TheConstants.{DONE_COLUMN};
    ghost use Rattle.dr_words.proofs.Lasting.{done_lasts};
    ghost use Rattle.dr_pred.specs.Group.{IsOfGroup};
    ghost use Rattle.dr_pred.specs.Watches.{AllAreDone};

    ghost fits = { λ w rows. IsOfGroup rows × IsInRoster rows.members w.members };

    ghost waits_for = { λ w rows. AllAreDone w.members rows };

    ghost lasts = { λ w old new f g grown holds i member.
        done_lasts old.members new.members (seen old i DONE_COLUMN) (seen new i DONE_COLUMN)
        (grown.grown.words i DONE_COLUMN) (g.0.form i DONE_COLUMN) (holds i member) };

    fn holds(&self, rows: &Rows) -> bool {
        let mut words = [0; MAX_MEMBERS];
        let count = rows.column_of(DONE_COLUMN, self.members.bits(), &mut words);
        all_done(&words[..count])
    }
}
