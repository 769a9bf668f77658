//! The try in which a seat is.
ghost use Rattle.std.specs.Prelude.{◌≡◌, ◌<◌, IfSome, option_copied};
ghost use Rattle.dr_seat.specs.{Openings.set_by, Roles.others_of, Starting.IsFitStart};

use crate::role::Role;
use crate::trial::{Progress, Step, Trial};
use dr_packet::Far;
use dr_words::Mask;
use std::marker::Model;

/// Whose seat it is, and the try to open an age in which it is, or the one that has opened its age.
#[derive(Drop)]
pub(crate) struct Opening {
    role: Role,
    trial: Option<Trial>,
    progress: Progress,
}

impl Model for Opening {
    ghost use Rattle.std.specs.Prelude.{◌≡◌, Some};
    ghost use Rattle.dr_seat.specs.declared.trial.Trial.{Trial};
    ghost use Rattle.dr_seat.specs.{Starting.IsFitStart, Openings.OpeningOf};

    ghost Value = { OpeningOf };

    ghost view = { λ a. record {
      role = a.role;
      trial = a.trial;
      progress = a.progress;
    } };

    ghost invariant = { λ a. (t : Trial) → a.trial ≡ Some t → IsFitStart a.role.script a.role.me t.start };
}

impl Opening {
    /// In no try.
    pub(crate) fn of(role: Role) -> Opening
        ensures role { result.role ≡ role }
        ensures none { result.trial ≡ None }
    {
        Opening {
            role,
            trial: None,
            progress: Progress::none(),
        }
    }

    pub(crate) fn role(&self) -> &Role
        ensures { result.now ≡ self.now.role }
    {
        &self.role
    }

    pub(crate) fn trial(&self) -> Option<&Trial>
        ensures value { option_copied result ≡ self.now.trial }
        ensures fit { IfSome result (λ trial. IsFitStart self.now.role.script self.now.role.me trial.now.start) }
    {
        self.trial.as_ref()
    }

    /// How far the members of its try are.
    pub(crate) fn progress(&self) -> Progress
        ensures { result ≡ self.now.progress }
    {
        self.progress
    }

    /// In this try, of which nobody has voted yet.
    pub(crate) fn enter(&mut self, trial: Trial)
        requires { IsFitStart self.old.role.script self.old.role.me trial.start }
        ensures role { self.new.role ≡ self.old.role }
        ensures trial { self.new.trial ≡ Some trial }
    {
        self.trial = Some(trial);
        self.progress = Progress::none();
    }

    /// In no try any more.
    pub(crate) fn leave(&mut self)
        ensures role { self.new.role ≡ self.old.role }
        ensures none { self.new.trial ≡ None }
    {
        self.trial = None;
    }

    /// Takes note that this goes to the log.
    pub(crate) fn writes(&mut self, step: Step)
        ensures role { self.new.role ≡ self.old.role }
        ensures trial { self.new.trial ≡ self.old.trial }
    {
        self.progress.writes(step);
    }

    /// Takes note that the log has what went to it.
    pub(crate) fn settle(&mut self)
        ensures role { self.new.role ≡ self.old.role }
        ensures trial { self.new.trial ≡ self.old.trial }
    {
        let me = self.role.me();
        self.progress.settle(me);
    }

    /// Takes note of how far another member is. Answers whether it is news.
    pub(crate) fn count(&mut self, member: u8, far: Far) -> bool
        requires { member < 16 }
        ensures role { self.new.role ≡ self.old.role }
        ensures trial { self.new.trial ≡ self.old.trial }
    {
        self.set().has(member) && self.progress.count(member, far)
    }

    /// The members of its try; nobody where it is in none.
    pub(crate) fn set(&self) -> Mask
        ensures { result ≡ set_by self.now.trial }
    {
        match &self.trial {
            Some(trial) => trial.set(),
            None => Mask::empty(),
        }
    }

    /// The others of them.
    pub(crate) fn others(&self) -> Mask
        ensures { result ≡ others_of self.now.role (set_by self.now.trial) }
    {
        self.role.others_in(self.set())
    }

    /// Whether a member that hands in so many bytes has left its try.
    pub(crate) fn is_left_by(&self, member: u8, size: u64) -> bool
        requires { member < 16 }
    {
        match &self.trial {
            Some(trial) => trial.is_left_by(member, size),
            None => false,
        }
    }

    /// Whether somebody who knows so many ages knows a later one than that of its try.
    pub(crate) fn is_behind(&self, ages: u32) -> bool {
        match &self.trial {
            Some(trial) => ages > u32::from(trial.call.age) + 1,
            None => false,
        }
    }

    /// Whether somebody who knows so many ages knows that of its try.
    pub(crate) fn is_known(&self, ages: u32) -> bool {
        match &self.trial {
            Some(trial) => ages > u32::from(trial.call.age),
            None => false,
        }
    }
}
