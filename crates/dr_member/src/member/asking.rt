//! What a member is asked by whoever watches it.
ghost use Rattle.std.specs.Prelude.{◌≡◌, None};
ghost use Rattle.dr_program.specs.Running.{next_step};

use super::Member;
use crate::search::{Due, due_at};
use dr_machine::Step;
use dr_replica::Replica;

impl Member {
    /// Its replica: what it has and has seen.
    pub fn replica(&self) -> &Replica
        ensures { result.now ≡ self.now.replica }
    {
        &self.replica
    }

    /// The step that is due to the member, which has not ended.
    pub fn step(&self) -> Step
        requires { self.now.replica.end ≡ None }
        ensures { result ≡ next_step self.now }
    {
        let row = self.place.row;
        let column = self.place.column;
        match due_at(&self.replica, &self.fate, self.place) {
            Due::Look => Step::Look { row, column },
            Due::Push => Step::Push { to: row, column },
            Due::Append => Step::Append,
            Due::Vote => Step::LogVote {
                value: self.replica.value_due(),
            },
            Due::Give => Step::Welcome { late: row },
            Due::Take => Step::Join,
            Due::Act(act) => Step::Do(act),
        }
    }
}
