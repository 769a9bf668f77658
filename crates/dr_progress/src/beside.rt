//! The watcher beside which a progress is told of a run.
ghost use Rattle.std.specs.Prelude.{◌≡◌};
ghost use Rattle.dr_progress.specs.Progress.{MaySay};

use crate::progress::Progress;
use crate::timer::Timer;
use dr_io::Sink;
use dr_member::Member;
use dr_restart::Start;
use dr_sim::Watcher;

/// The progress is told as one turn of a member begins, and then of none of so many.
const TURNS: u32 = 63;

/// Tells a watcher all, and a progress the ages and now and then a turn.
#[derive(Drop)]
pub(crate) struct Beside<'w, 'p, W: Watcher, T: Timer, K: Sink> {
    pub watcher: &'w mut W,
    pub progress: &'p mut Progress<T, K>,
    /// Of how many turns it isn't told before the next one.
    pub turns: u32,
}

impl<W: Watcher, T: Timer, K: Sink> Beside<'_, '_, W, T, K> {
    /// A member, which has begun so many turns, is about to begin the next one.
    #[inline(never)]
    fn look(&mut self, turns: u32)
        ensures progress { MaySay turns self.old.progress.now self.new.progress.now }
        ensures same_progress { self.new.progress.ghost_name ≡ self.old.progress.ghost_name }
        ensures watcher { self.new.watcher.now ≡ self.old.watcher.now }
        ensures same_watcher { self.new.watcher.ghost_name ≡ self.old.watcher.ghost_name }
    {
        match self.turns.checked_sub(1) {
            Some(left) => self.turns = left,
            None => {
                self.turns = TURNS;
                self.progress.look(turns);
            }
        }
    }
}

impl<W: Watcher, T: Timer, K: Sink> Watcher for Beside<'_, '_, W, T, K> {
    ghost use Rattle.std.specs.Prelude.{◌≡◌};
    ghost use Rattle.dr_progress.specs.Progress.{MaySay};

    ghost opens = { λ old start new. W.opens old.watcher.now start new.watcher.now
        × (new.progress.now ≡ record old.progress.now { age = start.age })
        × (new.watcher.ghost_name ≡ old.watcher.ghost_name)
        × (new.progress.ghost_name ≡ old.progress.ghost_name) };

    ghost sees = { λ old member table new. W.sees old.watcher.now member table new.watcher.now
        × MaySay member.replica.turns old.progress.now new.progress.now
        × (new.watcher.ghost_name ≡ old.watcher.ghost_name)
        × (new.progress.ghost_name ≡ old.progress.ghost_name) };

    ghost closes = { λ old members table new. W.closes old.watcher.now members table new.watcher.now
        × (new.progress.now ≡ old.progress.now)
        × (new.watcher.ghost_name ≡ old.watcher.ghost_name)
        × (new.progress.ghost_name ≡ old.progress.ghost_name) };

    fn open(&mut self, start: &Start) {
        self.watcher.open(start);
        self.progress.open(start.age);
    }

    #[inline(always)]
    fn takes_note(&self) -> bool {
        self.watcher.takes_note()
    }

    #[inline(always)]
    fn see(&mut self, member: &Member, table: &[u64]) {
        self.watcher.see(member, table);
        if member.at_beat() {
            self.look(member.turns());
        }
    }

    fn close(&mut self, members: &[Option<Member>], table: &[u64]) {
        self.watcher.close(members, table);
    }
}
