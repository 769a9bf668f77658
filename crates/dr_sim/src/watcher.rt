//! Watchers of simulated ages.
//!
//! A watcher is told before a deed, since what it does is read off the member and the table then
//! (`next_step`); behind it the step would have to be guessed from two states. The loops know nothing of what
//! it does with it: it says by a relation what becomes of it, and contracts tie the relations to the moves of
//! the run, so there is one loop, with one proof, whether anybody watches or not.
//!
//! In a sweep nobody can be told between two deeds, so a member sweeps only before a watcher that takes note
//! of none. Such a one promises that its relation holds with it unchanged, whatever the deed; so contracts
//! are the same for both, and `sim` pays nothing for a watcher that it doesn't have. Threads have none: which
//! deeds they took is written down nowhere.
ghost use Rattle.std.specs.Prelude.{◌≡◌, ◌≤◌, ℕ, List, None, Option, Some, false, length};
ghost use Rattle.dr_program.specs.{Form.IsRunningMember, Presence.present_at, Running.Running};
ghost use Rattle.dr_member.specs.Deeds.{table_size};
ghost use Rattle.dr_restart.specs.declared.start.Start.{Start};
ghost use Rattle.dr_sim.specs.Watched.{TakesNoNote};

use dr_member::Member;
use dr_restart::Start;

/// Who is told of a simulated age: of its opening, of each deed of its members right before it is done, and
/// of how all stand once they have ended. It changes nothing of the run.
pub trait Watcher {
    // What becomes of it as it is told that an age opens.
    ghost opens: { Self → Start → Self → Type 0 };

    // What becomes of it as it is told of a deed, by the member and the words of the table before it.
    ghost sees: { Self → Running → List ℕ → Self → Type 0 };

    // What becomes of it as it is told how the members and the table stand at the end.
    ghost closes: { Self → List (Option Running) → List ℕ → Self → Type 0 };

    /// An age opens from this start.
    fn open(&mut self, start: &Start)
        ensures { opens self.old start.now self.new };

    /// Whether it takes note of deeds. One that doesn't is not told of all of them, and so a run in lockstep
    /// may take several at once.
    fn takes_note(&self) -> bool
        ensures { result ≡ false → TakesNoNote sees self.now };

    /// The member, which has not ended, is about to do its next deed, over these words of the table.
    fn see(&mut self, member: &Member, table: &[u64])
        requires going { member.now.replica.end ≡ None }
        requires form { IsRunningMember member.now }
        requires size { table_size member.now ≤ length table.now }
        ensures { sees self.old member.now table.now self.new };

    /// All members have ended, and this is the table. There is no member at the place of one that is absent.
    fn close(&mut self, members: &[Option<Member>], table: &[u64])
        requires form { (m : ℕ) (r : Running) → present_at members.now m ≡ Some r → IsRunningMember r }
        requires size { (m : ℕ) (r : Running) → present_at members.now m ≡ Some r
            → table_size r ≤ length table.now }
        ensures { closes self.old members.now table.now self.new };
}

/// A watcher that takes note of nothing.
#[derive(Drop)]
pub struct Unwatched;

impl Watcher for Unwatched {
    ghost opens = { λ old start new. old ≡ new };

    ghost sees = { λ old member table new. old ≡ new };

    ghost closes = { λ old members table new. old ≡ new };

    #[inline(always)]
    fn open(&mut self, _start: &Start) {}

    #[inline(always)]
    fn takes_note(&self) -> bool {
        false
    }

    #[inline(always)]
    fn see(&mut self, _member: &Member, _table: &[u64]) {}

    #[inline(always)]
    fn close(&mut self, _members: &[Option<Member>], _table: &[u64]) {}
}
