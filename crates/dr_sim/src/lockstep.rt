//! Members take whole turns, round after round.
//!
//! A turn runs over one member and the table alone. Its contract says what the turn is in every sound program
//! in which the member may stand there, so the loop holds one member, and looks it up once a turn.
ghost use Rattle.dr_program.specs.{Presence.present_at, Program.{AllEnded, has_ended}};
ghost use Rattle.std.specs.{List.range_with_len, Prelude.{◌<◌, List, length, Option, false, ◌≡◌}};
ghost use Rattle.dr_machine.specs.Group.{Group};
ghost use Rattle.dr_script.specs.declared.script.Schedule.TheVariants.{Lockstep};
ghost use Rattle.dr_log.specs.State.{LogState};
ghost use Rattle.dr_served.specs.Served.{AreReady, HaveServed, HaveSamePlaces};
ghost use Rattle.dr_sim.specs.{Simulated.HasRun, Sound.{TookTurns, all_left, TookTurn}, Watched.WasTold};
ghost use Rattle.dr_play.specs.Sound.{IsSound};

use crate::simulation::Simulation;
use crate::watcher::Watcher;
use dr_disk::Disk;
use dr_log::Log;

impl Simulation {
    /// Runs the members in lockstep to their ends: round after round, in each of which every member
    /// that has not ended takes a whole turn, by their numbers. A watcher that takes note of deeds is told of
    /// each first.
    #[inline(never)]
    pub fn run_lockstep<D: Disk, W: Watcher>(
        &mut self,
        logs: &mut [Option<Log<D>>],
        watcher: &mut W,
    )
        ghost group: { Group }
        requires sound { IsSound group self.old }
        requires ready { AreReady logs.old self.old.members }
        ensures run { (run : HasRun Lockstep self.old self.new)
            × WasTold W.sees self.old run.moves watcher.old watcher.new }
        ensures sound { IsSound group self.new }
        ensures ready { AreReady logs.new self.new.members }
        ensures places { HaveSamePlaces logs.old logs.new }
        ensures served { (bases : List (Option (LogState D)))
            → HaveServed D.told D.faults bases logs.old self.old.members
            → HaveServed D.told D.faults bases logs.new self.new.members }
    {
        while !self.all_ended() {
            self.take_round(logs, watcher);
        }
    }

    /// Each member that has not ended takes a whole turn, by their numbers.
    fn take_round<D: Disk, W: Watcher>(&mut self, logs: &mut [Option<Log<D>>], watcher: &mut W)
        ghost group: { Group }
        requires sound { IsSound group self.old }
        requires ready { AreReady logs.old self.old.members }
        ensures turns { (turns : TookTurns (range_with_len 0 (length self.old.members)) self.old self.new)
            × WasTold W.sees self.old turns.moves watcher.old watcher.new }
        ensures sound { IsSound group self.new }
        ensures falls { ¬ AllEnded self.old → all_left self.new < all_left self.old }
        ensures ready { AreReady logs.new self.new.members }
        ensures places { HaveSamePlaces logs.old logs.new }
        ensures served { (bases : List (Option (LogState D)))
            → HaveServed D.told D.faults bases logs.old self.old.members
            → HaveServed D.told D.faults bases logs.new self.new.members }
    {
        for m in 0..self.len() {
            if !self.has_ended(m) {
                self.take_turn_of(m, logs, watcher);
            }
        }
    }

    /// Member `m`, which has not ended, takes a whole turn, with the log of its number.
    fn take_turn_of<D: Disk, W: Watcher>(
        &mut self,
        m: usize,
        logs: &mut [Option<Log<D>>],
        watcher: &mut W,
    )
        ghost group: { Group }
        requires sound { IsSound group self.old }
        requires going { has_ended (present_at self.old.members m) ≡ false }
        requires within { m < length logs.old }
        requires ready { AreReady logs.old self.old.members }
        ensures took { (took : TookTurn group self.old m self.new)
            × WasTold W.sees self.old took.moves watcher.old watcher.new }
        ensures ready { AreReady logs.new self.new.members }
        ensures places { HaveSamePlaces logs.old logs.new }
        ensures served { (bases : List (Option (LogState D)))
            → HaveServed D.told D.faults bases logs.old self.old.members
            → HaveServed D.told D.faults bases logs.new self.new.members }
    {
        self.take_turn(m, &mut logs[m], watcher);
    }
}
