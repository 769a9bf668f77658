//! Laws of members and their logs.
ghost use Rattle.std.specs.Prelude.{◌≡◌, ℕ, false, List, [], Option, length, None, Some};
ghost use Rattle.dr_entry.specs.declared.entry.Entry.{Entry};
ghost use Rattle.dr_disk.specs.{Disk.{Told, content_of}, Images.ReadsAnImage};
ghost use Rattle.dr_served.specs.{Appended.{HasAppended, HasBroken, IsAppendDue, IsOver, is_append}, Left.IsLeftOf};
ghost use Rattle.dr_served.specs.Appended.{HasAppendedAll, HasBrokenAll, HasLoggedAll};
ghost use Rattle.dr_served.specs.Served.{HasCome, HasServed, IsReady, IsRoomy, LetterGoesOn};
ghost use Rattle.dr_log.specs.State.{LogState};
ghost use Rattle.dr_log_bytes.specs.{Content.OnLog, Grammar.StandFor};
ghost use Rattle.dr_program.specs.{Form.HasForm, Replica.Replica, declared.outcome.LogWhy.LogWhy};
ghost use Rattle.dr_program.specs.Running.{Running, after_step, broken_off, next_step, settled, took_letter, AsksForLetter};
ghost use Rattle.dr_program.specs.declared.outcome.LogWhy.TheVariants as whys;
ghost use Rattle.dr_machine.specs.declared.step.Step.TheVariants.{Append};

use dr_disk::Disk;

/// A log that has all of its member's history, and got room, has served a member that has not voted so far,
/// and is ready.
pub fn logs_begin<D: Disk>()
    ensures { (old new : LogState D) (r : Running) → IsRoomy D.told D.faults r old new
        → old.failed ≡ false → old.content.entries ≡ r.replica.history
        → r.replica.logged ≡ length r.replica.history → r.replica.votes ≡ [] → r.failed ≡ None
        → HasServed D.told D.faults old new r × IsReady new r }
{}

/// A deed of the member, which has not ended, other than an append leaves its log ready, and served.
pub fn other_deeds_leave_logs<D: Disk>()
    ensures { (base log : LogState D) (word : ℕ) (r : Running) → is_append (next_step r) ≡ false
        → r.replica.end ≡ None → HasForm r.replica → IsReady log r → HasServed D.told D.faults base log r
        → HasServed D.told D.faults base log (after_step word r) × IsReady log (after_step word r) }
{}

/// Nor does a take of such a member put anything on its log: where it finds a letter, that goes on from the history of
/// the member, so what is logged still stands at its beginning.
pub fn takes_leave_logs<D: Disk>()
    ensures { (base log : LogState D) (letter : Option (List Entry)) (r : Running) → AsksForLetter r
        → HasForm r.replica → LetterGoesOn r.replica.history letter → IsReady log r
        → HasServed D.told D.faults base log r
        → HasServed D.told D.faults base log (settled (took_letter letter r))
        × IsReady log (settled (took_letter letter r)) }
{}

/// An append that goes well puts the next entry of the history, or a vote, on the log. One that the disk
/// fails, or for which there is no room, leaves the log with what it had, and is told by the member.
pub fn appends_serve_logs<D: Disk>()
    ensures well { (base log new : LogState D) (word : ℕ) (r : Running) → IsAppendDue r → IsReady log r
        → HasServed D.told D.faults base log r → HasAppended D.told D.faults log new r
        → HasServed D.told D.faults base new (after_step word r) × IsReady new (after_step word r) }
    ensures failed { (base log new : LogState D) (r : Running) → IsAppendDue r
        → HasServed D.told D.faults base log r → HasBroken D.told D.faults log new r
        → HasServed D.told D.faults base new (broken_off whys.DiskFault r) }
    ensures full { (base log : LogState D) (r : Running) (len : ℕ) → IsAppendDue r
        → HasServed D.told D.faults base log r → IsOver log len r
        → HasServed D.told D.faults base log (broken_off (whys.LogFull len) r) }
    ensures ready { (log : LogState D) (why : LogWhy) (r : Running) → IsReady log (broken_off why r) }
{}

/// So it is with all entries of its history that are due, where they are appended together and the member then logs
/// them one by one.
pub fn groups_serve_logs<D: Disk>()
    ensures well { (base log new : LogState D) (r q : Running) → IsAppendDue r → next_step r ≡ Append
        → IsReady log r → HasServed D.told D.faults base log r → HasAppendedAll D.told D.faults log new r → HasLoggedAll r q
        → HasServed D.told D.faults base new q × IsReady new q }
    ensures failed { (base log new : LogState D) (r : Running) → IsAppendDue r
        → HasServed D.told D.faults base log r → HasBrokenAll D.told D.faults log new r
        → HasServed D.told D.faults base new (broken_off whys.DiskFault r) }
{}

/// What a mount finds on the disk of a log, once its member has ended, is what the member has logged. Where
/// the last append has failed it may be the next entry of the history besides, or all of the history.
pub fn logs_are_left<D: Disk>()
    ensures { (base log : LogState D) (r : Replica) (found : OnLog) (why : Option LogWhy) (told : Told)
        → HasCome D.told D.faults base log r why → D.told log.disk ≡ Some told → ReadsAnImage told
        → StandFor (content_of told) found → IsLeftOf r.history r.logged found.entries }
{}
