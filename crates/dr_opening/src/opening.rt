//! Brings logs to where an age begins.
ghost use Rattle.std.specs.Prelude.{◌≡◌, ◌<◌, ◌≤◌, ◌^◌, ℕ, All, IfErr, List, OnOk, OnErr, true, false, length, Some, Bool};
ghost use Rattle.dr_entry.specs.Spelling.{IsValidEntry};
ghost use Rattle.dr_entry.specs.declared.limits.TheConstants.{MAX_MEMBERS};
ghost use Rattle.dr_history.specs.declared.opening.Opening.{Opening};
ghost use Rattle.dr_log.specs.declared.fault.LogFault.TheVariants as logs;
ghost use Rattle.dr_log.specs.State.{LogState};
ghost use Rattle.dr_restart.specs.{Trying.IsTry, declared.lists.LogLists.LogLists as LogListsOf};
ghost use Rattle.dr_opening.specs.{CatchingUp.opened_with, Lists.{contents_of, log_of}};
ghost use Rattle.dr_opening.specs.Logs.{BothThere, ComeBelow, GotStart, GotVote, IsReadyToRise, LacksStart, LacksVote, StopAt, Together, WereNotOpened, WereOpened};
ghost use Rattle.dr_opening.specs.Tries.{AreAmong, AreLeftOn, AreSafe, IsChosenOf, try_of};
ghost use Rattle.dr_opening.specs.declared.catching_up.CatchFault.TheVariants as whys;

use crate::catching_up::{CatchFault, catch_up};
use crate::cutting_back::cut_back;
use dr_disk::Disk;
use dr_log::{Log, LogFault};
use dr_restart::Start;
use dr_words::Mask;

/// Why an age was not opened: the first log that was refused what it lacked for that.
#[derive(Clone, Copy, Debug, PartialEq, Eq)]
pub struct OpenFault {
    pub member: u8,
    pub why: CatchFault,
}

/// Why an age is not opened on a log, by why that took no record.
fn why_of(fault: LogFault) -> CatchFault
    ensures disk { fault ≡ logs.DiskFault → result ≡ whys.DiskFault }
    ensures full { (len : ℕ) → fault ≡ logs.LogFull len → result ≡ whys.LogFull len }
{
    match fault {
        LogFault::DiskFault => CatchFault::DiskFault,
        LogFault::LogFull { len } => CatchFault::LogFull { len },
    }
}

/// Appends the age vote of a start to a log. It makes room for that first, and for a cut.
fn vote_on<D: Disk>(start: &Start, log: &mut Log<D>) -> Result<(), CatchFault>
    requires some { 0 < start.now.members }
    requires whole { log.old.failed ≡ false }
    ensures voted { OnOk result (GotVote D.told D.faults start.now log.old log.new) }
    ensures stuck { IfErr result (LacksVote D.told D.faults start.now log.old log.new) }
{
    log.reserve(0, 0)?;
    match log.vote_age(start.age, start.members) {
        Ok(()) => Ok(()),
        Err(why) => Err(why_of(why)),
    }
}

/// Cuts a log with the age vote back to what it and the start have in common, and brings it up to the start.
fn raise<D: Disk>(start: &Start, log: &mut Log<D>) -> Result<(), CatchFault>
    requires valid { All IsValidEntry start.now.entries }
    requires short { length start.now.entries < 2 ^ 32 }
    requires some { 0 < start.now.members }
    requires ready { IsReadyToRise D.told log.old }
    ensures raised { OnOk result (GotStart D.told D.faults start.now log.old log.new) }
    ensures stuck { IfErr result (LacksStart D.told D.faults start.now log.old log.new) }
{
    match cut_back(start, log) {
        Ok(()) => catch_up(start, Mask::of(start.members), log),
        Err(why) => Err(why_of(why)),
    }
}

/// So it is of a log that may be missing.
fn vote_at<D: Disk>(start: &Start, place: &mut Option<Log<D>>) -> Result<(), CatchFault>
    requires some { 0 < start.now.members }
    requires whole { (log : LogState D) → place.old ≡ Some log → log.failed ≡ false }
    ensures voted { OnOk result (Together (GotVote D.told D.faults start.now) place.old place.new) }
    ensures stuck { IfErr result (λ why. BothThere
        (λ old new. LacksVote D.told D.faults start.now old new why) place.old place.new) }
{
    match place {
        Some(log) => vote_on(start, log),
        None => Ok(()),
    }
}

/// Appends the age vote of a start to each log, ascending, up to the first that is refused it.
fn vote_on_all<D: Disk>(start: &Start, logs: &mut [Option<Log<D>>]) -> Result<(), OpenFault>
    requires some { 0 < start.now.members }
    requires few { length logs.old ≤ MAX_MEMBERS }
    requires whole { (m : ℕ) (log : LogState D) → log_of logs.old m ≡ Some log → log.failed ≡ false }
    ensures voted { OnOk result (ComeBelow (GotVote D.told D.faults start.now) logs.old logs.new
        (length logs.old)) }
    ensures stopped { IfErr result (λ fault. StopAt (GotVote D.told D.faults start.now)
        (λ old new. LacksVote D.told D.faults start.now old new fault.why) logs.old logs.new fault.member) }
{
    for m in 0..logs.len() {
        if let Err(why) = vote_at(start, &mut logs[m]) {
            return Err(OpenFault {
                member: m as u8,
                why,
            });
        }
    }
    Ok(())
}

/// So it is of a log that may be missing.
fn raise_at<D: Disk>(start: &Start, place: &mut Option<Log<D>>) -> Result<(), CatchFault>
    requires valid { All IsValidEntry start.now.entries }
    requires short { length start.now.entries < 2 ^ 32 }
    requires some { 0 < start.now.members }
    requires ready { (log : LogState D) → place.old ≡ Some log → IsReadyToRise D.told log }
    ensures raised { OnOk result (Together (GotStart D.told D.faults start.now) place.old place.new) }
    ensures stuck { IfErr result (λ why. BothThere
        (λ old new. LacksStart D.told D.faults start.now old new why) place.old place.new) }
{
    match place {
        Some(log) => raise(start, log),
        None => Ok(()),
    }
}

/// Cuts each log back, ascending, and brings it up to the start, up to the first that is refused that.
fn raise_all<D: Disk>(start: &Start, logs: &mut [Option<Log<D>>]) -> Result<(), OpenFault>
    requires valid { All IsValidEntry start.now.entries }
    requires short { length start.now.entries < 2 ^ 32 }
    requires some { 0 < start.now.members }
    requires few { length logs.old ≤ MAX_MEMBERS }
    requires ready { (m : ℕ) (log : LogState D) → log_of logs.old m ≡ Some log → IsReadyToRise D.told log }
    ensures raised { OnOk result (ComeBelow (GotStart D.told D.faults start.now) logs.old logs.new
        (length logs.old)) }
    ensures stopped { IfErr result (λ fault. StopAt (GotStart D.told D.faults start.now)
        (λ old new. LacksStart D.told D.faults start.now old new fault.why) logs.old logs.new fault.member) }
{
    for m in 0..logs.len() {
        if let Err(why) = raise_at(start, &mut logs[m]) {
            return Err(OpenFault {
                member: m as u8,
                why,
            });
        }
    }
    Ok(())
}

/// Opens the age of a start on the logs that are there, one place for each member: each gets the age vote,
/// ascending, and then each is cut back and brought up to the start, ascending.
///
/// # Errors
///
/// The first log that was refused what it lacked, and why. Where one lacks the vote none is cut or brought up.
pub fn open_logs<D: Disk>(start: &Start, logs: &mut [Option<Log<D>>]) -> Result<(), OpenFault>
    requires valid { All IsValidEntry start.now.entries }
    requires short { length start.now.entries < 2 ^ 32 }
    requires some { 0 < start.now.members }
    requires few { length logs.old ≤ MAX_MEMBERS }
    requires whole { (m : ℕ) (log : LogState D) → log_of logs.old m ≡ Some log → log.failed ≡ false }
    ensures opened { OnOk result (WereOpened D.told D.faults start.now logs.old logs.new) }
    ensures stopped { IfErr result (WereNotOpened D.told D.faults start.now logs.old logs.new) }
    // Each log that is there then has the entries of the start, and View 0.
    ensures begins { OnOk result ((m : ℕ) (log : LogState D) → log_of logs.new m ≡ Some log
        → log.content.entries ≡ opened_with start.now start.now.members) }
    // Where the start was chosen of these logs, whatever a crash leaves of them is what a try leaves: an opened
    // one where this has answered Ok.
    ensures tried { OnOk result ((o : Opening) (before after : List LogListsOf)
        → IsChosenOf o (contents_of logs.old) start.now → AreAmong (contents_of logs.old) before
        → AreLeftOn D.told logs.new before after → IsTry o before after (try_of start.now true)) }
    ensures left { OnErr result ((o : Opening) (before after : List LogListsOf)
        → IsChosenOf o (contents_of logs.old) start.now → AreAmong (contents_of logs.old) before
        → AreSafe D.told logs.old → AreLeftOn D.told logs.new before after
        → (opened : Bool) × IsTry o before after (try_of start.now opened)) }
{
    vote_on_all(start, logs)?;
    raise_all(start, logs)
}
