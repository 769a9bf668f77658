//! The calls, on a place that may hold a seat.
ghost use Rattle.std.specs.Prelude.{◌≡◌, ◌≢◌, ◌↔◌, ◌<◌, ◌≤◌, ◌^◌, ◌⊎◌, true, IfSome, IsSome, slice_get};
ghost use Rattle.dr_seat.specs.Seats.{
  Gathers,
  IsDue,
  IsFree,
  IsOpen,
  IsTaken,
  KeepsDue,
  MayFail,
  MayGoWithout,
  MayTellAgain,
  history_of,
};
ghost use Rattle.derecho_c.specs.Answers.{HasFailed, IsDone, IsRefusedBy, failure, TellsEntry, TellsNext, TellsWhere};
ghost use Rattle.dr_history.specs.Members.{has};
ghost use Rattle.derecho_c.specs.Codes.{open_code, plan_code, refusal_code};

use crate::codes::{
    CLOSED, DAMAGED, EMPTY, ENDED, FORM, GROWTH, KIND, MEMORY, NO_CARD, NO_ENTRY, NO_MEMBER,
    NO_QUORUM, NOT_DUE, NOT_MINE, OK, OLD, OLD_FORMAT, OTHER_AGE, OTHER_GROUP, OTHER_PLAN, PLACE,
    PLAN, SHORT, SUM, TEST_PLAN,
};
use crate::told::{CDue, CItem, CWhere, due_of, item_of, where_of};
use dr_door::LogWhy;
use dr_packet::PacketFault;
use dr_script::ScriptFault;
use dr_seat::{Held, OpenFault, PlanFault, Refused, Seat};
use dr_words::Mask;

/// Why bytes are no plan.
pub(crate) fn plan_code(fault: &PlanFault) -> u32
    ensures value { result ≡ plan_code fault.now }
    ensures refused { result ≢ OK }
{
    match fault {
        PlanFault::Script(ScriptFault::OutOfMemory) => MEMORY,
        PlanFault::Script(
            ScriptFault::TooLong | ScriptFault::NotJson | ScriptFault::Wrong { .. },
        ) => PLAN,
        PlanFault::TestPlan => TEST_PLAN,
    }
}

/// Why a seat wasn't opened.
pub(crate) fn open_code(fault: &OpenFault) -> u32
    ensures value { result ≡ open_code fault.now }
    ensures refused { result ≢ OK }
{
    match fault {
        OpenFault::NoCard => NO_CARD,
        OpenFault::OtherPlan => OTHER_PLAN,
        OpenFault::NoMember => NO_MEMBER,
        OpenFault::Empty => EMPTY,
        OpenFault::Damaged { .. } => DAMAGED,
        OpenFault::OldFormat => OLD_FORMAT,
        OpenFault::OutOfMemory => MEMORY,
    }
}

/// Why a packet was refused.
fn refusal_code(why: &Refused) -> u32
    ensures { result ≡ refusal_code why.now }
{
    match why {
        Refused::Packet(PacketFault::Short) => SHORT,
        Refused::Packet(PacketFault::Sum) => SUM,
        Refused::Packet(PacketFault::OtherGroup) => OTHER_GROUP,
        Refused::Packet(PacketFault::OtherPlan) => OTHER_PLAN,
        Refused::Packet(PacketFault::Kind) => KIND,
        Refused::NotMine => NOT_MINE,
        Refused::OtherAge { .. } => OTHER_AGE,
        Refused::Place => PLACE,
        Refused::Form => FORM,
        Refused::Growth => GROWTH,
        Refused::Ended => ENDED,
        Refused::OutOfMemory => MEMORY,
    }
}

/// An opening begins anew, which goes without these members.
pub(crate) fn without(held: &mut Held, missing: u32) -> u32
    ensures may { IfSome held.old.seat (λ s. missing < 2 ^ 16 → MayGoWithout s missing → result ≡ OK) }
    ensures may_not { IfSome held.old.seat (λ s. missing < 2 ^ 16 → ¬ MayGoWithout s missing → result ≡ NO_QUORUM) }
    ensures no_member { IfSome held.old.seat (λ _. 2 ^ 16 ≤ missing → result ≡ NO_MEMBER) }
    ensures gathers { result ≡ OK → IfSome held.new.seat Gathers }
    ensures refused { result ≢ OK → held.new ≡ held.old }
    ensures kept { IsSome held.new.seat ↔ IsSome held.old.seat }
{
    let Some(seat) = &mut held.seat else {
        return CLOSED;
    };
    let Ok(missing) = u16::try_from(missing) else {
        return NO_MEMBER;
    };
    match seat.without(Mask::of(missing)) {
        Ok(()) => OK,
        Err(_) => NO_QUORUM,
    }
}

/// Tells what is due.
pub(crate) fn next(held: &mut Held, due: &mut CDue, bytes: &mut [u8]) -> u32
    ensures next { IfSome held.old.seat (λ old. IfSome held.new.seat (λ new.
        TellsNext old new due.new bytes.old bytes.new result)) }
    ensures kept { IsSome held.new.seat ↔ IsSome held.old.seat }
{
    let Some(seat) = &mut held.seat else {
        return CLOSED;
    };
    next_of(seat, due, bytes)
}

/// Tells what is due in a seat.
fn next_of(seat: &mut Seat, due: &mut CDue, bytes: &mut [u8]) -> u32
    ensures { TellsNext seat.old seat.new due.new bytes.old bytes.new result }
{
    let what = seat.next();
    due_of(&what, due, bytes)
}

/// Takes note that something is done.
pub(crate) fn did(held: &mut Held, number: u64) -> u32
    ensures due { IfSome held.old.seat (λ s. IsDue s number → result ≡ OK) }
    ensures not_due { IfSome held.old.seat (λ s. ¬ IsDue s number → result ≡ NOT_DUE) }
    ensures free { result ≡ OK → IfSome held.new.seat IsFree }
    ensures done { result ≡ OK → IfSome held.old.seat (λ old. IfSome held.new.seat (IsDone old)) }
    ensures refused { result ≢ OK → held.new ≡ held.old }
    ensures kept { IsSome held.new.seat ↔ IsSome held.old.seat }
{
    let Some(seat) = &mut held.seat else {
        return CLOSED;
    };
    match seat.did(number) {
        Ok(()) => OK,
        Err(_) => NOT_DUE,
    }
}

/// Why a call to a log failed: its file, so many bytes long, is full; or its disk failed.
pub(crate) fn why_by(full: u32, length: u64) -> LogWhy
    ensures { result ≡ failure full length }
{
    if full == 0 {
        LogWhy::DiskFault
    } else {
        LogWhy::LogFull { len: length }
    }
}

/// Takes note that something failed.
pub(crate) fn failed(held: &mut Held, number: u64, why: LogWhy) -> u32
    ensures due { IfSome held.old.seat (λ s. MayFail s number → result ≡ OK) }
    ensures not_due { IfSome held.old.seat (λ s. ¬ MayFail s number → result ≡ NOT_DUE) }
    ensures free { result ≡ OK → IfSome held.new.seat IsFree }
    ensures broken { result ≡ OK → IfSome held.old.seat (λ old. IfSome held.new.seat (HasFailed why old)) }
    ensures refused { result ≢ OK → held.new ≡ held.old }
    ensures kept { IsSome held.new.seat ↔ IsSome held.old.seat }
{
    let Some(seat) = &mut held.seat else {
        return CLOSED;
    };
    match seat.failed(number, why) {
        Ok(()) => OK,
        Err(_) => NOT_DUE,
    }
}

/// Takes a packet.
pub(crate) fn came(held: &mut Held, packet: &[u8]) -> u32
    ensures taken { (result ≡ OK) ⊎ (result ≡ OLD) → IfSome held.old.seat (λ s. IsTaken s packet.now) }
    ensures refused { result ≢ OK → result ≢ OLD
        → IfSome held.old.seat (λ s. IsRefusedBy s packet.now result) }
    ensures stays { result ≢ OK → result ≢ OLD → result ≢ MEMORY → held.new ≡ held.old }
    ensures due { IfSome held.old.seat (λ old. IfSome held.new.seat (KeepsDue old)) }
    ensures kept { IsSome held.new.seat ↔ IsSome held.old.seat }
{
    let Some(seat) = &mut held.seat else {
        return CLOSED;
    };
    match seat.came(packet) {
        Ok(true) => OK,
        Ok(false) => OLD,
        Err(why) => refusal_code(&why),
    }
}

/// All last words for a member are due once more.
pub(crate) fn again(held: &mut Held, to: u32) -> u32
    ensures member { IfSome held.old.seat (λ _. to < 16 → result ≡ OK) }
    ensures owed { IfSome held.old.seat (λ old. to < 16 → MayTellAgain old to
        → IfSome held.new.seat (λ new. has new.post.words to ≡ true)) }
    ensures no_member { IfSome held.old.seat (λ _. 16 ≤ to → result ≡ NO_MEMBER) }
    ensures refused { result ≢ OK → held.new ≡ held.old }
    ensures kept { IsSome held.new.seat ↔ IsSome held.old.seat }
{
    let Some(seat) = &mut held.seat else {
        return CLOSED;
    };
    let Ok(to) = u8::try_from(to) else {
        return NO_MEMBER;
    };
    if to >= 16 {
        return NO_MEMBER;
    }
    seat.again(to);
    OK
}

/// A turn begins, or an opening asks again.
pub(crate) fn tick(held: &mut Held) -> u32
    ensures open { result ≡ OK → IfSome held.old.seat IsOpen }
    ensures free { result ≡ OK → IfSome held.new.seat IsFree }
    ensures not_due { result ≢ OK → IfSome held.old.seat (λ old. IsOpen old
        → IfSome held.new.seat (λ new. ¬ IsFree new)) }
    ensures kept { IsSome held.new.seat ↔ IsSome held.old.seat }
{
    let Some(seat) = &mut held.seat else {
        return CLOSED;
    };
    match seat.tick() {
        Ok(()) => OK,
        Err(_) => NOT_DUE,
    }
}

/// Tells where a seat stands.
pub(crate) fn standing(held: &Held, into: &mut CWhere) -> u32
    ensures told { IfSome held.now.seat (λ s. TellsWhere s into.new) }
    ensures ok { IfSome held.now.seat (λ _. result ≡ OK) }
{
    let Some(seat) = &held.seat else {
        return CLOSED;
    };
    *into = where_of(&seat.standing());
    OK
}

/// Tells an entry.
pub(crate) fn entry(held: &Held, number: u64, into: &mut CItem, bytes: &mut [u8]) -> u32
    ensures { IfSome held.now.seat (λ s.
        TellsEntry (slice_get (history_of s) number) into.old into.new bytes.old bytes.new result) }
{
    let Some(seat) = &held.seat else {
        return CLOSED;
    };
    match seat.entry(number as usize) {
        Some(entry) => item_of(entry, into, bytes),
        None => NO_ENTRY,
    }
}
