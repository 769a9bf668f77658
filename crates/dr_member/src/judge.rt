//! What a member judges, once it has looked at the others.
//!
//! A member judges by one part of its turn, which names the first judgement that comes up and is done again
//! until none does. A suspicion more only takes away from what the earlier ones find, so this is the same as
//! going through them in turn. A script's suspicions come in its order, by the first that may come. News of a
//! row is compared behind the last look at it, as its beat is looked at once a turn; the counts are judged
//! behind all looks, and go on where there is no patience, which only says who is overdue.
ghost use Rattle.std.specs.Prelude.{◌≡◌};
ghost use Rattle.dr_program.specs.{Acts.may, Running.{judged, judgement}, declared.place.Place.Place};
ghost use Rattle.dr_member.specs.{Judge.{first_scripted, suspicion}, Search.standing};

use crate::fate::Fate;
use dr_entry::End;
use dr_machine::Act;
use dr_program::Suspicion;
use dr_replica::Replica;

/// Whether there is something to judge. Out of line, it leaves the search small.
#[inline(never)]
pub(crate) fn may_judge(replica: &Replica, fate: &Fate) -> bool
    ensures { (place : Place) → result ≡ may replica.now (judged (standing replica.now fate.now place)) }
{
    match judgement(replica, fate) {
        Some(act) => replica.may(act),
        None => false,
    }
}

/// The act that the member judges to be due; where it judges nothing, one that it may not do.
pub(crate) fn judged(replica: &Replica, fate: &Fate) -> Act
    ensures { (place : Place) → result ≡ judged (standing replica.now fate.now place) }
{
    judgement(replica, fate).unwrap_or(Act::Suspect {
        other: replica.me(),
    })
}

/// The first of these that comes up: its end, where another member goes on without it; whom it
/// suspects next; and its end, where those that it doesn't suspect are too few.
fn judgement(replica: &Replica, fate: &Fate) -> Option<Act>
    ensures { (place : Place) → result ≡ judgement (standing replica.now fate.now place) }
{
    if let Some(by) = replica.named_by() {
        return Some(Act::Halt {
            end: End::Suspected { by },
        });
    }
    if let Some(other) = suspicion(replica, fate) {
        return Some(Act::Suspect { other });
    }
    replica.minority()
}

/// Whom the member suspects or wishes for next: the first by its script, then by the others, then by its
/// patience.
fn suspicion(replica: &Replica, fate: &Fate) -> Option<u8>
    ensures { (place : Place) → result ≡ suspicion (standing replica.now fate.now place) }
{
    if let Some(other) = scripted(replica, fate.suspicions.as_slice()) {
        return Some(other);
    }
    if let Some(other) = replica.told() {
        return Some(other);
    }
    replica.overdue(&fate.waits)
}

/// The first in the script's order whom it has the member suspect or wish for in this turn, and who may still
/// be named.
fn scripted(replica: &Replica, script: &[Suspicion]) -> Option<u8>
    ensures { result ≡ first_scripted replica.now script.now }
{
    let turn = replica.turns();
    for suspicion in script {
        if suspicion.turn == turn && replica.may_suspect(suspicion.other) {
            return Some(suspicion.other);
        }
    }
    None
}
