//! The card of a member: of which group, plan and number it is, in a file beside its log.
ghost use Rattle.std.specs.Prelude.{◌≡◌, ◌↔◌, ◌+◌, ◌<◌, ◌≤◌, ◌++◌, IfErr, IfOk, IsTrue, OnErr, length, take};
ghost use Rattle.sha2.specs.Sha256.{sha256};
ghost use Rattle.dr_packet.specs.Packets.{IsSummed};
ghost use Rattle.dr_seat.specs.{Cards.{HasCardForm, IsCardOf, card_front, card_magic, card_of, digest_on, new_log}, Opened.IsCardFault};

use crate::faults::{FreshFault, OpenFault};
use crate::plan::Plan;
use arrayvec::ArrayVec;
use dr_packet::Seal;
use sha2::{Digest, Sha256};

/// The bytes by which a card begins.
const MAGIC: [u8; 8] = *b"DERCARD1";

/// The number of bytes of a card.
pub const CARD: usize = 65;

/// The number of bytes of the digest at its end.
const SUM: usize = 8;

/// The bytes of a new log. They are one more than a log wants, so that a file which has lost all is no new log.
pub(crate) const NEW_LOG: [u8; 10] = *b"DERLOG02\0\0";

/// The card and the log of a member that never was. There is no other way to a log without a record.
///
/// # Errors
///
/// Exactly where the group has no such member.
pub fn fresh(
    plan: &Plan,
    group: [u8; 16],
    me: u8,
) -> Result<(ArrayVec<u8, CARD>, [u8; 10]), FreshFault>
    ensures card { IfOk result (λ r. r.0.items ≡ card_of group plan.now.digest me) }
    ensures log { IfOk result (λ r. r.1 ≡ new_log) }
    ensures member { IfOk result (λ _. me < plan.now.script.members) }
    ensures none { OnErr result (plan.now.script.members ≤ me) }
{
    if plan.script.members <= me {
        return Err(FreshFault::NoMember);
    }
    let mut card = front_of(&group, &plan.digest, me);
    let sum = sum_of(card.as_slice());
    put(&mut card, &sum);
    Ok((card, NEW_LOG))
}

/// What stands on a card before its digest.
fn front_of(group: &[u8; 16], plan: &[u8; 32], me: u8) -> ArrayVec<u8, CARD>
    ensures front { result.items ≡ card_front group.now plan.now me }
    ensures length { length result.items ≡ 57 }
{
    let mut card = ArrayVec::new();
    put(&mut card, &MAGIC);
    put(&mut card, group);
    put(&mut card, plan);
    put(&mut card, &[me]);
    card
}

/// Puts bytes behind others, for which there is room.
fn put(into: &mut ArrayVec<u8, CARD>, bytes: &[u8])
    requires { length into.old.items + length bytes.now ≤ 65 }
    ensures { into.new.items ≡ into.old.items ++ bytes.now }
{
    into.try_extend_from_slice(bytes).unwrap();
}

/// The seal and the member of a card.
///
/// # Errors
///
/// The bytes are no card; or one of another plan.
pub(crate) fn read_card(plan: &Plan, card: &[u8]) -> Result<(Seal, u8), OpenFault>
    ensures card { IfOk result (λ read. IsCardOf card.now read.0.group plan.now.digest read.1) }
    ensures plan { IfOk result (λ read. read.0.plan ≡ plan.now.digest) }
    ensures member { IfOk result (λ read. read.1 < plan.now.script.members) }
    ensures fault { IfErr result (IsCardFault plan.now card.now) }
{
    if !is_card(card) {
        return Err(OpenFault::NoCard);
    }
    if !is_of_plan(&plan.digest, card) {
        return Err(OpenFault::OtherPlan);
    }
    let mut group = [0; 16];
    group.copy_from_slice(&card[8..24]);
    let seal = Seal {
        group,
        plan: plan.digest,
    };
    if plan.script.members <= card[56] {
        return Err(OpenFault::NoMember);
    }
    Ok((seal, card[56]))
}

/// Whether bytes are as many as those of a card, begin like one, and end with the sum of all before.
fn is_card(card: &[u8]) -> bool
    ensures { IsTrue result ↔ HasCardForm card.now }
{
    begins_as_card(card) && is_summed(card)
}

/// Whether bytes are as many as those of a card, and begin like one.
fn begins_as_card(card: &[u8]) -> bool
    ensures { IsTrue result ↔ ((length card.now ≡ 65) × (take 8 card.now ≡ card_magic)) }
{
    card.len() == CARD && card[..8] == MAGIC[..]
}

/// Whether they end with the sum of all before.
fn is_summed(card: &[u8]) -> bool
    requires { 8 ≤ length card.now }
    ensures { IsTrue result ↔ IsSummed card.now }
{
    let end = card.len() - SUM;
    sum_of(&card[..end])[..] == card[end..]
}

/// Whether a card has this digest of a plan.
fn is_of_plan(plan: &[u8; 32], card: &[u8]) -> bool
    requires { length card.now ≡ 65 }
    ensures { IsTrue result ↔ (digest_on card.now ≡ plan.now) }
{
    card[24..56] == plan[..]
}

/// The first bytes of the digest of these.
fn sum_of(bytes: &[u8]) -> [u8; SUM]
    ensures { result ≡ take 8 (sha256 bytes.now) }
{
    let digest = Sha256::digest(bytes);
    let mut sum = [0; SUM];
    sum.copy_from_slice(&digest[..SUM]);
    sum
}
