//! What the last line says of the ages that ran, and of what ended the run.
ghost use Rattle.std.specs.Prelude.{◌≡◌, ◌≤◌, All, length, position};
ghost use Rattle.dr_entry.specs.declared.limits.TheConstants.{MAX_MEMBERS};
ghost use Rattle.dr_entry.specs.declared.end.AgeEnd.{AgeEnd as AgeEndOf};
ghost use Rattle.dr_outcome.specs.Last.{first_end, first_told, is_of, last_of, refusal_of, stopped_by};

use dr_ages::Stop;
use dr_entry::{AgeEnd, End, MemberEnd};
use dr_text::Last;

/// An end of a member that the last line tells.
#[derive(Clone, Copy)]
pub enum Kind {
    DiskFault,
    LogFull,
    Spent,
    NoMajority,
}

/// What the last line says behind these ages, and behind what ended the run before its last age. Nothing
/// where that was want of memory.
pub fn last_of(ages: &[AgeEnd], stop: Option<Stop>) -> Option<Last>
    requires { All (λ (age : AgeEndOf). length age.members ≤ MAX_MEMBERS) ages.now }
    ensures { result ≡ last_of ages.now stop }
{
    if let Some(Stop::OutOfMemory) = stop {
        return None;
    }
    if let Some(member) = first_told(Kind::DiskFault, ages, stop) {
        return Some(Last::DiskFault { member });
    }
    if let Some(refusal) = refusal_of(stop) {
        return Some(refusal);
    }
    if let Some(member) = first_told(Kind::LogFull, ages, stop) {
        return Some(Last::LogFull { member });
    }
    if let Some(_) = first_end(Kind::Spent, ages) {
        return Some(Last::Unfinished);
    }
    match first_end(Kind::NoMajority, ages) {
        Some(_) => Some(Last::NoMajority),
        None => Some(Last::Done),
    }
}

/// The first member whose end is of this kind, where what ended the run comes behind all its ages.
fn first_told(kind: Kind, ages: &[AgeEnd], stop: Option<Stop>) -> Option<u8>
    requires { All (λ (age : AgeEndOf). length age.members ≤ MAX_MEMBERS) ages.now }
    ensures { result ≡ first_told kind ages.now stop }
{
    first_end(kind, ages).or(stopped_by(kind, stop))
}

/// The first member whose end is of this kind, in the order of ages, and of members in an age.
fn first_end(kind: Kind, ages: &[AgeEnd]) -> Option<u8>
    requires { All (λ (age : AgeEndOf). length age.members ≤ MAX_MEMBERS) ages.now }
    ensures { result ≡ first_end kind ages.now }
{
    for age in ages {
        if let Some(member) = first_in(kind, age.members.as_slice()) {
            return Some(member as u8);
        }
    }
    None
}

fn first_in(kind: Kind, members: &[MemberEnd]) -> Option<usize>
    ensures { result ≡ position (λ m. is_of kind m.end) members.now }
{
    members.iter().position(|member| is_of(kind, member.end))
}

fn is_of(kind: Kind, end: End) -> bool
    ensures { result ≡ is_of kind end }
{
    match kind {
        Kind::DiskFault => matches!(end, End::DiskFault),
        Kind::LogFull => matches!(end, End::LogFull { .. }),
        Kind::Spent => matches!(end, End::Spent { .. }),
        Kind::NoMajority => matches!(end, End::NoMajority { .. }),
    }
}

/// The member that ended the run so.
fn stopped_by(kind: Kind, stop: Option<Stop>) -> Option<u8>
    ensures { result ≡ stopped_by kind stop }
{
    match (kind, stop) {
        (Kind::DiskFault, Some(Stop::DiskFault { member }))
        | (Kind::LogFull, Some(Stop::LogFull { member, .. })) => Some(member),
        _ => None,
    }
}

/// What the last line says where the logs were refused, or too few were there.
fn refusal_of(stop: Option<Stop>) -> Option<Last>
    ensures { result ≡ refusal_of stop }
{
    match stop {
        Some(Stop::Damaged { member, at }) => Some(Last::Damaged { member, at }),
        Some(Stop::Foreign { member, place }) => Some(Last::Foreign { member, place }),
        Some(Stop::NoQuorum { view, have, need }) => Some(Last::NoQuorum { view, have, need }),
        Some(Stop::Disagree { a, b, place }) => Some(Last::Disagree { a, b, place }),
        Some(Stop::AgesUsedUp) => Some(Last::AgesUsedUp),
        _ => None,
    }
}
