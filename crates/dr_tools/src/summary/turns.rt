ghost use Rattle.std.specs.{List.list_any, Prelude.{◌≡◌, ◌++◌, OnOk, string_bytes}};
ghost use Rattle.dr_entry.specs.declared.end.MemberEnd.{MemberEnd as MemberEndOf};
ghost use Rattle.dr_tools.specs.Summary.{enough_text, is_spent, most_turns, some_spent, turns_in, turns_text};

use crate::summary::enough::Enough;
use dr_entry::{AgeEnd, End, MemberEnd};
use std::alloc::AllocError;
use std::fmt::Write;

/// Appends how many turns would have been enough, as far as that is known.
pub(crate) fn push_turns(out: &mut String, enough: Enough) -> Result<(), AllocError>
    ensures { OnOk result (string_bytes out.new ≡ string_bytes out.old ++ turns_text enough) }
{
    match enough {
        Enough::ForRun(turns) => push_enough(out, turns),
        Enough::InLockstep(turns) => {
            writeln!(out, "{turns} turns are enough in lockstep without faults")
        }
        Enough::Unknown => Ok(()),
    }
}

/// Appends that so many turns would have been enough for the same run.
fn push_enough(out: &mut String, turns: u32) -> Result<(), AllocError>
    ensures { OnOk result (string_bytes out.new ≡ string_bytes out.old ++ enough_text turns) }
{
    let word = if turns == 1 { "turn" } else { "turns" };
    writeln!(
        out,
        "{turns} {word} would have been enough for the same run"
    )
}

/// Whether some member has spent its turns.
pub(crate) fn some_spent(ages: &[AgeEnd]) -> bool
    ensures { result ≡ some_spent ages.now }
{
    ages.iter().any(|age| has_spent(age.members.as_slice()))
}

fn has_spent(members: &[MemberEnd]) -> bool
    ensures { result ≡ list_any (λ (m : MemberEndOf). is_spent m.end) members.now }
{
    members.iter().any(|member| is_spent(member.end))
}

fn is_spent(end: End) -> bool
    ensures { result ≡ is_spent end }
{
    matches!(end, End::Spent { .. })
}

/// The most turns that a member of any age has taken.
pub(crate) fn most_turns(ages: &[AgeEnd]) -> u32
    ensures { result ≡ most_turns ages.now }
{
    let mut most = 0;
    for age in ages {
        most = most.max(turns_in(age));
    }
    most
}

/// The most turns that a member of an age has taken.
#[tactic(auto, unfolding(crate::specs::Summary::turns_in))]
fn turns_in(age: &AgeEnd) -> u32
    ensures { result ≡ turns_in age.now }
{
    age.members
        .as_slice()
        .iter()
        .map(|member| member.turns)
        .fold(0, |most, turns| most.max(turns))
}
