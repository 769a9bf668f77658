//! Which log may be moved away where logs are bad.
//!
//! Only the one log without which the others make a start is ever advised to be moved, where all others are
//! there, have entries, and end at their closed gate: if one log alone is bad it is that one, and what is
//! durable stands on two at least. Where a view of the last age had one member alone this isn't known. Where
//! a second log would do as well either may be the bad one, and none is named; of two bad logs nothing like
//! it is known.

ghost use Rattle.std.specs.{List.list_all, Prelude.{◌≡◌, ◌↔◌, ◌<◌, if◌then◌else◌, IfOk, IsTrue, MatchOption, length}};
ghost use Rattle.dr_script.specs.Ranges.{HasGroupRanges};
ghost use Rattle.dr_folder.specs.Advice.{AreIntactBut, CanNotGo, IsAdvice, IsIntact, IsNextAway, MakesStartAlone, are_shared, is_shared};
ghost use Rattle.dr_folder.specs.declared.advice.Advice.TheVariants.{Alone, Away};

use crate::file::LogFile;
use crate::foretelling::foretell_without;
use crate::survey::Survey;
use dr_entry::Entry;
use dr_history::{members_of, view_of};
use dr_restart::Start;
use dr_script::Script;
use std::alloc::{AllocError, Global};

/// What may be done where a run over a folder is refused.
#[derive(Debug, Drop)]
pub enum Advice {
    /// It isn't, or not for its logs.
    NotNeeded,
    /// The log of this member may be moved away: it is the only one without which the others, all of them there
    /// and intact, make a start, and this is it.
    Away { member: usize, start: Start },
    /// So it is with the log of this member, but a view of the last age had one member alone: what was durable may
    /// stand on that log and on no other.
    Alone { member: usize },
    /// One of these two is wrong, or both are, and nothing tells which.
    Unclear { one: usize, other: usize },
    /// No log is the only bad one.
    Nothing,
}

/// What may be done with these files, of which this is known.
pub(crate) fn advice_on(
    alloc: Global,
    script: &Script,
    files: &mut [LogFile],
    surveys: &[Survey],
) -> Result<Advice, AllocError>
    requires ranges { HasGroupRanges script.now }
    requires all { length files.old ≡ script.now.members }
    requires each { length surveys.now ≡ length files.old }
    ensures advice { IfOk result (IsAdvice script.now files.old surveys.now) }
    ensures kept { files.new ≡ files.old }
{
    let Some((member, start)) = next_away(alloc, script, files, surveys, 0)? else {
        return Ok(Advice::Nothing);
    };
    match next_away(alloc, script, files, surveys, member + 1)? {
        Some((other, _)) => Ok(Advice::Unclear { one: member, other }),
        None => Ok(away_if_shared(member, start)),
    }
}

/// What may be done where it is the log of this member alone without which the others make this start.
fn away_if_shared(member: usize, start: Start) -> Advice
    ensures { result ≡ (if are_shared start.entries then Away member start else Alone member) }
{
    if are_shared(start.entries.as_slice()) {
        Advice::Away { member, start }
    } else {
        Advice::Alone { member }
    }
}

/// Whether each view of the last age among these entries has several members.
pub(crate) fn are_shared(entries: &[Entry]) -> bool
    ensures { result ≡ are_shared entries.now }
{
    match view_of(entries) {
        Some(view) => all_shared(view.age(), entries),
        None => false,
    }
}

fn all_shared(age: u16, entries: &[Entry]) -> bool
    ensures { result ≡ list_all (is_shared age) entries.now }
{
    entries.iter().all(|entry| is_shared(age, entry))
}

fn is_shared(age: u16, entry: &Entry) -> bool
    ensures { result ≡ is_shared age entry.now }
{
    match entry {
        Entry::View {
            age: other,
            members,
            ..
        } => *other != age || members_of(*members).len() > 1,
        Entry::Msg { .. } => true,
    }
}

/// The first member from this one on without whose log the others, all of them intact, make a start, and that.
fn next_away(
    alloc: Global,
    script: &Script,
    files: &mut [LogFile],
    surveys: &[Survey],
    from: usize,
) -> Result<Option<(usize, Start)>, AllocError>
    requires ranges { HasGroupRanges script.now }
    requires all { length files.old ≡ script.now.members }
    requires each { length surveys.now ≡ length files.old }
    ensures next { IfOk result (IsNextAway script.now files.old surveys.now from) }
    ensures kept { files.new ≡ files.old }
{
    for member in from..surveys.len() {
        if let Some(start) = start_without(alloc, script, files, surveys, member)? {
            return Ok(Some((member, start)));
        }
    }
    Ok(None)
}

/// What the next age starts with where the log of a member is moved away, if all others are intact and make a
/// start.
fn start_without(
    alloc: Global,
    script: &Script,
    files: &mut [LogFile],
    surveys: &[Survey],
    member: usize,
) -> Result<Option<Start>, AllocError>
    requires ranges { HasGroupRanges script.now }
    requires all { length files.old ≡ script.now.members }
    requires member { member < length files.old }
    ensures start { IfOk result (λ found. MatchOption found
        (CanNotGo script.now files.old surveys.now member)
        (MakesStartAlone script.now files.old surveys.now member)) }
    ensures kept { files.new ≡ files.old }
{
    if !are_intact_but(surveys, member) {
        return Ok(None);
    }
    match foretell_without(alloc, script, files, member) {
        Ok(start) => Ok(Some(start)),
        Err(None) => Err(AllocError),
        Err(Some(_)) => Ok(None),
    }
}

/// Whether there are others than this member, and all of them have intact logs.
pub(crate) fn are_intact_but(surveys: &[Survey], member: usize) -> bool
    ensures { IsTrue result ↔ AreIntactBut surveys.now member }
{
    for number in 0..surveys.len() {
        if number != member && !is_intact(&surveys[number]) {
            return false;
        }
    }
    surveys.len() > 1
}

fn is_intact(survey: &Survey) -> bool
    ensures { IsTrue result ↔ IsIntact survey.now }
{
    match survey {
        Survey::Log {
            len,
            content,
            at,
            closed,
        } => *closed && len.saturating_sub(*at) == 1 && !content.entries.is_empty(),
        _ => false,
    }
}
