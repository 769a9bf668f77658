//! The start that logs make which were handed in as bytes.
ghost use Rattle.std.specs.Prelude.{◌≡◌, ◌<◌, true, IfOk, is_some, length, slice_index_or};
ghost use Rattle.dr_script.specs.Ranges.{HasGroupRanges};
ghost use Rattle.dr_seat.specs.Starting.{IsFitStart};

use crate::gathering::Gathering;
use crate::role::Role;
use dr_desk::Desk;
use dr_log::Log;
use dr_log_bytes::{Content, ParseFault, parse};
use dr_quorum::{BorrowedLists, ChooseFault, choose, chosen_entries_are_valid};
use dr_quorum_laws::choices_are_sound;
use dr_restart::Start;
use dr_script::Script;
use dr_words::Mask;
use std::alloc::{AllocError, Global};

/// Why logs make no start.
#[derive(Clone, Copy, Debug, PartialEq, Eq)]
pub(crate) enum Unchosen {
    /// What this member has handed in is no log.
    NoLog { member: u8 },
    Fault(ChooseFault),
}

impl From<AllocError> for Unchosen {
    ghost use Rattle.std.specs.Prelude.{⊤};

    ghost from_gives = { λ _ why. ⊤ };

    fn from(_: AllocError) -> Self {
        Unchosen::Fault(ChooseFault::OutOfMemory)
    }
}

/// What stands on the log of another member of a set, as it was handed in.
///
/// # Errors
///
/// It is no log; or memory was wanting.
fn content_of(alloc: Global, gathering: &Gathering, member: u8) -> Result<Content, Unchosen>
    requires { member < 16 }
{
    match parse(alloc, gathering.bytes_of(member)) {
        Ok(content) => Ok(content),
        Err(ParseFault::OutOfMemory) => Err(Unchosen::Fault(ChooseFault::OutOfMemory)),
        Err(ParseFault::Damaged { .. }) => Err(Unchosen::NoLog { member }),
    }
}

/// What stands on the logs of the others of a set, in a place for each member.
fn contents_of(
    alloc: Global,
    role: &Role,
    set: Mask,
    gathering: &Gathering,
) -> Result<Vec<Option<Content>>, Unchosen>
    ensures { IfOk result (λ contents. length contents.items ≡ role.now.script.members) }
{
    let mut contents = Vec::with_capacity(alloc, usize::from(role.script.members))?;
    for m in 0..role.script.members {
        let place = if role.is_other(m) && set.has(m) {
            Some(content_of(alloc, gathering, m)?)
        } else {
            None
        };
        if contents.push(place).is_err() {
            return Err(Unchosen::Fault(ChooseFault::OutOfMemory));
        }
    }
    Ok(contents)
}

/// These, and the own log at its place.
fn lists_of<'a>(
    alloc: Global,
    contents: &'a [Option<Content>],
    me: u8,
    log: &'a Log<Desk>,
) -> Result<Vec<Option<BorrowedLists<'a>>>, AllocError>
    requires { me < length contents.now }
    ensures all { IfOk result (λ lists. length lists.items ≡ length contents.now) }
    ensures own { IfOk result (λ lists. is_some (slice_index_or lists.items me None) ≡ true) }
{
    let mut lists = Vec::with_capacity(alloc, contents.len())?;
    for m in 0..contents.len() {
        let list = match &contents[m] {
            Some(content) => Some(BorrowedLists::new(
                content.entries.as_slice(),
                content.votes.as_slice(),
                content.age_votes.as_slice(),
            )),
            None if m == usize::from(me) => Some(BorrowedLists::new(
                log.entries(),
                log.votes(),
                log.age_votes(),
            )),
            None => None,
        };
        if lists.push(list).is_err() {
            return Err(AllocError);
        }
    }
    Ok(lists)
}

/// The start that these logs make, among which is the own one.
///
/// # Errors
///
/// Why they make none.
fn start_of(
    alloc: Global,
    script: &Script,
    me: u8,
    lists: &[Option<BorrowedLists>],
) -> Result<Start, Unchosen>
    requires ranges { HasGroupRanges script.now }
    requires all { length lists.now ≡ script.now.members }
    requires within { me < script.now.members }
    requires own { is_some (slice_index_or lists.now me None) ≡ true }
    ensures { IfOk result (IsFitStart script.now me) }
{
    choices_are_sound();
    chosen_entries_are_valid();
    match choose(alloc, script, lists) {
        Ok(start) => Ok(start),
        Err(fault) => Err(Unchosen::Fault(fault)),
    }
}

/// The start that the logs of a set make: the own one, and those that the others have handed in.
///
/// # Errors
///
/// Why they make none.
pub(crate) fn choose_of(
    alloc: Global,
    role: &Role,
    set: Mask,
    log: &Log<Desk>,
    gathering: &Gathering,
) -> Result<Start, Unchosen>
    ensures { IfOk result (IsFitStart role.now.script role.now.me) }
{
    let script = role.script();
    let me = role.me();
    let contents = contents_of(alloc, role, set, gathering)?;
    let lists = lists_of(alloc, contents.as_slice(), me, log)?;
    match start_of(alloc, script, me, lists.as_slice()) {
        Ok(start) => Ok(start),
        Err(why) => Err(why),
    }
}
