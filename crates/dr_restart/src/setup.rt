//! What the members of a group are told as its age opens.
ghost use Rattle.std.specs.List.{range_with_len};
ghost use Rattle.std.specs.Prelude.{◌≡◌, ◌+◌, ◌≤◌, ◌<◌, All, IfOk, [], length, map, slice_index_or};
ghost use Rattle.dr_history.specs.Members.{members_of};
ghost use Rattle.dr_words.specs.Masks.{without};
ghost use Rattle.dr_machine.specs.Group.{IsPresent};
ghost use Rattle.dr_script.specs.Ranges.{HasGroupRanges};
ghost use Rattle.dr_restart.specs.{Groups.group_of, Setups.{IsSetupOf, crashes_of, suspicions_of}};

use crate::copies::{copy_entries, copy_messages};
use crate::start::Start;
use dr_entry::{MAX_MEMBERS, Message, Seq};
use dr_program::{CrashPoint, Setup, Suspicion};
use dr_script::{Fault, Script, What};
use dr_words::{Mask, Shape};
use std::alloc::{AllocError, Global};

/// The members that are late in the age of a start: they are there, and not in View 0.
pub fn late_of(start: &Start) -> Mask
    ensures { result ≡ without start.now.present start.now.members }
{
    Mask::of(start.present).without(Mask::of(start.members))
}

/// The shape of the table of a script's group in the age of a start: a bank for each member of the roster, and
/// one more for each late member.
pub fn shape_of(script: &Script, start: &Start) -> Shape
    requires { HasGroupRanges script.now }
    ensures members { result.members ≡ script.now.members }
    ensures window { result.window ≡ script.now.window }
    ensures banks { result.banks ≡ script.now.members + length (members_of (without start.now.present start.now.members)) }
{
    Shape {
        members: script.members,
        window: script.window,
        banks: script.members + late_of(start).count(),
    }
}

/// The setup of the member `me`, which is there, in an age. `nth` is the number of the age in the run, from 0.
///
/// # Errors
///
/// Want of memory alone.
pub fn setup_of(
    alloc: Global,
    script: &Script,
    start: &Start,
    nth: u8,
    me: u8,
) -> Result<Setup, AllocError>
    requires ranges { HasGroupRanges script.now }
    requires me { me < script.now.members }
    requires present { IsPresent (group_of script.now start.now) me }
    ensures { IfOk result (λ s. IsSetupOf script.now start.now nth me s) }
{
    let lists = script.messages.as_slice();
    let (crashes, suspicions) = faults_of(alloc, script.faults.as_slice(), nth, me)?;
    Ok(Setup {
        shape: shape_of(script, start),
        me,
        age: start.age,
        members: Mask::of(start.members),
        late: late_of(start),
        turns: script.turns,
        patience: script.patience,
        start: copy_entries(alloc, &start.entries)?,
        messages: copy_messages(alloc, &lists[usize::from(me)])?,
        totals: totals_of(lists),
        crashes: Seq::of(crashes),
        suspicions: Seq::of(suspicions),
    })
}

/// The number of messages of each member, and 0 for whoever is none.
fn totals_of(lists: &[Seq<Message>]) -> [u32; MAX_MEMBERS]
    requires members { length lists.now ≤ 16 }
    requires few { All (λ list. length list ≤ 4096) lists.now }
    ensures { result ≡ map (λ i. length (slice_index_or lists.now i [])) (range_with_len 0 16) }
{
    let mut totals = [0; MAX_MEMBERS];
    for (i, list) in lists.iter().enumerate() {
        totals[i] = list.as_slice().len() as u32;
    }
    totals
}

/// The crashes and the suspicions of the member `me` in the age `nth`, each in the order of the faults.
fn faults_of(
    alloc: Global,
    faults: &[Fault],
    nth: u8,
    me: u8,
) -> Result<(Vec<CrashPoint>, Vec<Suspicion>), AllocError>
    ensures crashes { IfOk result (λ found. found.0.items ≡ crashes_of faults.now nth me) }
    ensures suspicions { IfOk result (λ found. found.1.items ≡ suspicions_of faults.now nth me) }
{
    let mut crashes = Vec::new(alloc);
    let mut suspicions = Vec::new(alloc);
    for fault in faults {
        if fault.age != nth || fault.member != me {
            continue;
        }
        match fault.what {
            What::Crash { turn, push } => crashes.push(CrashPoint { turn, push })?,
            What::Suspect { turn, other } => suspicions.push(Suspicion { turn, other })?,
        }
    }
    Ok((crashes, suspicions))
}
