//! The members of a group, led deed by deed.
ghost use Rattle.std.specs.Prelude.{◌<◌, IfOk, None, length, replicate};
ghost use Rattle.dr_play.specs.Sound.{IsSound};
ghost use Rattle.dr_machine.specs.Group.{Group, IsGroup};
ghost use Rattle.dr_restart.specs.Groups.{group_of};
ghost use Rattle.dr_script.specs.Ranges.{HasRanges};
ghost use Rattle.dr_examples.specs.Led.{LettersByNumber, over};

use dr_member::{Deed, Member};
use dr_play::begun_members;
use dr_restart::{Start, first_start, shape_of};
use dr_script::{Script, read_script};
use std::alloc::{AllocError, Global};
use std::io::Print;

/// Two members with one message each.
pub(crate) const SCRIPT: &[u8] = br#"{"members":2,"window":1,"turns":12,"patience":0,"ages":1,
    "messages":[["a"],["b"]],"faults":[],"schedule":"lockstep"}"#;

/// How many deeds each member takes: more than it has.
const DEEDS: u32 = 1000;

/// The members of a group take deed after deed. Prints what they do next: they rest, since they have ended.
pub fn show_members(rt: &impl Print, alloc: Global) -> anyhow::Result<()> {
    let script = read_script(alloc, SCRIPT)?;
    let start = first_start(alloc, &script);
    let (mut members, mut words) = opened(alloc, &script, &start)?;
    lead(&mut members, &mut words);
    for place in &members {
        if let Some(member) = place {
            println!(rt;
                "  member {}: {:?} in turn {}",
                member.me(),
                member.next(),
                member.turns()
            )?;
            println!(rt; "    {:?}", member.history())?;
        }
    }
    Ok(())
}

/// The members of a script's group as its age opens, in a place for each of the roster, and the words of its
/// table.
pub(crate) fn opened(
    alloc: Global,
    script: &Script,
    start: &Start,
) -> Result<(Vec<Option<Member>>, Vec<u64>), AllocError>
    requires ranges { HasRanges script.now }
    requires group { IsGroup (group_of script.now start.now) }
    ensures { IfOk result (λ r. IsSound (group_of script.now start.now)
        (over r.0.items r.1.items (replicate script.now.members None))) }
{
    Ok((
        begun_members(alloc, script, start, 0)?,
        vec![in alloc; 0; shape_of(script, start).words()]?,
    ))
}

/// Leads the members of a group: each takes so many deeds, one at a time.
fn lead(members: &mut [Option<Member>], words: &mut [u64])
    requires sound { (g : Group) × (letters : LettersByNumber) × IsSound g (over members.old words.old letters) }
    ensures sound { (g : Group) (letters : LettersByNumber) → IsSound g (over members.old words.old letters)
        → IsSound g (over members.new words.new letters) }
{
    for _ in 0..DEEDS {
        for m in 0..members.len() {
            take_deed(members, words, m);
        }
    }
}

/// The member `m`, where it is there, takes its next deed. Its words go by way of this list; what it appends is not kept.
pub(crate) fn take_deed(members: &mut [Option<Member>], words: &mut [u64], m: usize)
    requires within { m < length members.old }
    requires sound { (g : Group) × (letters : LettersByNumber) × IsSound g (over members.old words.old letters) }
    ensures sound { (g : Group) (letters : LettersByNumber) → IsSound g (over members.old words.old letters)
        → IsSound g (over members.new words.new letters) }
{
    let Some(member) = &mut members[m] else {
        return;
    };
    match member.next() {
        Deed::Look(index) => member.looked(words[index]),
        Deed::Push(index, word) => {
            words[index] = word;
            member.pushed();
        }
        Deed::Act(index, word) => {
            words[index] = word;
            member.acted();
        }
        Deed::Append(_) => member.appended(),
        // Nobody is late here, so no letter is given and none is taken.
        Deed::Give { .. } | Deed::Take | Deed::Rest(_) => {}
    }
}

/// Whether a member is at the end of a turn, or has ended, or isn't there.
pub(crate) fn is_at_rest(place: &Option<Member>) -> bool {
    let Some(member) = place else {
        return true;
    };
    member.is_between_turns() || member.end().is_some()
}
