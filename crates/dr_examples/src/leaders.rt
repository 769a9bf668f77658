//! A second leader, which takes over what the first one has proposed.
ghost use Rattle.std.specs.Prelude.{◌<◌, length};
ghost use Rattle.dr_play.specs.Sound.{IsSound};
ghost use Rattle.dr_machine.specs.Group.{Group};
ghost use Rattle.dr_examples.specs.Led.{LettersByNumber, over};

use crate::members::{is_at_rest, opened, take_deed};
use dr_member::Member;
use dr_restart::{first_start, shape_of};
use dr_script::read_script;
use std::alloc::Global;
use std::io::Print;

/// Member 4 crashes, and the first leader, member 0, crashes once member 1 has its proposal.
const SCRIPT: &[u8] = br#"{"members":5,"window":1,"turns":40,"patience":0,"ages":1,
    "messages":[[],[],[],[],[]],"faults":[{"age":0,"member":4,"crash":[1,0]},
    {"age":0,"member":0,"suspect":[2,4]},{"age":0,"member":0,"crash":[3,7]},
    {"age":0,"member":1,"suspect":[4,0]},{"age":0,"member":1,"suspect":[7,0]}],"schedule":"lockstep"}"#;

/// How many turns it takes them to agree, and more deeds than a turn has.
const TURNS: u32 = 6;

const DEEDS: u32 = 10_000;

/// Prints the first accept word that member 1 shows member 2, in each turn that changes it: its promise,
/// the tag of its ballot and the mask of those that leave.
pub fn show_leader(rt: &impl Print, alloc: Global) -> anyhow::Result<()> {
    let script = read_script(alloc, SCRIPT)?;
    let start = first_start(alloc, &script);
    let shape = shape_of(&script, &start);
    let (mut members, mut words) = opened(alloc, &script, &start)?;
    if shape.members < 3 {
        return Ok(());
    }
    let index = shape.word_index(0, 2, 1, shape.leavers_column());
    show_turns(rt, &mut members, &mut words, index)
}

/// Prints the word of an index, in each turn that changes it.
fn show_turns(
    rt: &impl Print,
    members: &mut [Option<Member>],
    words: &mut [u64],
    index: usize,
) -> anyhow::Result<()>
    requires sound { (g : Group) × (letters : LettersByNumber) × IsSound g (over members.old words.old letters) }
{
    let mut shown = 0;
    for turn in 1..=TURNS {
        lead_round(members, words);
        let word = words.get(index).copied().unwrap_or(shown);
        if word != shown {
            println!(rt; "  turn {turn}: {word:#018x}")?;
            shown = word;
        }
    }
    Ok(())
}

/// Each member that is there and has not ended takes a whole turn, by number.
fn lead_round(members: &mut [Option<Member>], words: &mut [u64])
    requires sound { (g : Group) × (letters : LettersByNumber) × IsSound g (over members.old words.old letters) }
    ensures sound { (g : Group) (letters : LettersByNumber) → IsSound g (over members.old words.old letters)
        → IsSound g (over members.new words.new letters) }
{
    for m in 0..members.len() {
        for _ in 0..DEEDS {
            take_deed(members, words, m);
            if is_at_rest(&members[m]) {
                break;
            }
        }
    }
}
