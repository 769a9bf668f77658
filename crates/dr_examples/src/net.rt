//! The members of a group on different machines: a word that one pushes to another is on its way for a while.
ghost use Rattle.std.specs.Prelude.{◌<◌, All, Contains, List, Option, length};
ghost use Rattle.dr_play.specs.Sound.{IsSound};
ghost use Rattle.dr_machine.specs.Group.{Group};
ghost use Rattle.dr_program.specs.{Running.Running, declared.packet.Packet.Packet as PacketOf};
ghost use Rattle.dr_program_laws.specs.Carried.{IsCarried};
ghost use Rattle.dr_examples.specs.Led.{LettersByNumber, over};

use crate::members::{is_at_rest, opened};
use dr_member::{Deed, Member};
use dr_program::Packet;
use dr_restart::first_start;
use dr_script::read_script;
use std::alloc::{AllocError, Global};
use std::io::Print;

/// Three members. Member 2 crashes in its third turn, before it pushes anything in it, and whoever has had no
/// news of another for eight turns suspects it.
const SCRIPT: &[u8] = br#"{"members":3,"window":1,"turns":60,"patience":8,"ages":1,
    "messages":[["a","d"],["b"],["c"]],"faults":[{"age":0,"member":2,"crash":[3,0]}],
    "schedule":"lockstep"}"#;

/// How many turns each member takes, and more deeds than a turn has.
const TURNS: usize = 60;

const DEEDS: u32 = 10_000;

/// For how many turns a word is on its way, and after how many the same word comes once more.
const DELAY: usize = 2;

const AGAIN: usize = 5;

/// Of so many words the second one is lost on its first way.
const LOST: usize = 4;

/// The members of a group take turn after turn, and what they push comes later, or only when it is sent again.
/// Prints how they ended.
pub fn show_net(rt: &impl Print, alloc: Global) -> anyhow::Result<()> {
    let script = read_script(alloc, SCRIPT)?;
    let start = first_start(alloc, &script);
    let (mut members, mut words) = opened(alloc, &script, &start)?;
    let sent = lead(alloc, &mut members, &mut words)?;
    println!(rt; "  {sent} words were sent")?;
    for place in &members {
        if let Some(member) = place {
            println!(rt;
                "  member {}: {:?} in turn {}",
                member.me(),
                member.end(),
                member.turns()
            )?;
            println!(rt; "    {:?}", member.history())?;
        }
    }
    Ok(())
}

/// Leads the members of a group over a net, and tells how many words were sent.
fn lead(
    alloc: Global,
    members: &mut [Option<Member>],
    words: &mut [u64],
) -> Result<usize, AllocError>
    requires sound { (g : Group) × (letters : LettersByNumber) × IsSound g (over members.old words.old letters) }
    ensures sound { (g : Group) (letters : LettersByNumber) → IsSound g (over members.old words.old letters)
        → IsSound g (over members.new words.new letters) }
{
    let mut net: Vec<Packet> = Vec::new(alloc);
    // How many packets there were as each turn began.
    let mut marks: Vec<usize> = Vec::new(alloc);
    for turn in 0..TURNS {
        marks.push(net.len())?;
        for m in 0..members.len() {
            take_turn(members, words, &mut net, m)?;
        }
        arrive(words, sent_in(&net, &marks, turn.checked_sub(DELAY)), true);
        arrive(words, sent_in(&net, &marks, turn.checked_sub(AGAIN)), false);
    }
    Ok(net.len())
}

/// The packets that were sent in a turn, if there was one, where these many were there as each turn began.
#[tactic(auto, using(crate::proofs::Carrying::among_part))]
fn sent_in<'a>(net: &'a [Packet], marks: &[usize], turn: Option<usize>) -> &'a [Packet]
    ensures among { All (Contains net.now) result.now }
{
    let Some(turn) = turn else {
        return &[];
    };
    match marks.get(turn..) {
        Some([from, to, ..]) if from <= to && *to <= net.len() => &net[*from..*to],
        _ => &[],
    }
}

/// The member `m`, where it is there, takes its turn, or comes to its end.
fn take_turn(
    members: &mut [Option<Member>],
    words: &mut [u64],
    net: &mut Vec<Packet>,
    m: usize,
) -> Result<(), AllocError>
    requires within { m < length members.old }
    requires carried { (g : Group) × (letters : LettersByNumber)
        × IsCarried g (over members.old words.old letters) net.old.items }
    ensures carried { (g : Group) (letters : LettersByNumber)
        → IsCarried g (over members.old words.old letters) net.old.items
        → IsCarried g (over members.new words.new letters) net.new.items }
{
    for _ in 0..DEEDS {
        take_deed(members, words, net, m)?;
        if is_at_rest(&members[m]) {
            break;
        }
    }
    Ok(())
}

/// The member `m`, where it is there, takes its next deed, over its own copy. What it pushes is on its way then.
fn take_deed(
    members: &mut [Option<Member>],
    words: &mut [u64],
    net: &mut Vec<Packet>,
    m: usize,
) -> Result<(), AllocError>
    requires within { m < length members.old }
    requires carried { (g : Group) × (letters : LettersByNumber)
        × IsCarried g (over members.old words.old letters) net.old.items }
    ensures carried { (g : Group) (letters : LettersByNumber)
        → IsCarried g (over members.old words.old letters) net.old.items
        → IsCarried g (over members.new words.new letters) net.new.items }
{
    let Some(member) = &mut members[m] else {
        return Ok(());
    };
    match member.next() {
        Deed::Look(index) => member.looked(words[index]),
        Deed::Push(index, word) => {
            net.push(Packet { index, word })?;
            member.pushed();
        }
        Deed::Act(index, word) => {
            words[index] = word;
            member.acted();
        }
        Deed::Append(_) => member.appended(),
        // Nobody is late here, so no letter is given and none is taken.
        Deed::Give { .. } | Deed::Take | Deed::Rest(_) => {}
    }
    Ok(())
}

/// The words of these packets come to their places, each where no greater one stands; over a lossy way one of
/// four is lost. Whatever else is on its way stays so.
fn arrive(words: &mut [u64], packets: &[Packet], lossy: bool)
    requires carried { (g : Group) × (members : List (Option Running)) × (letters : LettersByNumber)
        × (net : List PacketOf) × All (Contains net) packets.now
        × IsCarried g (over members words.old letters) net }
    ensures carried { (g : Group) (members : List (Option Running)) (letters : LettersByNumber)
        (net : List PacketOf) → All (Contains net) packets.now
        → IsCarried g (over members words.old letters) net
        → IsCarried g (over members words.new letters) net }
{
    for (nth, packet) in packets.iter().enumerate() {
        if !lossy || nth % LOST != 1 {
            words[packet.index] = words[packet.index].max(packet.word);
        }
    }
}
