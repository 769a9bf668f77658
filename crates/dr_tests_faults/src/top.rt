ghost use Rattle.std.specs.Prelude.{◌≡◌, ◌<◌, ℕ, IfOk, false};
ghost use Rattle.dr_entry.specs.declared.limits.TheConstants.{MAX_MEMBERS};

use dr_commands::{Ended, derecho};
use dr_disk::MemoryDisk;
use dr_entry::{End, Entry};
use dr_io::{MemorySink, MemorySource};
use dr_pace::{HoldPace, MeetPace, Pace, SnoozePace};
use dr_yard::{CalmYard, MemoryYard, Yard};
use std::alloc::Global;
use std::process::Abort;
use std::test::Fail;
use std::thread::Threads;

/// One member that sends nothing.
const ONE: &[u8] =
    br#"{"members":1,"window":1,"turns":12,"patience":0,"ages":1,"messages":[[]],"faults":[],"schedule":"lockstep"}"#;

const ONE_TEXT: &[u8] = b"\
age 0 start 0
member 0 done history 1 logged 1 durable 1
  view 0 0 0
ok
";

/// Three members with a message each, and turns enough for a lockstep.
const THREE: &[u8] =
    br#"{"members":3,"window":1,"turns":12,"patience":0,"ages":1,"messages":[["a"],["b"],["c"]],"faults":[],"schedule":"lockstep"}"#;

const THREE_TEXT: &[u8] = b"\
age 0 start 0
member 0 done history 4 logged 4 durable 4
  view 0 0 0,1,2
  msg 0 0 61
  msg 1 0 62
  msg 2 0 63
member 1 done history 4 logged 4 durable 4
  view 0 0 0,1,2
  msg 0 0 61
  msg 1 0 62
  msg 2 0 63
member 2 done history 4 logged 4 durable 4
  view 0 0 0,1,2
  msg 0 0 61
  msg 1 0 62
  msg 2 0 63
ok
";

/// Three members with a message each, the first of which wishes for the last one, if that is late.
const JOIN: &[u8] =
    br#"{"members":3,"window":1,"turns":24,"patience":0,"ages":1,"messages":[["a"],["b"],["c"]],"faults":[{"age":0,"member":0,"suspect":[2,2]}],"schedule":"lockstep"}"#;

/// How often a member looks at most whether the others have come.
const LOOKS: u64 = 100_000_000;

/// Two members with a message each, which have four turns in each of two ages.
const TWO_AGES: &[u8] =
    br#"{"members":2,"window":1,"turns":4,"patience":0,"ages":2,"messages":[["a"],["b"]],"faults":[],"schedule":"lockstep"}"#;

/// The call of the disk of member 0 that would log `a` fails in age 0. The entry `b`, which only this member
/// has delivered, is on no log, and is sent again in age 1.
const DISK_FAULT_TEXT: &[u8] = b"\
age 0 start 0
member 0 diskfault history 3 logged 1 durable 1
  view 0 0 0,1
  msg 0 0 61
  msg 1 0 62
member 1 spent 4 history 2 logged 2 durable 1
  view 0 0 0,1
  msg 0 0 61
age 1 start 2
  view 0 0 0,1
  msg 0 0 61
member 0 done history 4 logged 4 durable 4
  view 1 0 0,1
  msg 1 0 62
member 1 done history 4 logged 4 durable 4
  view 1 0 0,1
  msg 1 0 62
fault: disk of member 0
";

/// What a call is made with: its words, the script on its source, which reads of that fail, and the room of
/// its sink.
#[derive(Clone, Copy)]
pub(crate) struct Call<'a> {
    pub(crate) words: &'a [&'a str],
    pub(crate) script: &'a [u8],
    pub(crate) fails: &'a [u64],
    pub(crate) room: usize,
}

/// A call whose source doesn't fail, and whose sink has room.
pub(crate) fn plain_call<'a>(words: &'a [&'a str], script: &'a [u8]) -> Call<'a> {
    Call {
        words,
        script,
        fails: &[],
        room: 1000,
    }
}

/// How a call ends, and what it has written.
pub(crate) fn outcome<Y: Yard, P: Pace + Sync>(
    rt: &(impl Threads + Sync + Abort),
    alloc: Global,
    call: Call<'_>,
    yard: &mut Y,
    pace: &P,
) -> Result<(Ended, MemorySink), Fail>
    requires { (m : ℕ) → m < MAX_MEMBERS → Y.is_lent yard.old m ≡ false }
    ensures { IfOk result
        (λ _. (m : ℕ) → m < MAX_MEMBERS → Y.is_lent yard.new m ≡ false) }
{
    let mut words = Vec::new(alloc);
    for word in call.words {
        words.push(String::from_str(alloc, word)?)?;
    }
    let mut source = MemorySource::new(alloc, call.script, 7, call.fails)?;
    let mut sink = MemorySink::new(alloc, call.room, &[])?;
    let ended = derecho(rt, alloc, &words, &mut source, &mut sink, yard, pace);
    Ok((ended, sink))
}

/// Shows that a call ends with this status and writes this text.
fn ends<Y: Yard>(
    rt: &(impl Threads + Sync + Abort),
    alloc: Global,
    call: Call<'_>,
    yard: &mut Y,
    want: (u8, &[u8]),
) -> Result<(), Fail>
    requires { (m : ℕ) → m < MAX_MEMBERS → Y.is_lent yard.old m ≡ false }
    ensures { IfOk result
        (λ _. (m : ℕ) → m < MAX_MEMBERS → Y.is_lent yard.new m ≡ false) }
{
    let (status, text) = want;
    let (ended, sink) = outcome(rt, alloc, call, yard, &SnoozePace)?;
    assert_eq!(rt; ended.status, status);
    assert_eq!(rt; sink.bytes(), text);
    Ok(())
}

/// A script that is read in pieces of seven bytes is read whole, and a fault of each of these reads is told,
/// that of the one that finds the end too. A sink with less room than the text takes as much of it.
#[test]
fn faults_of_a_source_and_a_sink_are_told(rt: HostRuntime) -> Result<(), Fail> {
    let alloc = rt.alloc();
    let mut yard = CalmYard::new(alloc)?;
    let one = plain_call(&["sim"], ONE);
    ends(&rt, alloc, one, &mut yard, (0, ONE_TEXT))?;
    let three = plain_call(&["sim"], THREE);
    for read in 1..=THREE.len().div_ceil(7) as u64 + 1 {
        let fails = [read];
        let call = Call {
            fails: &fails,
            ..three
        };
        let mut yard = CalmYard::new(alloc)?;
        ends(&rt, alloc, call, &mut yard, (4, b"fault: source\n"))?;
    }
    for room in 0..THREE_TEXT.len() {
        let call = Call { room, ..three };
        let mut yard = CalmYard::new(alloc)?;
        ends(&rt, alloc, call, &mut yard, (5, &THREE_TEXT[..room]))?;
    }
    Ok(())
}

/// A disk that fails ends its member, and the group goes on from what its logs have. One that can't be lent
/// ends the run.
#[test]
fn faults_of_disks_are_told(rt: HostRuntime) -> Result<(), Fail> {
    let alloc = rt.alloc();
    let two_ages = plain_call(&["sim", "--logs", "d"], TWO_AGES);
    let disks = vec![in alloc; MemoryDisk::new(alloc, &[16], None)?]?;
    let mut yard = MemoryYard::new(alloc, disks, &[])?;
    ends(&rt, alloc, two_ages, &mut yard, (6, DISK_FAULT_TEXT))?;
    let mut yard = MemoryYard::new(alloc, Vec::new(alloc), &[2])?;
    let text = b"fault: disk of member 1\n";
    ends(&rt, alloc, two_ages, &mut yard, (6, text))
}

/// Members in threads that wait for one another after each turn meet, and print what a lockstep does. Members
/// that took their turns one after another would miss each other.
#[test]
fn members_in_threads_run_at_once(rt: HostRuntime) -> Result<(), Fail> {
    let alloc = rt.alloc();
    let mut yard = CalmYard::new(alloc)?;
    ends(
        &rt,
        alloc,
        plain_call(&["run"], ONE),
        &mut yard,
        (0, ONE_TEXT),
    )?;
    let pace = MeetPace::new(alloc, 3, LOOKS)?;
    let three = plain_call(&["run"], THREE);
    let (ended, sink) = outcome(&rt, alloc, three, &mut yard, &pace)?;
    assert_eq!(rt; ended.status, 0);
    assert_eq!(rt; sink.bytes(), THREE_TEXT);
    assert!(rt; pace.missed() == 0 && pace.met() >= 3);
    Ok(())
}

/// A late member comes into the next view in threads, too, and delivers what the others do. Where that view stands
/// among their messages depends on the threads.
#[test]
fn a_late_member_joins_in_threads(rt: HostRuntime) -> Result<(), Fail> {
    let alloc = rt.alloc();
    let mut yard = CalmYard::new(alloc)?;
    let pace = MeetPace::new(alloc, 3, LOOKS)?;
    let join = plain_call(&["run", "--late", "2"], JOIN);
    let (ended, sink) = outcome(&rt, alloc, join, &mut yard, &pace)?;
    assert!(rt; ended.status == 0 && pace.missed() == 0 && pace.met() >= 3);
    assert!(rt; sink.bytes().ends_with(b"\nok\n"));
    let [age] = ended.ages.as_slice() else {
        return Err(Fail::from("one age was asked for"));
    };
    let [first, second, third] = age.members.as_slice() else {
        return Err(Fail::from("the group has three members"));
    };
    for member in [first, second, third] {
        assert!(rt; member.end == End::Done && member.logged == 5 && member.durable == 5);
        assert!(rt; member.history == first.history);
    }
    assert!(rt; has_joined(first.history.as_slice()));
    Ok(())
}

/// Whether a history has the first view, and behind it in some order the messages of all three and the view in which
/// the last one is, whose message stands behind that.
fn has_joined(history: &[Entry]) -> bool {
    let [first, rest @ ..] = history else {
        return false;
    };
    let view = rest.iter().position(|entry| is_view(entry, 1, 0b111));
    let last = rest
        .iter()
        .position(|entry| is_first_message(entry, 2, b"c"));
    is_view(first, 0, 0b011)
        && rest.len() == 4
        && rest.iter().any(|entry| is_first_message(entry, 0, b"a"))
        && rest.iter().any(|entry| is_first_message(entry, 1, b"b"))
        && view.is_some()
        && view < last
}

fn is_view(entry: &Entry, wanted: u8, of: u16) -> bool {
    matches!(entry, Entry::View { age: 0, number, members } if *number == wanted && *members == of)
}

fn is_first_message(entry: &Entry, of: u8, text: &[u8]) -> bool {
    matches!(entry, Entry::Msg { sender, index: 0, bytes } if *sender == of && bytes.bytes() == text)
}

/// Members that are held behind their first turns until another one has spent its own spend theirs, too.
#[test]
fn members_that_are_held_spend_their_turns(rt: HostRuntime) -> Result<(), Fail> {
    let alloc = rt.alloc();
    let mut yard = CalmYard::new(alloc)?;
    let pace = HoldPace::new(0, LOOKS);
    let three = plain_call(&["run"], THREE);
    let (ended, _) = outcome(&rt, alloc, three, &mut yard, &pace)?;
    assert!(rt; ended.status == 8 && pace.missed() == 0);
    for age in ended.ages.as_slice() {
        assert!(rt; age.members.as_slice().len() == 3);
        for member in age.members.as_slice() {
            assert!(rt; matches!(member.end, End::Spent { turns: 12 }));
        }
    }
    Ok(())
}
