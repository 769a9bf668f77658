//! Runs in threads over a pace at which members meet: each waits behind each of its turns until the others
//! have come as far. Members that were simulated, or of whom some ran before the others, would not meet.
use crate::top::{Call, outcome, plain_call};
use dr_commands::Ended;
use dr_entry::{End, Entry, MemberEnd};
use dr_io::MemorySink;
use dr_pace::{HoldPace, MeetPace, Pace, SnoozePace};
use dr_yard::CalmYard;
use std::alloc::Global;
use std::process::Abort;
use std::sync::atomic::{AtomicBool, Ordering};
use std::test::Fail;
use std::thread::Threads;

/// One member that sends nothing.
const ONE: &[u8] = br#"{"members":1,"window":1,"turns":12,"patience":0,"ages":1,"messages":[[]],
    "faults":[],"schedule":"lockstep"}"#;

/// Eight members with a message each.
const EIGHT: &[u8] = br#"{"members":8,"window":1,"turns":60,"patience":0,"ages":1,
    "messages":[["a"],["b"],["c"],["d"],["e"],["f"],["g"],["h"]],"faults":[],"schedule":"lockstep"}"#;

/// Sixteen members, half of which have a message.
const SIXTEEN: &[u8] = br#"{"members":16,"window":1,"turns":60,"patience":0,"ages":1,
    "messages":[["a"],[],["c"],[],["e"],[],["g"],[],["i"],[],["k"],[],["m"],[],["o"],[]],
    "faults":[],"schedule":"lockstep"}"#;

/// Three members with a message each, in two ages. The last one crashes in the first age before it has said
/// anything, so that the others spend their turns there.
const AGES: &[u8] =
    br#"{"members":3,"window":1,"turns":30,"patience":0,"ages":2,"messages":[["a"],["b"],["c"]],
    "faults":[{"age":0,"member":2,"crash":[1,0]}],"schedule":"lockstep"}"#;

/// Five members with a message each, the last of which crashes before it has said anything. The first one
/// suspects it, and another one that runs, once those that run have received what there is.
const SUSPECTS: &[u8] = br#"{"members":5,"window":1,"turns":90,"patience":0,"ages":1,
    "messages":[["a"],["b"],["c"],["d"],["e"]],"schedule":"lockstep","faults":[
    {"age":0,"member":4,"crash":[1,0]},{"age":0,"member":0,"suspect":[30,4]},{"age":0,"member":0,"suspect":[30,3]}]}"#;

/// How often a member looks at most whether the others have come.
const LOOKS: u64 = 100_000_000;

/// How often it looks where nobody comes.
const FEW_LOOKS: u64 = 20;

/// A call with this script, the report of which may be long.
fn long_call<'a>(words: &'a [&'a str], script: &'a [u8]) -> Call<'a> {
    Call {
        room: 10_000,
        ..plain_call(words, script)
    }
}

/// Shows that members met behind a turn at least, each of them, and that nobody waited in vain.
fn shows_meetings(rt: &impl Abort, pace: &MeetPace, members: u8) {
    assert!(rt; pace.missed() == 0 && pace.met() >= u32::from(members));
}

/// Shows that so many members, one a thread, meet, and write what a lockstep does.
fn shows_a_run(
    rt: &(impl Threads + Sync + Abort),
    alloc: Global,
    script: &[u8],
    members: u8,
) -> Result<(), Fail> {
    let pace = MeetPace::new(alloc, members, LOOKS)?;
    let mut yard = CalmYard::new(alloc)?;
    let sim = long_call(&["sim"], script);
    let (wanted, text) = outcome(rt, alloc, sim, &mut yard, &SnoozePace)?;
    let mut yard = CalmYard::new(alloc)?;
    let run = long_call(&["run"], script);
    let (ended, sink) = outcome(rt, alloc, run, &mut yard, &pace)?;
    assert_eq!(rt; ended.status, wanted.status);
    assert_eq!(rt; sink.bytes(), text.bytes());
    shows_meetings(rt, &pace, members);
    Ok(())
}

#[test]
fn eight_members_run_at_once(rt: HostRuntime) -> Result<(), Fail> {
    shows_a_run(&rt, rt.alloc(), EIGHT, 8)
}

#[test]
fn sixteen_members_run_at_once(rt: HostRuntime) -> Result<(), Fail> {
    shows_a_run(&rt, rt.alloc(), SIXTEEN, 16)
}

/// A pace for each of two ages. Who has come to its end in the first one is in the second.
#[derive(Drop)]
struct MeetTwice {
    first: MeetPace,
    second: MeetPace,
    have_ended: [AtomicBool; 3],
}

impl MeetTwice {
    /// The pace of the age in which a member is.
    fn pace_of(&self, member: u8) -> &MeetPace {
        match self.have_ended.get(usize::from(member)) {
            Some(has_ended) if has_ended.load(Ordering::SeqCst) => &self.second,
            _ => &self.first,
        }
    }
}

impl Pace for MeetTwice {
    fn turn(&self, member: u8, turn: u32) {
        self.pace_of(member).turn(member, turn);
    }

    fn rest(&self, member: u8) {
        self.pace_of(member).rest(member);
        if let Some(has_ended) = self.have_ended.get(usize::from(member)) {
            has_ended.store(true, Ordering::SeqCst);
        }
    }
}

#[test]
fn members_run_at_once_in_each_age(rt: HostRuntime) -> Result<(), Fail> {
    let alloc = rt.alloc();
    let mut yard = CalmYard::new(alloc)?;
    let pace = MeetTwice {
        first: MeetPace::new(alloc, 3, LOOKS)?,
        second: MeetPace::new(alloc, 3, LOOKS)?,
        have_ended: [
            AtomicBool::new(false),
            AtomicBool::new(false),
            AtomicBool::new(false),
        ],
    };
    let (ended, _) = outcome(&rt, alloc, long_call(&["run"], AGES), &mut yard, &pace)?;
    shows_meetings(&rt, &pace.first, 2);
    shows_meetings(&rt, &pace.second, 3);
    let [first, second] = ended.ages.as_slice() else {
        return Err(Fail::from("two ages were asked for"));
    };
    let ([one, other, crashed], [_, _, _]) = (first.members.as_slice(), second.members.as_slice())
    else {
        return Err(Fail::from("the group has three members"));
    };
    let spent = End::Spent { turns: 30 };
    assert!(rt; ended.status == 8 && one.end == spent && other.end == spent);
    assert!(rt; crashed.end == End::Crashed);
    for member in second.members.as_slice() {
        assert!(rt; member.end == End::Done && lengths(member) == (5, 5, 5));
    }
    Ok(())
}

/// Members go on without one that has crashed and one that is suspected, though it runs. Which of the others
/// has told that one depends on the threads.
#[test]
fn members_in_threads_go_on_without_others(rt: HostRuntime) -> Result<(), Fail> {
    let alloc = rt.alloc();
    let mut yard = CalmYard::new(alloc)?;
    let pace = MeetPace::new(alloc, 5, LOOKS)?;
    let (ended, sink) = outcome(&rt, alloc, long_call(&["run"], SUSPECTS), &mut yard, &pace)?;
    shows_meetings(&rt, &pace, 4);
    assert!(rt; ended.status == 0 && sink.bytes().ends_with(b"\nok\n"));
    let [age] = ended.ages.as_slice() else {
        return Err(Fail::from("one age was asked for"));
    };
    let [stay @ .., suspected, crashed] = age.members.as_slice() else {
        return Err(Fail::from("the group has five members"));
    };
    for member in stay {
        assert!(rt; member.end == End::Done && lengths(member) == (6, 6, 6));
        assert!(rt; ends_with_view(member.history.as_slice(), 0b111));
    }
    assert!(rt; matches!(suspected.end, End::Suspected { .. }) && crashed.end == End::Crashed);
    Ok(())
}

/// How many entries a member has delivered, logged and called durable.
fn lengths(member: &MemberEnd) -> (u64, u64, u64) {
    (
        member.history.as_slice().len() as u64,
        member.logged,
        member.durable,
    )
}

/// Whether the last entry of a history is the first view behind View 0, of these members.
fn ends_with_view(history: &[Entry], of: u16) -> bool {
    matches!(history, [.., Entry::View { age: 0, number: 1, members }] if *members == of)
}

/// A member that never comes is waited for behind each turn of the one that there is, and never met; and so
/// it is where that one is held until the other has ended.
#[test]
fn waits_for_a_member_that_never_comes_run_out(rt: HostRuntime) -> Result<(), Fail> {
    let meeting = MeetPace::new(rt.alloc(), 2, FEW_LOOKS)?;
    let turns = turns_alone(&rt, rt.alloc(), &meeting)?;
    assert!(rt; turns > 0 && meeting.missed() == turns && meeting.met() == 0);
    let holding = HoldPace::new(1, FEW_LOOKS);
    let turns = turns_alone(&rt, rt.alloc(), &holding)?;
    assert!(rt; turns > 0 && holding.missed() == turns);
    Ok(())
}

/// How many turns the only member of a group takes in a thread.
fn turns_alone<P: Pace + Sync>(
    rt: &(impl Threads + Sync + Abort),
    alloc: Global,
    pace: &P,
) -> Result<u32, Fail> {
    let mut yard = CalmYard::new(alloc)?;
    let (ended, _) = outcome(rt, alloc, plain_call(&["run"], ONE), &mut yard, pace)?;
    match ended.ages.as_slice() {
        [age] => match age.members.as_slice() {
            [member] => Ok(member.turns),
            _ => Err(Fail::from("the group has one member")),
        },
        _ => Err(Fail::from("one age was asked for")),
    }
}
