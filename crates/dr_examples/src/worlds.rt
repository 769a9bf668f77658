//! A world that takes events, whatever they are.
use dr_agree::agree;
use dr_restart::first_start;
use dr_script::read_script;
use dr_world::{Event, World};
use std::alloc::Global;
use std::io::Print;

/// Two members with one slot, of whom the second has nothing to send.
const SCRIPT: &[u8] = br#"{"members":2,"window":1,"turns":12,"patience":0,"ages":1,
    "messages":[["a"],[]],"faults":[],"schedule":"lockstep"}"#;

/// Member 0 puts its message and shows it to member 1, which takes it. Only when member 0 has seen that
/// may it deliver: column 2 has how far a member has received, 10 and 11 have the slot.
const EVENTS: [Event; 10] = [
    Event::Send { m: 0 },
    Event::Push { m: 0, j: 1, c: 10 },
    Event::Push { m: 0, j: 1, c: 11 },
    Event::Look { m: 1, i: 0, c: 10 },
    Event::Look { m: 1, i: 0, c: 11 },
    Event::Receive { m: 1, s: 0 },
    Event::Deliver { m: 0 },
    Event::Push { m: 1, j: 0, c: 2 },
    Event::Look { m: 0, i: 1, c: 2 },
    Event::Deliver { m: 0 },
];

/// A world takes the events one by one. Prints which of them could come, and what the members have then.
pub fn show_world(rt: &impl Print, alloc: Global) -> anyhow::Result<()> {
    let script = read_script(alloc, SCRIPT)?;
    let start = first_start(alloc, &script);
    let mut world = World::opening(alloc, &script, &start)?;
    for event in &EVENTS {
        let came = world.step(event);
        println!(rt; "  {event:?}: {came}")?;
    }
    for m in 0..world.members() {
        println!(rt; "  member {m} has {} entries", world.history(m).len())?;
    }
    println!(rt; "  they agree: {}", agree(&world))?;
    Ok(())
}
