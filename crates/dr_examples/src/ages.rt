//! From a script to the ends of its members.
use dr_fresh::logs_of;
use dr_restart::first_start;
use dr_script::read_script;
use dr_sim::sim_age;
use std::alloc::Global;
use std::io::Print;

/// Three members with one message each, of whom member 0 crashes in its second turn.
const SCRIPT: &[u8] = br#"{"members":3,"window":1,"turns":30,"patience":0,"ages":1,
    "messages":[["a"],["b"],["c"]],"schedule":7,"faults":[{"age":0,"member":0,"crash":[2,3]}]}"#;

/// The group of a script runs through its first age. Prints how its members ended.
pub fn show_age(rt: &impl Print, alloc: Global) -> anyhow::Result<()> {
    let script = read_script(alloc, SCRIPT)?;
    let start = first_start(alloc, &script);
    let mut logs = logs_of(alloc, &script, &start)?;
    let age = sim_age(alloc, &script, &start, 0, &mut logs)?;
    for (me, member) in age.members.as_slice().iter().enumerate() {
        let (end, entries) = (member.end, member.history.as_slice().len());
        println!(rt;
            "  member {me}: {end:?} with {entries} entries, durable {}",
            member.durable
        )?;
    }
    Ok(())
}
