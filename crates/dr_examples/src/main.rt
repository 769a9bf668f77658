//! Six examples for those who build on these layers: members that are led deed by deed, the same with words
//! that are on their way for a while, a second leader by its words, a world that takes events, a log over a disk
//! of one's own, and an age of a script.
//! `docs/LIBRARY.md` shows their lines.
#![tactic(auto)]

mod ages;
mod disk;
mod leaders;
mod logs;
mod members;
mod net;
mod worlds;

use ages::show_age;
use leaders::show_leader;
use logs::show_log;
use members::show_members;
use net::show_net;
use worlds::show_world;

fn main(rt: HostRuntime) -> anyhow::Result<()> {
    println!(rt; "members that are led deed by deed")?;
    show_members(&rt, rt.alloc())?;
    println!(rt; "members whose words are on their way for a while")?;
    show_net(&rt, rt.alloc())?;
    println!(rt; "a second leader")?;
    show_leader(&rt, rt.alloc())?;
    println!(rt; "a world that takes events")?;
    show_world(&rt, rt.alloc())?;
    println!(rt; "a log over a disk of one's own")?;
    show_log(&rt, rt.alloc())?;
    println!(rt; "an age of a script")?;
    show_age(&rt, rt.alloc())?;
    Ok(())
}
