//! This part runs the ages of each script that it reads, a script a line, by the script's
//! schedule, and prints of each member of each age the turns that it took and what it put in each of its
//! views, then the votes on each log, and the report of the ages. Members may suspect each other, by script
//! and by patience, and go on in next views.
//!
//! The scripts at the front of its standard input were drawn at random, but for the first eight, and what
//! it has to print was computed for them by another program, apart from this repository. In sixty-seven of
//! them members come to a second view, in fifteen members of one view vote by several ballots, in
//! twenty-three a message is sent again, and in the eighth a member learns that it is excluded. The others
//! stand behind lines that begin with `#` and say what was worked out for them by hand.
use anyhow::anyhow;
use dr_ages::{AgesEnd, Mode, Part, run_ages};
use dr_disk::MemoryDisk;
use dr_entry::{AgeEnd, MemberEnd, SentItem, Seq, Vote};
use dr_io::OutputSink;
use dr_log::Log;
use dr_pace::SnoozePace;
use dr_script::read_script;
use dr_text::{Last, Report};
use dr_yard::MemoryYard;
use std::alloc::Global;
use std::thread::Threads;

/// The most bytes of a log.
const LOG_LIMIT: u64 = 1 << 31;

/// Prints what becomes of these lines.
pub(crate) fn show(
    rt: &HostRuntime,
    threads: &(impl Threads + Sync),
    lines: &str,
) -> anyhow::Result<()> {
    for line in lines.lines() {
        if line.starts_with('#') {
            println!(rt; "{line}")?;
            continue;
        }
        let (end, disks) = ended(threads, rt.alloc(), line.as_bytes())?;
        for age in end.ages.as_slice() {
            print_members(rt, age)?;
        }
        for (me, disk) in disks.into_iter().enumerate() {
            print_votes(rt, rt.alloc(), me, disk)?;
        }
        let report = Report::of(rt.alloc(), end.ages.as_slice(), &Last::Done)?;
        report.write_to(&mut OutputSink::new(rt.stdout()))?;
    }
    Ok(())
}

/// How the ages of a script end, and the disks of its members.
fn ended(
    rt: &(impl Threads + Sync),
    alloc: Global,
    script: &[u8],
) -> anyhow::Result<(AgesEnd, Vec<MemoryDisk>)> {
    let script = read_script(alloc, script)?;
    let mut yard = MemoryYard::new(alloc, Vec::new(alloc), &[])?;
    let end = run_ages(
        rt,
        alloc,
        &script,
        &Part::everybody(),
        Mode::Sim,
        "",
        &mut yard,
        &SnoozePace,
    );
    let mut disks = yard.into_disks();
    disks.truncate(usize::from(script.members));
    Ok((end, disks))
}

/// Prints the turns of each member of an age, and what it put in each view: the index of a message, or a dash
/// for a null.
fn print_members(rt: &HostRuntime, age: &AgeEnd) -> anyhow::Result<()> {
    for (me, member) in age.members.as_slice().iter().enumerate() {
        print!(rt; "age {} member {me}: {} turns", age.age, member.turns)?;
        for view in member.sent.as_slice() {
            print!(rt; ", {}:", view.number)?;
            for item in view.items.as_slice() {
                match item {
                    SentItem::Null => print!(rt; " -")?,
                    SentItem::Index(index) => print!(rt; " {index}")?,
                }
            }
        }
        println!(rt)?;
    }
    Ok(())
}

/// Prints the votes on a member's log. Whom a vote names, to leave or to come, is a mask, in hexadecimal.
fn print_votes(rt: &HostRuntime, alloc: Global, me: usize, disk: MemoryDisk) -> anyhow::Result<()> {
    let log = Log::mount(alloc, disk, LOG_LIMIT).map_err(|fault| anyhow!("{:?}", fault.why))?;
    for vote in log.votes() {
        let Vote {
            age,
            view,
            ballot,
            members,
            value,
        } = vote;
        print!(rt;
            "vote of {me}: age {age} view {view} ballot {ballot} leavers {:x} trim",
            value.leavers
        )?;
        for count in value.trim.iter().take(usize::from(*members)) {
            print!(rt; " {count}")?;
        }
        println!(rt)?;
    }
    Ok(())
}
