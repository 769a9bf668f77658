//! How many turns are enough for a group, and how many it takes.
ghost use Rattle.std.specs.{List.list_all, Prelude.{◌≡◌, ◌++◌, IfOk, OnOk, string_bytes, true}};
ghost use Rattle.dr_complete.specs.{Enough.turns_enough, Time.HasTime};
ghost use Rattle.dr_entry.specs.declared.end.MemberEnd.{MemberEnd as MemberEndOf};
ghost use Rattle.dr_machine.specs.Group.{IsGroup};
ghost use Rattle.dr_restart.specs.Groups.{first_group_of};
ghost use Rattle.dr_script.specs.Ranges.{HasRanges};
ghost use Rattle.dr_tools.specs.Explained.{taken_line, turns_line};
ghost use Rattle.dr_tools.specs.Turns.{EndDone, IsFirstAge, TakesTurns, calm_group, is_done, with_turns};

use dr_ages::timely_ages_complete;
use dr_complete::turns_enough;
use dr_entry::{AgeEnd, End, MemberEnd, Seq};
use dr_fresh::logs_of;
use dr_restart::first_start;
use dr_script::{Schedule, Script};
use dr_sim::sim_age;
use std::alloc::{AllocError, Global};
use std::fmt::Write;

/// Appends the first line of what is said of a script.
pub(crate) fn push_turns(out: &mut String, script: &Script) -> Result<(), AllocError>
    requires { HasRanges script.now }
    ensures { OnOk result (string_bytes out.new ≡ string_bytes out.old ++ turns_line script.now) }
{
    let enough = turns_enough(script);
    let turns = script.turns;
    writeln!(
        out,
        "{enough} turns are enough in lockstep without faults; the script has {turns}"
    )
}

/// Appends the second one, by the messages of whoever has most, and the turns that the group takes.
pub(crate) fn push_taken(out: &mut String, most: usize, taken: u32) -> Result<(), AllocError>
    ensures { OnOk result
        (string_bytes out.new ≡ string_bytes out.old ++ taken_line most taken) }
{
    writeln!(
        out,
        "that is 4 * {most} + 8, as the member with the most messages has {most}; run so, the group takes {taken}"
    )
}

/// How many turns the group of a script takes in lockstep without faults.
pub(crate) fn turns_taken(alloc: Global, script: Script) -> Result<u32, AllocError>
    requires { HasRanges script }
    ensures { IfOk result (TakesTurns (calm_group script)) }
{
    let calm = calm_script(alloc, script);
    fewest(alloc, calm)
}

/// The script without its faults, in lockstep, with turns enough.
#[tactic(auto, using(dr_complete::proofs::Enough::few_turns))]
fn calm_script(alloc: Global, script: Script) -> Script
    requires { HasRanges script }
    ensures calm { result ≡ with_turns (calm_group script) (turns_enough script) }
    ensures ranges { HasRanges result }
    ensures time { HasTime result }
{
    let turns = turns_enough(&script) as u32;
    Script {
        turns,
        faults: Seq::of(Vec::new(alloc)),
        schedule: Schedule::Lockstep,
        ..script
    }
}

/// The fewest turns with which all members of a group are done that has turns enough.
fn fewest(alloc: Global, script: Script) -> Result<u32, AllocError>
    requires ranges { HasRanges script }
    requires time { HasTime script }
    ensures { IfOk result (TakesTurns script) }
{
    let mut script = script;
    complete(alloc, &script)?;
    let (mut few, mut enough) = (0, script.turns);
    while enough - few > 1 {
        let middle = few + (enough - few) / 2;
        script.turns = middle;
        if end_done(alloc, &script)? {
            enough = middle;
        } else {
            few = middle;
        }
    }
    Ok(enough)
}

/// Simulates the first age of a script that gives its members time enough: all are done where it ends.
fn complete(alloc: Global, script: &Script) -> Result<(), AllocError>
    requires ranges { HasRanges script.now }
    requires time { HasTime script.now }
    ensures { OnOk result (EndDone script.now true) }
{
    timely_ages_complete();
    first_age(alloc, script)?;
    Ok(())
}

/// Whether all members are done where the first age of a script ends.
fn end_done(alloc: Global, script: &Script) -> Result<bool, AllocError>
    requires { HasRanges script.now }
    ensures { IfOk result (EndDone script.now) }
{
    let age = first_age(alloc, script)?;
    Ok(are_done(age.members.as_slice()))
}

fn are_done(members: &[MemberEnd]) -> bool
    ensures { result ≡ list_all (λ (m : MemberEndOf). is_done m.end) members.now }
{
    members.iter().all(|member| is_done(member.end))
}

fn is_done(end: End) -> bool
    ensures { result ≡ is_done end }
{
    matches!(end, End::Done)
}

/// Simulates the first age of a script, over logs in memory.
fn first_age(alloc: Global, script: &Script) -> Result<AgeEnd, AllocError>
    requires { HasRanges script.now }
    ensures first { IfOk result (IsFirstAge script.now) }
    ensures group { IsGroup (first_group_of script.now) }
{
    let start = first_start(alloc, script);
    let mut logs = logs_of(alloc, script, &start)?;
    sim_age(alloc, script, &start, 0, &mut logs)
}
