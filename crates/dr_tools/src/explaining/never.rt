ghost use Rattle.dr_script.specs.Ranges.{HasRanges};

use dr_complete::turns_enough;
use dr_script::{Fault, Schedule, Script, What};
use std::alloc::{AllocError, Global};
use std::fmt::Write;

/// The faults of a script, and what tells when they come.
#[derive(Drop)]
pub(crate) struct Plan {
    faults: Vec<Fault>,
    schedule: Schedule,
    /// So many turns are enough for any age in lockstep without faults.
    enough: usize,
}

impl Plan {
    /// The plan of a script.
    pub(crate) fn of(alloc: Global, script: &Script) -> Result<Plan, AllocError>
        requires { HasRanges script.now }
    {
        let mut faults = Vec::new(alloc);
        faults.extend_from_slice(script.faults.as_slice())?;
        Ok(Plan {
            faults,
            schedule: script.schedule,
            enough: turns_enough(script),
        })
    }

    /// Whether the schedule is a seed.
    pub(crate) fn is_seeded(&self) -> bool {
        matches!(self.schedule, Schedule::Seed(_))
    }

    /// The turn by which in lockstep the members of an age are done, where all its faults come later and nobody is
    /// late. The first age takes so many turns without faults.
    fn done_by(&self, age: u8, taken: u32) -> Option<usize> {
        if self.schedule != Schedule::Lockstep {
            None
        } else if come_later(&self.faults, age, self.enough) {
            Some(self.enough)
        } else if age == 0 && come_later(&self.faults, age, taken as usize) {
            Some(taken as usize)
        } else {
            None
        }
    }
}

/// Appends which faults of a plan never come, and which say the same as others, where its group takes so many turns in
/// lockstep without faults.
pub(crate) fn push_never(out: &mut String, plan: &Plan, taken: u32) -> Result<(), AllocError> {
    let faults = plan.faults.as_slice();
    for (index, fault) in faults.iter().enumerate() {
        let member = fault.member;
        if let Some(earlier) = crash_before(faults, index, fault) {
            writeln!(
                out,
                "fault {index} never comes: member {member} has ended by then, by fault {earlier} at the latest"
            )?;
        } else if let Some(turn) = plan.done_by(fault.age, taken) {
            writeln!(
                out,
                "fault {index} never comes: in lockstep member {member} is done by turn {turn}"
            )?;
        } else if let Some(same) = faults.iter().take(index).position(|other| other == fault) {
            writeln!(out, "fault {index} says the same as fault {same}")?;
        }
    }
    Ok(())
}

/// The number of the fault by which the member of this one crashes first, where that is before this one would
/// come.
fn crash_before(faults: &[Fault], index: usize, fault: &Fault) -> Option<usize> {
    let mut first = None;
    for (at, other) in faults.iter().enumerate() {
        if let What::Crash { turn, push } = other.what {
            let is_first = first.is_none_or(|found| (turn, push, at) < found);
            if is_first && is_crash_before(at, other, index, fault) {
                first = Some((turn, push, at));
            }
        }
    }
    first.map(|(_, _, at)| at)
}

/// Whether the fault numbered `at` is a crash of the same member in the same age, and comes first.
fn is_crash_before(at: usize, other: &Fault, index: usize, fault: &Fault) -> bool {
    if other.age != fault.age || other.member != fault.member {
        return false;
    }
    match (other.what, fault.what) {
        (
            What::Crash { turn, push },
            What::Crash {
                turn: later,
                push: last,
            },
        ) => { (turn, push, at) < (later, last, index) }
        // In its turn a suspicion comes before all pushes.
        (What::Crash { turn, .. }, What::Suspect { turn: later, .. }) => turn < later,
        _ => false,
    }
}

/// Whether all faults of an age come behind this turn.
fn come_later(faults: &[Fault], age: u8, turn: usize) -> bool {
    faults
        .iter()
        .filter(|fault| fault.age == age)
        .all(|fault| turn_of(fault.what) > turn)
}

fn turn_of(what: What) -> usize {
    match what {
        What::Crash { turn, .. } | What::Suspect { turn, .. } => turn as usize,
    }
}
