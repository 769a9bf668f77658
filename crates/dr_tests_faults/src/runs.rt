//! A run of two ages over disks in memory.
ghost use Rattle.std.specs.Prelude.{IfOk, IfErr};
ghost use Rattle.dr_script.specs.Ranges.{HasRanges};
ghost use Rattle.dr_yard.specs.Memory.{AreHere};

use dr_disk::MemoryDisk;
use dr_intake::script_or_refusal;
use dr_outcome::{Folder, Mode, Outcome, Play, play_script};
use dr_pace::SnoozePace;
use dr_script::Script;
use dr_words::Mask;
use dr_yard::MemoryYard;
use std::alloc::Global;
use std::test::Fail;
use std::thread::Threads;

/// How many members there are.
pub(crate) const MEMBERS: u8 = 2;

/// Two members with a message each, which crash in their second turn and start again.
const SCRIPT: &[u8] =
    br#"{"members":2,"window":1,"turns":12,"patience":0,"ages":2,"messages":[["a"],["b"]],"schedule":"lockstep",
    "faults":[{"age":0,"member":0,"crash":[2,0]},{"age":0,"member":1,"crash":[2,0]}]}"#;

pub(crate) fn script(alloc: Global) -> Result<Script, Fail>
    ensures { IfOk result HasRanges }
{
    match script_or_refusal(alloc, SCRIPT) {
        Ok(script) => Ok(script),
        Err(_) => Err(Fail::from("the script was refused")),
    }
}

/// What a run comes to, and its disks behind it, one for each place of the yard.
#[derive(Drop)]
pub(crate) struct Ran {
    pub(crate) outcome: Outcome,
    pub(crate) disks: Vec<MemoryDisk>,
}

/// Runs the script over these disks, by member. The calls of `lend` with these numbers, from 1, fail.
pub(crate) fn run(
    rt: &(impl Threads + Sync),
    alloc: Global,
    disks: Vec<MemoryDisk>,
    lends: &[u64],
) -> Result<Ran, Fail> {
    if disks.len() > 16 {
        return Err(Fail::from("there are too many disks"));
    }
    let script = script(alloc)?;
    let mut yard = MemoryYard::new(alloc, disks, lends)?;
    let play = Play {
        mode: Mode::Sim,
        folder: Some(Folder {
            name: "d",
            missing: Mask::empty(),
        }),
        late: Mask::empty(),
    };
    let outcome = play_script(rt, alloc, &script, &play, &mut yard, &SnoozePace);
    Ok(Ran {
        outcome,
        disks: yard.into_disks(),
    })
}

/// Disks of both members, the one of this member with calls that fail so.
pub(crate) fn disks_with(
    alloc: Global,
    member: u8,
    fails: &[u64],
    stop: Option<u64>,
) -> Result<Vec<MemoryDisk>, Fail> {
    let mut disks = Vec::new(alloc);
    for at in 0..MEMBERS {
        disks.push(if at == member {
            MemoryDisk::new(alloc, fails, stop)?
        } else {
            MemoryDisk::new(alloc, &[], None)?
        })?;
    }
    Ok(disks)
}

/// Whether the disk of a member has counted a fault.
pub(crate) fn has_failed(disks: &[MemoryDisk], member: u8) -> bool {
    match disks.get(usize::from(member)) {
        Some(disk) => disk.faults() > 0,
        None => false,
    }
}
