//! Single faults: each call of a disk, and of a yard.
use crate::runs::{MEMBERS, disks_with, has_failed, run};
use dr_intake::status_of;
use dr_text::Last;
use std::alloc::Global;
use std::process::Abort;
use std::test::Fail;
use std::thread::Threads;

/// Whether the last line names this member's disk, or says that all went well where no call failed.
fn is_told(last: &Option<Last>, failed: bool, member: u8) -> bool {
    match last {
        Some(Last::DiskFault { member: named }) => failed && *named == member,
        Some(Last::Done) => !failed,
        _ => false,
    }
}

/// How many runs there are, in which one call of a member's disk is to fail, each one in turn, up to the
/// first that meets no such call. Each names the member where it met one.
fn runs_with_a_fault(
    rt: &(impl Threads + Sync + Abort),
    alloc: Global,
    member: u8,
) -> Result<u64, Fail> {
    for call in 1..1000 {
        let ran = run(rt, alloc, disks_with(alloc, member, &[call], None)?, &[])?;
        let met = has_failed(ran.disks.as_slice(), member);
        assert!(rt;
            is_told(&ran.outcome.last, met, member),
            "call {call} of member {member}"
        );
        if !met {
            return Ok(call);
        }
    }
    Err(Fail::from("the calls don't end"))
}

/// Each call of the disk of each member fails in turn, until a run meets none: the status is 6, and the last
/// line names the member.
#[test]
fn each_call_of_a_disk_may_fail(rt: HostRuntime) -> Result<(), Fail> {
    let alloc = rt.alloc();
    for member in 0..MEMBERS {
        let runs = runs_with_a_fault(&rt, alloc, member)?;
        assert!(rt; runs > 20, "{runs} runs of member {member}");
    }
    Ok(())
}

/// Each disk can't be lent in turn: two in each of two ages.
#[test]
fn each_disk_may_be_kept_back(rt: HostRuntime) -> Result<(), Fail> {
    let alloc = rt.alloc();
    for lend in 1..=4 {
        let ran = run(&rt, alloc, disks_with(alloc, 0, &[], None)?, &[lend])?;
        let member = ((lend - 1) % 2) as u8;
        assert!(rt; is_told(&ran.outcome.last, true, member), "lend {lend}");
        assert!(rt; ran.outcome.ages.as_slice().len() as u64 == (lend - 1) / 2);
        if let Some(last) = &ran.outcome.last {
            assert!(rt; status_of(last) == 6);
        }
    }
    let ran = run(&rt, alloc, disks_with(alloc, 0, &[], None)?, &[5])?;
    assert!(rt; is_told(&ran.outcome.last, false, 0));
    Ok(())
}
