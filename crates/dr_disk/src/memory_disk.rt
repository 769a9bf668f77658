//! A disk in memory whose calls fail where they are planned to.

ghost use Rattle.std.specs.Prelude.{◌≡◌, ◌+◌, ◌≤◌, ◌↔◌, [], IfOk, IfSome, IsErr, IsSomeAnd, IsTrue, OnOk, OnErr, length, take, drop};
ghost use Rattle.dr_io.specs.{Faults.HasCause, Plan.plan_after};

use crate::disk::Disk;
use crate::kept::Kept;
use dr_io::{Failed, Plan};
use std::alloc::{AllocError, Global};
use std::marker::Model;

/// A disk in memory. The calls that are planned to fail do so and change nothing, and no others
/// fail. No call but `reserve` takes memory.
#[derive(Debug, Drop)]
pub struct MemoryDisk {
    kept: Kept,
    plan: Plan,
    stop: Option<u64>,
}

impl Model for MemoryDisk {
    ghost use Rattle.dr_disk.specs.Memory.{MemoryState};

    ghost Value = { MemoryState };

    ghost view = { λ a. record {
      calls = a.kept.calls;
      room_calls = a.kept.room_calls;
      room_bytes = a.kept.room_bytes;
      plan = a.plan;
      stop = a.stop;
    } };
}

impl MemoryDisk {
    ghost use Rattle.std.specs.Prelude.{None};
    ghost use Rattle.dr_disk.specs.Calls.{at_rest, content_after, run};
    ghost use Rattle.dr_disk.specs.Crashed.{IsFilled};
    ghost use Rattle.dr_disk.specs.Memory.{FailsNext, with_fault};
    ghost use Rattle.dr_disk.specs.Ranges.{pend_all, settled};
    ghost use Rattle.dr_io.specs.Plan.{plan_of};

    /// An empty disk. The calls whose numbers, from 1, are in `fails` fail, and all calls after the
    /// first `stop`. Calls of `reserve` have no number.
    ///
    /// # Errors
    ///
    /// Want of memory alone.
    pub fn new(alloc: Global, fails: &[u64], stop: Option<u64>) -> Result<MemoryDisk, AllocError>
        ensures calls { IfOk result (λ disk. disk.calls ≡ []) }
        ensures plan { IfOk result (λ disk. disk.plan ≡ plan_of fails.now) }
        ensures stop { IfOk result (λ disk. disk.stop ≡ stop) }
    {
        Ok(MemoryDisk {
            kept: Kept::new(alloc),
            plan: Plan::new(alloc, fails)?,
            stop,
        })
    }

    /// What a read gives.
    pub fn bytes(&self) -> &[u8]
        ensures { result.now ≡ content_after self.now.calls }
    {
        self.kept.bytes()
    }

    /// How many calls have failed.
    pub fn faults(&self) -> u64
        ensures { result ≡ self.now.plan.faults }
    {
        self.plan.faults()
    }

    /// A disk without faults that reads one image which a crash may leave of this one: as long as may be, and
    /// all that was written since the last sync, or lies past what that left, holds this byte.
    ///
    /// # Errors
    ///
    /// Want of memory alone.
    pub fn crashed(self, alloc: Global, fill: u8) -> Result<MemoryDisk, AllocError>
        ensures image { IfOk result (λ disk.
            IsFilled fill (pend_all (settled []) self.calls) (content_after disk.calls)) }
        ensures rests { IfOk result (λ disk. run disk.calls ≡ at_rest (content_after disk.calls)) }
        ensures plan { IfOk result (λ disk. disk.plan ≡ plan_of []) }
        ensures stop { IfOk result (λ disk. disk.stop ≡ None) }
    {
        let image = self.kept.crashed(alloc, fill)?;
        let mut kept = Kept::new(alloc);
        kept.reserve(2, image.len() as u64)?;
        kept.write(0, image.as_slice());
        kept.sync();
        Ok(MemoryDisk {
            kept,
            plan: Plan::new(alloc, &[])?,
            stop: None,
        })
    }

    /// Counts a fault that is not one of its calls: that of a yard which could not lend it.
    pub fn count_fault(&mut self)
        ensures after { self.new ≡ with_fault self.old }
        ensures later { self.old.plan.faults ≤ self.new.plan.faults }
    {
        self.plan.count_fault();
    }

    /// Counts one call, and fails where it is to fail, which counts as a fault.
    fn begin_call(&mut self) -> Result<(), Failed>
        ensures fails { IsErr result ↔ FailsNext self.old }
        ensures after { self.new ≡ record self.old { plan = plan_after result self.old.plan } }
        ensures cause { HasCause self.old.plan.faults self.new.plan.faults result }
    {
        let stopped = has_stopped(self.stop, self.plan.calls());
        self.plan.begin_call()?;
        if stopped {
            self.count_fault();
            return Err(Failed);
        }
        Ok(())
    }
}

/// Whether all calls after so many fail.
fn has_stopped(stop: Option<u64>, calls: u64) -> bool
    ensures { IsTrue result ↔ IsSomeAnd stop (λ stop. stop ≤ calls) }
{
    match stop {
        Some(stop) => stop <= calls,
        None => false,
    }
}

impl Disk for MemoryDisk {
    ghost use Rattle.std.specs.Prelude.{Some, false};
    ghost use Rattle.dr_disk.specs.Calls.{Write, FailedWrite, Cut, FailedCut, Sync, content_after};
    ghost use Rattle.dr_disk.specs.Disk.{Calls, added};
    ghost use Rattle.dr_disk.specs.Images.{ReadsAnImage};
    ghost use Rattle.dr_disk.specs.Memory.{FailsNext};

    ghost told = { λ disk. Some (Calls disk.calls) };

    ghost room_calls = { λ disk. disk.room_calls };

    ghost room_bytes = { λ disk. disk.room_bytes };

    ghost faults = { λ disk. disk.plan.faults };

    ghost groups = { λ _. false };

    fn wants_groups(&self) -> bool {
        false
    }

    fn reserve(&mut self, calls: u64, bytes: u64) -> Result<(), AllocError>
        ensures told { Some (Calls self.new.calls) ≡ Some (Calls self.old.calls) }
        ensures calls { OnOk result (calls ≤ self.new.room_calls) }
        ensures bytes { OnOk result (bytes ≤ self.new.room_bytes) }
        ensures calls_kept { self.old.room_calls ≤ self.new.room_calls }
        ensures bytes_kept { self.old.room_bytes ≤ self.new.room_bytes }
        ensures faults { self.new.plan.faults ≡ self.old.plan.faults }

        // It is no call with a number.
        ensures plan { self.new.plan ≡ self.old.plan }
        ensures stop { self.new.stop ≡ self.old.stop }
    {
        self.kept.reserve(calls, bytes)
    }

    fn len(&mut self) -> Result<u64, Failed>
        ensures value { IfOk result (λ n. n ≡ length (content_after self.old.calls)) }
        ensures told { Some (Calls self.new.calls) ≡ Some (Calls self.old.calls) }
        ensures calls_kept { self.old.room_calls ≤ self.new.room_calls }
        ensures bytes_kept { self.old.room_bytes ≤ self.new.room_bytes }
        ensures cause { HasCause self.old.plan.faults self.new.plan.faults result }

        ensures fails { IsErr result ↔ FailsNext self.old }
        ensures plan { self.new.plan ≡ plan_after result self.old.plan }
        ensures stop { self.new.stop ≡ self.old.stop }
    {
        self.begin_call()?;
        Ok(self.kept.bytes().len() as u64)
    }

    fn read_at(&mut self, at: u64, into: &mut [u8]) -> Result<usize, Failed>
        ensures bound { IfOk result (λ n. n ≤ length into.new) }
        ensures value { IfOk result
            (λ n. take n into.new ≡ take (length into.new) (drop at (content_after self.old.calls))) }
        ensures told { Some (Calls self.new.calls) ≡ Some (Calls self.old.calls) }
        ensures calls_kept { self.old.room_calls ≤ self.new.room_calls }
        ensures bytes_kept { self.old.room_bytes ≤ self.new.room_bytes }
        ensures cause { HasCause self.old.plan.faults self.new.plan.faults result }

        ensures fails { IsErr result ↔ FailsNext self.old }
        ensures plan { self.new.plan ≡ plan_after result self.old.plan }
        ensures stop { self.new.stop ≡ self.old.stop }
    {
        self.begin_call()?;
        Ok(self.kept.read_at(at, into))
    }

    fn write_at(&mut self, at: u64, from: &[u8]) -> Result<(), Failed>
        requires inside { at ≤ length (content_after self.old.calls) }
        requires room_for_call { 1 ≤ self.old.room_calls }
        requires room_for_bytes { length from.now ≤ self.old.room_bytes }
        ensures ok { OnOk result (Some (Calls self.new.calls) ≡ added (Write at from.now) (Some (Calls self.old.calls))) }
        ensures err { OnErr result (Some (Calls self.new.calls)
            ≡ added (FailedWrite at (length from.now)) (Some (Calls self.old.calls))) }
        ensures calls_kept { self.old.room_calls ≤ self.new.room_calls + 1 }
        ensures bytes_kept { self.old.room_bytes ≤ self.new.room_bytes + length from.now }
        ensures cause { HasCause self.old.plan.faults self.new.plan.faults result }

        ensures fails { IsErr result ↔ FailsNext self.old }
        ensures plan { self.new.plan ≡ plan_after result self.old.plan }
        ensures stop { self.new.stop ≡ self.old.stop }
    {
        if let Err(failed) = self.begin_call() {
            self.kept.fail_write(at, from.len());
            return Err(failed);
        }
        self.kept.write(at, from);
        Ok(())
    }

    fn cut(&mut self, to: u64) -> Result<(), Failed>
        requires room_for_call { 1 ≤ self.old.room_calls }
        ensures ok { OnOk result (Some (Calls self.new.calls) ≡ added (Cut to) (Some (Calls self.old.calls))) }
        ensures err { OnErr result (Some (Calls self.new.calls) ≡ added (FailedCut to) (Some (Calls self.old.calls))) }
        ensures calls_kept { self.old.room_calls ≤ self.new.room_calls + 1 }
        ensures bytes_kept { self.old.room_bytes ≤ self.new.room_bytes }
        ensures cause { HasCause self.old.plan.faults self.new.plan.faults result }

        ensures fails { IsErr result ↔ FailsNext self.old }
        ensures plan { self.new.plan ≡ plan_after result self.old.plan }
        ensures stop { self.new.stop ≡ self.old.stop }
    {
        if let Err(failed) = self.begin_call() {
            self.kept.fail_cut(to);
            return Err(failed);
        }
        self.kept.cut(to);
        Ok(())
    }

    fn sync(&mut self) -> Result<(), Failed>
        requires room_for_call { 1 ≤ self.old.room_calls }
        ensures ok { OnOk result (Some (Calls self.new.calls) ≡ added Sync (Some (Calls self.old.calls))) }
        ensures err { OnErr result (Some (Calls self.new.calls) ≡ Some (Calls self.old.calls)) }
        ensures read { ReadsAnImage (Calls self.old.calls) }
        ensures calls_kept { self.old.room_calls ≤ self.new.room_calls + 1 }
        ensures bytes_kept { self.old.room_bytes ≤ self.new.room_bytes }
        ensures cause { HasCause self.old.plan.faults self.new.plan.faults result }

        ensures fails { IsErr result ↔ FailsNext self.old }
        ensures plan { self.new.plan ≡ plan_after result self.old.plan }
        ensures stop { self.new.stop ≡ self.old.stop }
    {
        self.begin_call()?;
        self.kept.sync();
        Ok(())
    }
}
