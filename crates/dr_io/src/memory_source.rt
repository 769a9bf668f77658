ghost use Rattle.std.specs.{Io.ReadsAtMost, Prelude.{◌≡◌, ◌↔◌, ◌<◌, IfOk, IsErr, length, min, take}};

use crate::failed::Failed;
use crate::plan::Plan;
use crate::source::Source;
use std::alloc::{AllocError, Global};
use std::marker::Model;

/// A source over bytes in memory, whose calls fail where they are planned to.
#[derive(Debug, Drop)]
pub struct MemorySource {
    bytes: Vec<u8>,
    at: usize,
    piece: usize,
    plan: Plan,
}

impl Model for MemorySource {
    ghost use Rattle.std.specs.Prelude.{◌<◌, ◌≤◌, drop, vec_len};
    ghost use Rattle.dr_io.specs.MemorySource.{SourceState};

    ghost Value = { SourceState };

    ghost view = { λ a. record { left = drop a.at a.bytes.items; piece = a.piece; plan = a.plan } };

    ghost invariant = { λ a. (a.at ≤ vec_len a.bytes) × (0 < a.piece) };
}

impl MemorySource {
    ghost use Rattle.dr_io.specs.Plan.{plan_of};

    /// A source of `bytes`. One call gives at most `piece` of them, and the calls whose numbers,
    /// from 1, are in `fails` fail.
    pub fn new(
        alloc: Global,
        bytes: &[u8],
        piece: usize,
        fails: &[u64],
    ) -> Result<MemorySource, AllocError>
        requires { 0 < piece }
        ensures left { IfOk result (λ source. source.left ≡ bytes.now) }
        ensures piece { IfOk result (λ source. source.piece ≡ piece) }
        ensures plan { IfOk result (λ source. source.plan ≡ plan_of fails.now) }
    {
        Ok(MemorySource {
            bytes: Vec::from_slice(alloc, bytes)?,
            at: 0,
            piece,
            plan: Plan::new(alloc, fails)?,
        })
    }
}

impl Source for MemorySource {
    ghost use Rattle.std.specs.Prelude.{Some};
    ghost use Rattle.dr_io.specs.Faults.{HasCause};
    ghost use Rattle.dr_io.specs.Plan.{IsPlanned, plan_after};
    ghost use Rattle.dr_io.specs.Source.{Reads};

    ghost left = { λ source. Some source.left };

    ghost faults = { λ source. source.plan.faults };

    fn read(&mut self, into: &mut [u8]) -> Result<usize, Failed>
        requires { 0 < length into.old }
        ensures bound { ReadsAtMost result into.new }
        ensures bytes { Reads (Some self.old.left) (Some self.new.left) result into.new }
        ensures cause { HasCause self.old.plan.faults self.new.plan.faults result }

        ensures planned { IsErr result ↔ IsPlanned self.old.plan }
        ensures count { IfOk result
            (λ n. n ≡ min self.old.piece (min (length into.old) (length self.old.left))) }
        ensures piece { self.new.piece ≡ self.old.piece }
        ensures plan { self.new.plan ≡ plan_after result self.old.plan }
    {
        self.plan.begin_call()?;
        let count = copy_front(&self.bytes[self.at..], self.piece, into);
        self.at += count;
        Ok(count)
    }
}

/// Copies as much of the front of `from` as `piece` and `into` allow, and answers how much.
fn copy_front(from: &[u8], piece: usize, into: &mut [u8]) -> usize
    ensures count { result ≡ min piece (min (length into.old) (length from.now)) }
    ensures copied { take result into.new ≡ take result from.now }
{
    let count = piece.min(into.len()).min(from.len());
    into[..count].copy_from_slice(&from[..count]);
    count
}
