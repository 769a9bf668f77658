ghost use Rattle.std.specs.Prelude.{◌≡◌, ◌↔◌, ◌<◌, ◌≤◌, ◌⊎◌, [], IfOk, IsErr, length, min};

use crate::failed::Failed;
use crate::plan::Plan;
use crate::sink::Sink;
use std::alloc::{AllocError, Global};
use std::marker::Model;

/// A sink in memory with so much room, whose calls fail where they are planned to.
#[derive(Debug, Drop)]
pub struct MemorySink {
    bytes: Vec<u8>,
    room: usize,
    plan: Plan,
}

impl Model for MemorySink {
    ghost use Rattle.std.specs.Prelude.{◌+◌, ◌≤◌, vec_len, vec_capacity};
    ghost use Rattle.dr_io.specs.MemorySink.{SinkState};

    ghost Value = { SinkState };

    ghost view = { λ a. record { held = a.bytes.items; room = a.room; plan = a.plan } };

    ghost invariant = { λ a. vec_len a.bytes + a.room ≤ vec_capacity a.bytes };
}

impl MemorySink {
    ghost use Rattle.dr_io.specs.Plan.{plan_of};

    /// An empty sink with room for `room` bytes in all. The calls whose numbers, from 1, are in
    /// `fails` fail.
    pub fn new(alloc: Global, room: usize, fails: &[u64]) -> Result<MemorySink, AllocError>
        ensures held { IfOk result (λ sink. sink.held ≡ []) }
        ensures room { IfOk result (λ sink. sink.room ≡ room) }
        ensures plan { IfOk result (λ sink. sink.plan ≡ plan_of fails.now) }
    {
        Ok(MemorySink {
            bytes: Vec::with_capacity(alloc, room)?,
            room,
            plan: Plan::new(alloc, fails)?,
        })
    }

    /// The bytes that were written.
    pub fn bytes(&self) -> &[u8]
        ensures { result.now ≡ self.now.held }
    {
        self.bytes.as_slice()
    }
}

impl Sink for MemorySink {
    ghost use Rattle.std.specs.Prelude.{Some};
    ghost use Rattle.dr_io.specs.Faults.{HasCause};
    ghost use Rattle.dr_io.specs.MemorySink.{room_after};
    ghost use Rattle.dr_io.specs.Plan.{IsPlanned, plan_after};
    ghost use Rattle.dr_io.specs.Sink.{Writes};

    ghost held = { λ sink. Some sink.held };

    ghost faults = { λ sink. sink.plan.faults };

    fn write(&mut self, from: &[u8]) -> Result<usize, Failed>
        requires { 0 < length from.now }
        ensures some { IfOk result (λ n. 0 < n) }
        ensures bound { IfOk result (λ n. n ≤ length from.now) }
        ensures bytes { Writes (Some self.old.held) (Some self.new.held) result from.now }
        ensures cause { HasCause self.old.plan.faults self.new.plan.faults result }

        ensures fails { IsErr result ↔ (IsPlanned self.old.plan ⊎ (self.old.room ≡ 0)) }
        ensures count { IfOk result (λ n. n ≡ min self.old.room (length from.now)) }
        ensures room { self.new.room ≡ room_after result self.old.room }
        ensures plan { self.new.plan ≡ plan_after result self.old.plan }
    {
        self.plan.begin_call()?;
        if self.room == 0 {
            self.plan.count_fault();
            return Err(Failed);
        }
        let count = self.room.min(from.len());
        self.bytes.extend_from_slice(&from[..count]).unwrap();
        self.room -= count;
        Ok(count)
    }
}
