ghost use Rattle.std.specs.Prelude.{◌≡◌, ◌+◌, ◌≤◌, ◌↔◌, Contains, IfOk, IsErr, IsTrue};

use crate::failed::Failed;
use std::alloc::{AllocError, Global};
use std::marker::Model;

/// Counts the calls and the faults of an object in memory, and knows which calls are to fail.
#[derive(Debug, Drop)]
pub struct Plan {
    fails: Vec<u64>,
    calls: u64,
    faults: u64,
}

impl Model for Plan {
    ghost use Rattle.dr_io.specs.Plan.{CallPlan};

    ghost Value = { CallPlan };

    ghost view = { λ a. record { fails = a.fails.items; calls = a.calls; faults = a.faults } };
}

impl Plan {
    ghost use Rattle.dr_io.specs.Faults.{HasCause, count_after};
    ghost use Rattle.dr_io.specs.Plan.{IsPlanned, plan_after, plan_of};

    /// The plan by which the calls with these numbers, from 1, fail.
    ///
    /// # Errors
    ///
    /// Want of memory alone.
    pub fn new(alloc: Global, fails: &[u64]) -> Result<Plan, AllocError>
        ensures { IfOk result (λ plan. plan ≡ plan_of fails.now) }
    {
        Ok(Plan {
            fails: Vec::from_slice(alloc, fails)?,
            calls: 0,
            faults: 0,
        })
    }

    /// How many calls there were, or the last `u64` where there were more.
    pub fn calls(&self) -> u64
        ensures { result ≡ self.now.calls }
    {
        self.calls
    }

    /// How many of them have failed, or the last `u64` where more have.
    pub fn faults(&self) -> u64
        ensures { result ≡ self.now.faults }
    {
        self.faults
    }

    /// Counts one call, and fails where it is to fail, which counts as a fault.
    ///
    /// # Errors
    ///
    /// At the planned calls, and at no others.
    pub fn begin_call(&mut self) -> Result<(), Failed>
        ensures planned { IsErr result ↔ IsPlanned self.old }
        ensures after { self.new ≡ plan_after result self.old }
        ensures cause { HasCause self.old.faults self.new.faults result }
    {
        if self.count_call() {
            self.count_fault();
            return Err(Failed);
        }
        Ok(())
    }

    /// Counts one call, and answers whether it is to fail.
    fn count_call(&mut self) -> bool
        ensures planned { IsTrue result ↔ IsPlanned self.old }
        ensures after { self.new ≡ record self.old { calls = count_after self.old.calls } }
    {
        let planned = has_next(self.fails.as_slice(), self.calls);
        self.calls = self.calls.saturating_add(1);
        planned
    }

    /// Counts one fault.
    pub fn count_fault(&mut self)
        ensures after { self.new ≡ record self.old { faults = count_after self.old.faults } }
        ensures later { self.old.faults ≤ self.new.faults }
    {
        self.faults = self.faults.saturating_add(1);
    }
}

/// Whether the number after `calls` is one of `numbers`. None of them is above the last `u64`.
fn has_next(numbers: &[u64], calls: u64) -> bool
    ensures { IsTrue result ↔ Contains numbers.now (calls + 1) }
{
    match calls.checked_add(1) {
        Some(next) => numbers.contains(&next),
        None => false,
    }
}
