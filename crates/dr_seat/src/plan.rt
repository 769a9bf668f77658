//! The plan of a group: a script without planned faults, and its digest.
ghost use Rattle.std.specs.Prelude.{◌≡◌, IfErr, IfOk};
ghost use Rattle.sha2.specs.Sha256.{sha256};
ghost use Rattle.dr_seat.specs.Cards.{IsPlanFault, IsPlanOf};

use dr_script::{Script, ScriptFault, read_script};
use sha2::{Digest, Sha256};
use std::alloc::Global;
use std::marker::Model;
use thiserror::Error;

/// What a group is to do.
#[derive(Debug, Drop)]
pub struct Plan {
    pub(crate) script: Script,
    pub(crate) digest: [u8; 32],
}

impl Model for Plan {
    ghost use Rattle.dr_script.specs.Ranges.{HasRanges};
    ghost use Rattle.dr_seat.specs.Cards.{PlanOf};

    ghost Value = { PlanOf };

    ghost view = { λ a. record {
      script = a.script;
      digest = a.digest;
    } };

    ghost invariant = { λ a. HasRanges a.script };
}

/// Why bytes are no plan.
#[derive(Debug, Drop, Error)]
pub enum PlanFault {
    /// They are no script, or memory was wanting as they were read.
    #[error("{0}")]
    Script(ScriptFault),
    /// It has planned faults: it is for tests.
    #[error("the plan has faults")]
    TestPlan,
}

/// The digest of a plan, by its text: that of SHA-256.
pub fn plan_digest(bytes: &[u8]) -> [u8; 32]
    ensures { result ≡ sha256 bytes.now }
{
    Sha256::digest(bytes)
}

/// The plan that these bytes are.
///
/// # Errors
///
/// The bytes are no script, or memory was wanting as they were read; or it is one with planned faults.
pub fn read_plan(alloc: Global, bytes: &[u8]) -> Result<Plan, PlanFault>
    ensures plan { IfOk result (IsPlanOf bytes.now) }
    ensures fault { IfErr result (IsPlanFault bytes.now) }
{
    let script = match read_script(alloc, bytes) {
        Ok(script) => script,
        Err(fault) => return Err(PlanFault::Script(fault)),
    };
    if !script.faults.as_slice().is_empty() {
        return Err(PlanFault::TestPlan);
    }
    Ok(Plan {
        script,
        digest: plan_digest(bytes),
    })
}

impl Plan {
    /// How many members the group has, and how many slots a ring.
    pub fn sizes(&self) -> (u8, u8)
        ensures { result ≡ (self.now.script.members, self.now.script.window) }
    {
        (self.script.members, self.script.window)
    }

    /// The bytes of the longest write to the log's file in the first ages of the group. A later opening may bring
    /// more Views than are counted here: then what is due tells how many bytes it has.
    pub fn longest_write(&self) -> u64 {
        let mut messages = 0u64;
        for list in self.script.messages.as_slice() {
            messages = messages.saturating_add(list.as_slice().len() as u64);
        }
        messages.saturating_mul(72).saturating_add(4096)
    }
}
