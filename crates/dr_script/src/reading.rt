ghost use Rattle.std.specs.Prelude.{◌≡◌, ℕ, List, Some, None, IfOk, IfErr, IsErrOf, OnOk, All};
ghost use Rattle.serde_json.specs.View.{view};
ghost use Rattle.dr_script.specs.{Ranges.HasRanges, Rules.{schedule_of, shape_rules, rules, first_broken}};
ghost use Rattle.dr_script.specs.Reading.{Reading, TooLong, NotJson, Wrong, Reads, script_of, reading_of};
ghost use Rattle.dr_script.specs.declared.passage.Broken.{Broken};

use crate::faults::faults_of;
use crate::json::{has_exactly, value_of};
use crate::messages::messages_of;
use crate::passage::{Broken, Passage};
use crate::refusal::{ScriptFault, Stop};
use crate::script::{Schedule, Script};
use crate::sizes::sizes_of;
use serde_json::Value;
use std::alloc::Global;

/// The greatest length of a script, in bytes.
pub const MAX_SCRIPT: usize = 1_048_576;

const KEYS: [&str; 8] = [
    "members", "window", "turns", "patience", "ages", "messages", "faults", "schedule",
];

/// The script that these bytes are.
///
/// # Errors
///
/// `TooLong` exactly where there are more than [`MAX_SCRIPT`] bytes. Else `NotJson` exactly where
/// they are no JSON text in UTF-8. Else `Wrong` exactly where a rule is broken: with the number of
/// the first such rule and the path of the first place at which it is. `OutOfMemory` where memory
/// is wanting before that is known.
pub fn read_script(alloc: Global, bytes: &[u8]) -> Result<Script, ScriptFault>
    ensures ok { IfOk result (λ s. reading_of bytes.now ≡ Reads s) }
    ensures too_long { IsErrOf result ScriptFault.TooLong → reading_of bytes.now ≡ TooLong }
    ensures not_json { IsErrOf result ScriptFault.NotJson → reading_of bytes.now ≡ NotJson }
    ensures wrong { (rule : ℕ) → (path : List ℕ) → IsErrOf result (ScriptFault.Wrong rule path)
        → reading_of bytes.now ≡ Wrong rule path }
    ensures ranges { IfOk result (λ s. HasRanges s) }
{
    if bytes.len() > MAX_SCRIPT {
        return Err(ScriptFault::TooLong);
    }
    let value = value_of(alloc, bytes)?;
    match script_of(alloc, &value) {
        Ok(script) => Ok(script),
        Err(Stop::OutOfMemory) => Err(ScriptFault::OutOfMemory),
        Err(Stop::Rule(broken)) => Err(ScriptFault::Wrong {
            rule: broken.rule,
            path: broken.place.path(alloc)?,
        }),
    }
}

/// The script that a value is, by all rules.
fn script_of(alloc: Global, value: &Value) -> Result<Script, Stop>
    ensures kept { OnOk result (first_broken rules (view value.now) ≡ None) }
    ensures script { IfOk result (λ s. s ≡ script_of (view value.now)) }
    ensures ranges { IfOk result (λ s. HasRanges s) }
    ensures broken { (broken : Broken) → IsErrOf result (Stop.Rule broken)
        → first_broken rules (view value.now) ≡ Some broken }
{
    check_shape(value)?;
    let sizes = sizes_of(value)?;
    let messages = messages_of(alloc, value, sizes.members)?;
    let faults = faults_of(alloc, value, &sizes)?;
    let schedule = schedule_of(value).ok_or(Broken {
        rule: 14,
        place: Passage::Schedule,
    })?;
    Ok(Script {
        members: sizes.members,
        window: sizes.window,
        turns: sizes.turns,
        patience: sizes.patience,
        ages: sizes.ages,
        messages,
        faults,
        schedule,
    })
}

/// Looks at the value's keys, by the rules 1 and 2.
fn check_shape(value: &Value) -> Result<(), Broken>
    ensures kept { OnOk result (first_broken shape_rules (view value.now) ≡ None) }
    ensures broken { IfErr result
        (λ broken. first_broken shape_rules (view value.now) ≡ Some broken) }
{
    if value.as_object().is_none() {
        return Err(Broken {
            rule: 1,
            place: Passage::Whole,
        });
    }
    if !has_exactly(value, &KEYS) {
        return Err(Broken {
            rule: 2,
            place: Passage::Whole,
        });
    }
    Ok(())
}

fn schedule_of(value: &Value) -> Option<Schedule>
    ensures { result ≡ schedule_of (view value.now) }
{
    let schedule = value.get("schedule")?;
    match schedule.as_str() {
        Some("lockstep") => Some(Schedule::Lockstep),
        _ => schedule.as_u64().map(Schedule::Seed),
    }
}
