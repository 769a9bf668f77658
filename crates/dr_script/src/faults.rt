ghost use Rattle.std.specs.List.{filter_map};
ghost use Rattle.std.specs.Prelude.{◌≡◌, ◌<◌, Some, None, IfOk, IfErr, IsErrOf, OnOk, map, option_map};
ghost use Rattle.serde_json.specs.View.{view};
ghost use Rattle.dr_script.specs.{Places.broken_at, declared.passage.Broken.Broken};
ghost use Rattle.dr_script.specs.Rules.{sizes_of, few_faults_of, is_fault, form_breaks, place_breaks, deed_breaks, is_placed, faults_in, crash_of, suspect_of, what_of, fault_of, fault_rules, first_broken};

use crate::json::{below, has_exactly, list_at, number_below, pair_at, within};
use crate::passage::{Broken, Passage};
use crate::refusal::Stop;
use crate::script::{Fault, What};
use crate::sizes::Sizes;
use dr_entry::Seq;
use serde_json::Value;
use std::alloc::Global;

const MAX_FAULTS: usize = 256;

const MAX_PUSH: u32 = 65_535;

/// The faults of a script of these sizes, by the rules 11 to 13.
pub(crate) fn faults_of(alloc: Global, value: &Value, sizes: &Sizes) -> Result<Seq<Fault>, Stop>
    requires { sizes.now ≡ sizes_of (view value.now) }
    ensures kept { OnOk result (first_broken fault_rules (view value.now) ≡ None) }
    ensures faults { IfOk result (λ faults. faults
        ≡ filter_map (fault_of sizes.now) (faults_in (view value.now))) }
    ensures broken { (broken : Broken) → IsErrOf result (Stop.Rule broken)
        → first_broken fault_rules (view value.now) ≡ Some broken }
{
    let faults = few_faults_of(value).ok_or(Broken {
        rule: 11,
        place: Passage::Faults,
    })?;
    check_forms(faults)?;
    check_places(faults, sizes)?;
    faults_in(alloc, faults, sizes)
}

fn few_faults_of(value: &Value) -> Option<&[Value]>
    ensures { option_map (λ faults. map view faults.now) result
        ≡ few_faults_of (view value.now) }
{
    match list_at(value, "faults") {
        Some(faults) if faults.len() <= MAX_FAULTS => Some(faults),
        _ => None,
    }
}

fn check_forms(values: &[Value]) -> Result<(), Broken>
    ensures kept { OnOk result (broken_at 11 (form_breaks (map view values.now)) ≡ None) }
    ensures broken { IfErr result
        (λ broken. broken_at 11 (form_breaks (map view values.now)) ≡ Some broken) }
{
    for (index, value) in values.iter().enumerate() {
        if !is_fault(value) {
            return Err(Broken {
                rule: 11,
                place: Passage::Fault { index },
            });
        }
    }
    Ok(())
}

fn is_fault(value: &Value) -> bool
    ensures { result ≡ is_fault (view value.now) }
{
    has_exactly(value, &["age", "member", "crash"])
        || has_exactly(value, &["age", "member", "suspect"])
}

fn check_places(values: &[Value], sizes: &Sizes) -> Result<(), Broken>
    ensures kept { OnOk result (broken_at 12 (place_breaks sizes.now (map view values.now)) ≡ None) }
    ensures broken { IfErr result
        (λ broken. broken_at 12 (place_breaks sizes.now (map view values.now)) ≡ Some broken) }
{
    for (index, value) in values.iter().enumerate() {
        if !is_placed(value, sizes) {
            return Err(Broken {
                rule: 12,
                place: Passage::Fault { index },
            });
        }
    }
    Ok(())
}

fn is_placed(value: &Value, sizes: &Sizes) -> bool
    ensures { result ≡ is_placed sizes.now (view value.now) }
{
    number_below(value, "age", sizes.ages).is_some()
        && number_below(value, "member", sizes.members).is_some()
}

fn faults_in(alloc: Global, values: &[Value], sizes: &Sizes) -> Result<Seq<Fault>, Stop>
    ensures kept { OnOk result (broken_at 13 (deed_breaks sizes.now (map view values.now)) ≡ None) }
    ensures faults { IfOk result
        (λ faults. faults ≡ filter_map (fault_of sizes.now) (map view values.now)) }
    ensures broken { (broken : Broken) → IsErrOf result (Stop.Rule broken)
        → broken_at 13 (deed_breaks sizes.now (map view values.now)) ≡ Some broken }
{
    let mut faults = Vec::new(alloc);
    for (index, value) in values.iter().enumerate() {
        let fault = fault_of(value, sizes).ok_or(Broken {
            rule: 13,
            place: Passage::Fault { index },
        })?;
        faults.push(fault)?;
    }
    Ok(Seq::of(faults))
}

fn fault_of(value: &Value, sizes: &Sizes) -> Option<Fault>
    ensures { result ≡ fault_of sizes.now (view value.now) }
{
    let age = number_below(value, "age", sizes.ages)?;
    let member = number_below(value, "member", sizes.members)?;
    let what = what_of(value, sizes, member)?;
    Some(Fault { age, member, what })
}

fn what_of(value: &Value, sizes: &Sizes, member: u8) -> Option<What>
    ensures { result ≡ what_of sizes.now member (view value.now) }
{
    if value.get("crash").is_some() {
        crash_of(value, sizes)
    } else {
        suspect_of(value, sizes, member)
    }
}

fn crash_of(value: &Value, sizes: &Sizes) -> Option<What>
    ensures { result ≡ crash_of sizes.now (view value.now) }
{
    let (turn, push) = pair_at(value, "crash")?;
    Some(What::Crash {
        turn: within(turn, 1, sizes.turns)?,
        push: within(push, 0, MAX_PUSH)?,
    })
}

fn suspect_of(value: &Value, sizes: &Sizes, member: u8) -> Option<What>
    ensures { result ≡ suspect_of sizes.now member (view value.now) }
{
    let (turn, other) = pair_at(value, "suspect")?;
    let turn = within(turn, 1, sizes.turns)?;
    let other = below(other, sizes.members)?;
    if other == member {
        None
    } else {
        Some(What::Suspect { turn, other })
    }
}
