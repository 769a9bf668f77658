ghost use Rattle.std.specs.{BTreeMap.keys, List.list_all};
ghost use Rattle.std.specs.Prelude.{◌≡◌, ◌⊎◌, ◌<◌, ◌≤◌, Some, None, IfOk, IfErr, IsErrOf, IfSome, map, option_map, string_bytes};
ghost use Rattle.serde_json.specs.View.{view};
ghost use Rattle.dr_script.specs.Json.{json_of, is_among, has_only, has_every, has_exactly, list_of, list_at, elements_of, within, below, number_at, number_below, pair_at};

use crate::refusal::ScriptFault;
use serde_json::{Map, Value};
use std::alloc::Global;

/// The value that these bytes spell.
#[tactic(auto, using(crate::proofs::JsonLemmas::json_of_text, crate::proofs::JsonLemmas::json_of_none))]
pub(crate) fn value_of(alloc: Global, bytes: &[u8]) -> Result<Value, ScriptFault>
    ensures ok { IfOk result (λ v. json_of bytes.now ≡ Some (view v)) }
    ensures not_json { IsErrOf result ScriptFault.NotJson → json_of bytes.now ≡ None }
    ensures either { IfErr result
        (λ fault. (fault ≡ ScriptFault.OutOfMemory) ⊎ (fault ≡ ScriptFault.NotJson)) }
{
    match Value::from_slice(alloc, bytes) {
        Ok(value) => Ok(value),
        Err(error) if error.is_memory() => Err(ScriptFault::OutOfMemory),
        Err(_) => Err(ScriptFault::NotJson),
    }
}

/// Whether a value is an object whose keys are exactly these names.
pub(crate) fn has_exactly(value: &Value, names: &[&str]) -> bool
    ensures { result ≡ has_exactly (map (λ name. name.now) names.now) (view value.now) }
{
    has_only(value, names) && has_every(value, names)
}

fn has_every(value: &Value, names: &[&str]) -> bool
    ensures { result ≡ has_every (map (λ name. name.now) names.now) (view value.now) }
{
    names.iter().all(|name| value.get(*name).is_some())
}

#[tactic(auto, using(crate::proofs::JsonLemmas::all_keys))]
fn has_only(value: &Value, names: &[&str]) -> bool
    ensures { result ≡ has_only (map (λ name. name.now) names.now) (view value.now) }
{
    match value.as_object() {
        Some(object) => are_among(object, names),
        None => false,
    }
}

fn are_among(object: &Map<String, Value>, names: &[&str]) -> bool
    ensures { result ≡ list_all
        (λ key. is_among (map (λ name. name.now) names.now) (string_bytes key)) (keys object.now) }
{
    object.keys().all(|key| is_among(key.as_str(), names))
}

fn is_among(key: &str, names: &[&str]) -> bool
    ensures { result ≡ is_among (map (λ name. name.now) names.now) key.now }
{
    names.iter().any(|name| *name == key)
}

/// A number that is from `low` to `high`.
pub(crate) fn within(number: u64, low: u32, high: u32) -> Option<u32>
    ensures value { result ≡ within low high number }
    ensures range { IfSome result (λ n. (low ≤ n) × (n ≤ high)) }
{
    if u64::from(low) <= number && number <= u64::from(high) {
        Some(number as u32)
    } else {
        None
    }
}

/// A number that is below `limit`.
pub(crate) fn below(number: u64, limit: u8) -> Option<u8>
    ensures { result ≡ below limit number }
{
    if number < u64::from(limit) {
        Some(number as u8)
    } else {
        None
    }
}

/// The whole number at a key, where it is from `low` to `high`.
pub(crate) fn number_at(value: &Value, key: &str, low: u32, high: u32) -> Option<u32>
    ensures value { result ≡ number_at key.now low high (view value.now) }
    ensures range { IfSome result (λ n. (low ≤ n) × (n ≤ high)) }
{
    within(value.get(key)?.as_u64()?, low, high)
}

/// The whole number at a key, where it is below `limit`.
pub(crate) fn number_below(value: &Value, key: &str, limit: u8) -> Option<u8>
    ensures { result ≡ number_below key.now limit (view value.now) }
{
    below(value.get(key)?.as_u64()?, limit)
}

#[tactic(auto, using(crate::proofs::JsonLemmas::elements_of_items))]
pub(crate) fn list_of(value: &Value) -> Option<&[Value]>
    ensures { option_map (λ list. map view list.now) result ≡ list_of (view value.now) }
{
    match value.as_array() {
        Some(list) => Some(list.as_slice()),
        None => None,
    }
}

/// The elements of the array at a key.
pub(crate) fn list_at<'a>(value: &'a Value, key: &str) -> Option<&'a [Value]>
    ensures { option_map (λ list. map view list.now) result ≡ list_at key.now (view value.now) }
{
    list_of(value.get(key)?)
}

/// The elements of an array, and none of another value.
pub(crate) fn elements_of(value: &Value) -> &[Value]
    ensures { map view result.now ≡ elements_of (view value.now) }
{
    match list_of(value) {
        Some(list) => list,
        None => &[],
    }
}

/// The two whole numbers of the array of two at a key.
pub(crate) fn pair_at(value: &Value, key: &str) -> Option<(u64, u64)>
    ensures { result ≡ pair_at key.now (view value.now) }
{
    match list_at(value, key) {
        Some([first, second]) => Some((first.as_u64()?, second.as_u64()?)),
        _ => None,
    }
}
