//! What is handed in for a check: JSON with a script and a text.
ghost use Rattle.std.specs.Prelude.{◌≡◌, ◌⊎◌, Some, None, IfErr, IfOk, IsErrOf, option_map};
ghost use Rattle.serde_json.specs.View.{view};
ghost use Rattle.dr_script.specs.Json.{json_of};
ghost use Rattle.dr_text.specs.declared.last.Last.TheVariants.{NotJson};
ghost use Rattle.dr_commands.specs.Check.{handed_in, has_two_keys, text_at};

use dr_text::Last;
use serde_json::Value;
use std::alloc::Global;

/// The value that these bytes spell.
///
/// # Errors
///
/// That they are no JSON; no line where memory was wanting.
#[tactic(auto, using(dr_script::proofs::JsonLemmas::json_of_text, dr_script::proofs::JsonLemmas::json_of_none))]
pub(crate) fn value_of(alloc: Global, bytes: &[u8]) -> Result<Value, Option<Last>>
    ensures ok { IfOk result (λ v. json_of bytes.now ≡ Some (view v)) }
    ensures not_json { IsErrOf result (Some NotJson) → json_of bytes.now ≡ None }
    ensures either { IfErr result (λ line. (line ≡ None) ⊎ (line ≡ Some NotJson)) }
{
    match Value::from_slice(alloc, bytes) {
        Ok(value) => Ok(value),
        Err(error) if error.is_memory() => Err(None),
        Err(_) => Err(Some(Last::NotJson)),
    }
}

/// The texts of the script and of the report that a value hands in: an object that has these two keys and no
/// other, each with a string.
pub(crate) fn handed_in(value: &Value) -> Option<(&str, &str)>
    ensures { option_map (λ texts. (texts.0.now, texts.1.now)) result ≡ handed_in (view value.now) }
{
    if !has_two_keys(value) {
        return None;
    }
    let script = text_at(value, "script")?;
    let text = text_at(value, "text")?;
    Some((script, text))
}

/// Whether a value is an object with two keys.
#[tactic(auto, using(dr_script::proofs::JsonLemmas::count_of_keys))]
fn has_two_keys(value: &Value) -> bool
    ensures { result ≡ has_two_keys (view value.now) }
{
    match value.as_object() {
        Some(object) => object.len() == 2,
        None => false,
    }
}

/// The string at a key.
fn text_at<'a>(value: &'a Value, key: &str) -> Option<&'a str>
    ensures { option_map (λ text. text.now) result ≡ text_at key.now (view value.now) }
{
    value.get(key)?.as_str()
}
