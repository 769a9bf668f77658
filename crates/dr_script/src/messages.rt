ghost use Rattle.std.specs.List.{filter_map, list_all};
ghost use Rattle.std.specs.Prelude.{◌≡◌, ◌<◌, Some, None, All, IfOk, IfErr, IfSome, IsErrOf, OnOk, map, option_map, is_some};
ghost use Rattle.serde_json.specs.View.{view};
ghost use Rattle.dr_script.specs.{Json.{elements_of, list_of}, Places.broken_at, Reading.messages_in};
ghost use Rattle.dr_script.specs.Rules.{sizes_of, are_lists, lists_of, lists_in, is_short, long_breaks, text_of, member_breaks, list_breaks, message_rules, first_broken};
ghost use Rattle.dr_script.specs.declared.passage.Broken.{Broken};

use crate::json::{elements_of, list_at, list_of};
use crate::passage::{Broken, Passage};
use crate::refusal::Stop;
use dr_entry::{MAX_MESSAGES, Message, Seq};
use serde_json::Value;
use std::alloc::Global;

/// The messages of the script's members, by the rules 8 to 10.
pub(crate) fn messages_of(
    alloc: Global,
    value: &Value,
    members: u8,
) -> Result<Seq<Seq<Message>>, Stop>
    requires { members ≡ (sizes_of (view value.now)).members }
    ensures kept { OnOk result (first_broken message_rules (view value.now) ≡ None) }
    ensures messages { IfOk result
        (λ messages. messages ≡ messages_in (lists_in (view value.now))) }
    ensures bytes { IfOk result (λ messages. All (All (All (λ byte. byte < 256))) messages) }
    ensures broken { (broken : Broken) → IsErrOf result (Stop.Rule broken)
        → first_broken message_rules (view value.now) ≡ Some broken }
{
    let lists = lists_of(value, members).ok_or(Broken {
        rule: 8,
        place: Passage::Messages,
    })?;
    check_lengths(lists)?;
    lists_in(alloc, lists)
}

fn lists_of(value: &Value, members: u8) -> Option<&[Value]>
    ensures { option_map (λ lists. map view lists.now) result
        ≡ lists_of members (view value.now) }
{
    let lists = list_at(value, "messages")?;
    if are_lists(lists, members) {
        Some(lists)
    } else {
        None
    }
}

#[tactic(auto, using(crate::proofs::MessageLemmas::are_lists_map))]
fn are_lists(values: &[Value], members: u8) -> bool
    ensures { result ≡ are_lists members (map view values.now) }
{
    values.len() == usize::from(members) && are_arrays(values)
}

fn are_arrays(values: &[Value]) -> bool
    ensures { result ≡ list_all (λ v. is_some (list_of (view v))) values.now }
{
    values.iter().all(|value| list_of(value).is_some())
}

fn check_lengths(lists: &[Value]) -> Result<(), Broken>
    ensures kept { OnOk result (broken_at 9 (long_breaks (map view lists.now)) ≡ None) }
    ensures broken { IfErr result
        (λ broken. broken_at 9 (long_breaks (map view lists.now)) ≡ Some broken) }
{
    for (member, list) in lists.iter().enumerate() {
        if !is_short(list) {
            return Err(Broken {
                rule: 9,
                place: Passage::Texts { member },
            });
        }
    }
    Ok(())
}

fn is_short(list: &Value) -> bool
    ensures { result ≡ is_short (view list.now) }
{
    elements_of(list).len() <= MAX_MESSAGES
}

fn lists_in(alloc: Global, lists: &[Value]) -> Result<Seq<Seq<Message>>, Stop>
    ensures kept { OnOk result (broken_at 10 (list_breaks (map view lists.now)) ≡ None) }
    ensures messages { IfOk result (λ messages. messages ≡ messages_in (map view lists.now)) }
    ensures bytes { IfOk result (λ messages. All (All (All (λ byte. byte < 256))) messages) }
    ensures broken { (broken : Broken) → IsErrOf result (Stop.Rule broken)
        → broken_at 10 (list_breaks (map view lists.now)) ≡ Some broken }
{
    let mut messages = Vec::new(alloc);
    for (member, list) in lists.iter().enumerate() {
        let texts = texts_in(alloc, member, elements_of(list))?;
        messages.push(texts)?;
    }
    Ok(Seq::of(messages))
}

fn texts_in(alloc: Global, member: usize, texts: &[Value]) -> Result<Seq<Message>, Stop>
    ensures kept { OnOk result (broken_at 10 (member_breaks member (map view texts.now)) ≡ None) }
    ensures messages { IfOk result
        (λ messages. messages ≡ filter_map text_of (map view texts.now)) }
    ensures bytes { IfOk result (λ messages. All (All (λ byte. byte < 256)) messages) }
    ensures broken { (broken : Broken) → IsErrOf result (Stop.Rule broken)
        → broken_at 10 (member_breaks member (map view texts.now)) ≡ Some broken }
{
    let mut messages = Vec::new(alloc);
    for (index, text) in texts.iter().enumerate() {
        let message = text_of(text).ok_or(Broken {
            rule: 10,
            place: Passage::Text { member, index },
        })?;
        messages.push(message)?;
    }
    Ok(Seq::of(messages))
}

fn text_of(value: &Value) -> Option<Message>
    ensures text { result ≡ text_of (view value.now) }
    ensures bytes { IfSome result (λ message. All (λ byte. byte < 256) message) }
{
    let bytes = value.as_str()?.as_bytes();
    Message::of(bytes)
}
