//! Scripts of which less is left.
ghost use Rattle.std.specs.Prelude.{◌≡◌, ◌++◌, ◌∷◌, [], IfOk, OnOk, min, take};
ghost use Rattle.dr_tools.specs.Limits.{earlier, faults_limits, limit, limited, limited_fault, limited_faults, limited_lists, limited_text, limited_texts, limits_of, lists_limits, push_of, texts_limits, turn_of};

use crate::sweeps::parts::behind;
use dr_entry::{Message, Seq};
use dr_script::{Fault, Script, What};
use std::alloc::{AllocError, Global};

/// The least limits under which a script is left whole: of its turns; of each fault one more than its turn, and its
/// push; of each message one more than its bytes.
pub(crate) fn limits_of(alloc: Global, script: &Script) -> Result<Vec<u64>, AllocError>
    ensures { IfOk result (λ v. v.items ≡ limits_of script.now) }
{
    let mut limits = Vec::new(alloc);
    limits.push(u64::from(script.turns))?;
    push_faults(&mut limits, script.faults.as_slice())?;
    push_lists(&mut limits, script.messages.as_slice())?;
    Ok(limits)
}

fn push_faults(limits: &mut Vec<u64>, faults: &[Fault]) -> Result<(), AllocError>
    ensures { OnOk result (limits.new.items ≡ limits.old.items ++ faults_limits faults.now) }
{
    for fault in faults {
        limits.push(u64::from(turn_of(fault.what)) + 1)?;
        limits.push(u64::from(push_of(fault.what)))?;
    }
    Ok(())
}

fn turn_of(what: What) -> u32
    ensures { result ≡ turn_of what }
{
    match what {
        What::Crash { turn, .. } | What::Suspect { turn, .. } => turn,
    }
}

/// The push before which a crash comes, and else 0.
fn push_of(what: What) -> u32
    ensures { result ≡ push_of what }
{
    match what {
        What::Crash { push, .. } => push,
        What::Suspect { .. } => 0,
    }
}

fn push_lists(limits: &mut Vec<u64>, lists: &[Seq<Message>]) -> Result<(), AllocError>
    ensures { OnOk result (limits.new.items ≡ limits.old.items ++ lists_limits lists.now) }
{
    for list in lists {
        push_texts(limits, list.as_slice())?;
    }
    Ok(())
}

fn push_texts(limits: &mut Vec<u64>, texts: &[Message]) -> Result<(), AllocError>
    ensures { OnOk result (limits.new.items ≡ limits.old.items ++ texts_limits texts.now) }
{
    for text in texts {
        limits.push(text.bytes().len() as u64 + 1)?;
    }
    Ok(())
}

/// The script of which no more is left than these limits let, in turn of its turns, of its faults and of its messages.
pub(crate) fn limited(alloc: Global, script: &Script, limits: &[u64]) -> Result<Script, AllocError>
    ensures { IfOk result (λ s. s ≡ limited limits.now script.now) }
{
    let faults = script.faults.as_slice();
    let messages = limited_lists(
        alloc,
        behind(behind(limits, 1), 2 * faults.len()),
        script.messages.as_slice(),
    )?;
    Ok(Script {
        members: script.members,
        window: script.window,
        turns: at_most(limit(limits, 0), script.turns),
        patience: script.patience,
        ages: script.ages,
        messages: Seq::of(messages),
        faults: Seq::of(limited_faults(alloc, behind(limits, 1), faults)?),
        schedule: script.schedule,
    })
}

fn limited_faults(alloc: Global, limits: &[u64], faults: &[Fault]) -> Result<Vec<Fault>, AllocError>
    ensures { IfOk result (λ v. v.items ≡ limited_faults limits.now faults.now) }
{
    let mut out = Vec::new(alloc);
    let mut left = limits;
    for fault in faults {
        push_fault(&mut out, limit(left, 0), limit(left, 1), fault)?;
        left = behind(left, 2);
    }
    Ok(out)
}

/// Appends a fault, no later than before this turn, and than before this push.
fn push_fault(out: &mut Vec<Fault>, bound: u64, push: u64, fault: &Fault) -> Result<(), AllocError>
    ensures { OnOk result (out.new.items ≡ out.old.items ++ limited_fault bound push fault.now) }
{
    if let Some(turn) = bound.checked_sub(1) {
        out.push(Fault {
            age: fault.age,
            member: fault.member,
            what: earlier(turn, push, fault.what),
        })?;
    }
    Ok(())
}

/// What happens no later than in this turn, where it is a crash, before this push.
fn earlier(turn: u64, push: u64, what: What) -> What
    ensures { result ≡ earlier turn push what }
{
    match what {
        What::Crash { turn: t, push: p } => What::Crash {
            turn: at_most(turn, t),
            push: at_most(push, p),
        },
        What::Suspect { turn: t, other } => What::Suspect {
            turn: at_most(turn, t),
            other,
        },
    }
}

/// A number, but no more than the limit.
fn at_most(limit: u64, number: u32) -> u32
    ensures { result ≡ min limit number }
{
    limit.min(u64::from(number)) as u32
}

fn limited_lists(
    alloc: Global,
    limits: &[u64],
    lists: &[Seq<Message>],
) -> Result<Vec<Seq<Message>>, AllocError>
    ensures { IfOk result (λ v. v.items ≡ limited_lists limits.now lists.now) }
{
    let mut out = Vec::new(alloc);
    let mut left = limits;
    for list in lists {
        let texts = list.as_slice();
        out.push(Seq::of(limited_texts(alloc, left, texts)?))?;
        left = behind(left, texts.len());
    }
    Ok(out)
}

fn limited_texts(
    alloc: Global,
    limits: &[u64],
    texts: &[Message],
) -> Result<Vec<Message>, AllocError>
    ensures { IfOk result (λ v. v.items ≡ limited_texts limits.now texts.now) }
{
    let mut out = Vec::new(alloc);
    let mut left = limits;
    for text in texts {
        push_text(&mut out, limit(left, 0), text)?;
        left = behind(left, 1);
    }
    Ok(out)
}

/// Appends a text, but shorter than this.
fn push_text(out: &mut Vec<Message>, bound: u64, text: &Message) -> Result<(), AllocError>
    ensures { OnOk result (out.new.items ≡ out.old.items ++ limited_text bound text.now) }
{
    if let Some(length) = bound.checked_sub(1) {
        out.push(front(text, length))?;
    }
    Ok(())
}

/// The first bytes of a text, so many at most.
fn front(text: &Message, length: u64) -> Message
    ensures { result ≡ take length text.now }
{
    let bytes = text.bytes();
    let end = length.min(bytes.len() as u64) as usize;
    match Message::of(&bytes[..end]) {
        Some(front) => front,
        None => text.copy(),
    }
}

/// The limit with this number, and 0 behind the last one.
fn limit(limits: &[u64], number: usize) -> u64
    ensures { result ≡ limit limits.now number }
{
    match limits.get(number) {
        Some(limit) => *limit,
        None => 0,
    }
}
