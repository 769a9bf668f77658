//! Scripts of which some faults and messages are left out.
ghost use Rattle.std.specs.Prelude.{◌≡◌, ◌++◌, ◌∷◌, [], ℕ, IfOk, OnOk, drop, if◌then◌else◌, true};
ghost use Rattle.dr_tools.specs.Parts.{kept, kept_lists, kept_parts, stays};

use dr_entry::{Message, Seq};
use dr_script::{Fault, Script};
use std::alloc::{AllocError, Global};

/// All faults and messages of a script stay.
pub(crate) fn all_parts(alloc: Global, script: &Script) -> Result<Vec<bool>, AllocError>
    ensures { IfOk result (λ keeps. (n : ℕ) → stays keeps.items n ≡ true) }
{
    vec![in alloc; true; parts_in(script)]
}

/// How many faults and messages a script has.
fn parts_in(script: &Script) -> usize {
    script
        .messages
        .as_slice()
        .iter()
        .map(|messages| messages.as_slice().len())
        .fold(
            script.faults.as_slice().len(),
            |sum, count| sum.saturating_add(count),
        )
}

/// The script with those of its faults, and behind them of its messages, that stay.
pub(crate) fn with_parts(
    alloc: Global,
    script: &Script,
    keeps: &[bool],
) -> Result<Script, AllocError>
    ensures { IfOk result (λ s. s ≡ kept_parts keeps.now script.now) }
{
    let faults = script.faults.as_slice();
    let messages = kept_lists(
        alloc,
        behind(keeps, faults.len()),
        script.messages.as_slice(),
    )?;
    Ok(Script {
        members: script.members,
        window: script.window,
        turns: script.turns,
        patience: script.patience,
        ages: script.ages,
        messages: Seq::of(messages),
        faults: Seq::of(kept_faults(alloc, keeps, faults)?),
        schedule: script.schedule,
    })
}

fn kept_faults(alloc: Global, keeps: &[bool], faults: &[Fault]) -> Result<Vec<Fault>, AllocError>
    ensures { IfOk result (λ v. v.items ≡ kept keeps.now faults.now) }
{
    let mut out = Vec::new(alloc);
    for (index, fault) in faults.iter().enumerate() {
        push_fault(&mut out, stays(keeps, index), fault)?;
    }
    Ok(out)
}

/// Appends a fault, if it stays.
fn push_fault(out: &mut Vec<Fault>, stays: bool, fault: &Fault) -> Result<(), AllocError>
    ensures { OnOk result
        (out.new.items ≡ out.old.items ++ (if stays then fault.now ∷ [] else [])) }
{
    if stays {
        out.push(*fault)?;
    }
    Ok(())
}

fn kept_lists(
    alloc: Global,
    keeps: &[bool],
    lists: &[Seq<Message>],
) -> Result<Vec<Seq<Message>>, AllocError>
    ensures { IfOk result (λ v. v.items ≡ kept_lists keeps.now lists.now) }
{
    let mut out = Vec::new(alloc);
    let mut left = keeps;
    for list in lists {
        let messages = list.as_slice();
        out.push(Seq::of(kept_messages(alloc, left, messages)?))?;
        left = behind(left, messages.len());
    }
    Ok(out)
}

fn kept_messages(
    alloc: Global,
    keeps: &[bool],
    messages: &[Message],
) -> Result<Vec<Message>, AllocError>
    ensures { IfOk result (λ v. v.items ≡ kept keeps.now messages.now) }
{
    let mut out = Vec::new(alloc);
    for (index, message) in messages.iter().enumerate() {
        push_message(&mut out, stays(keeps, index), message)?;
    }
    Ok(out)
}

/// Appends a message, if it stays.
fn push_message(out: &mut Vec<Message>, stays: bool, message: &Message) -> Result<(), AllocError>
    ensures { OnOk result
        (out.new.items ≡ out.old.items ++ (if stays then message.now ∷ [] else [])) }
{
    if stays {
        out.push(message.copy())?;
    }
    Ok(())
}

/// Whether the part with this number stays.
fn stays(keeps: &[bool], number: usize) -> bool
    ensures { result ≡ stays keeps.now number }
{
    match keeps.get(number) {
        Some(keep) => *keep,
        None => true,
    }
}

/// What is said of the parts after the first `count`.
pub(crate) fn behind<X>(said: &[X], count: usize) -> &[X]
    ensures { result.now ≡ drop count said.now }
{
    &said[count.min(said.len())..]
}
