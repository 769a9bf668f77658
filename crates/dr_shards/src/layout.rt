ghost use Rattle.std.specs.Prelude.{◌≡◌, ◌≢◌, ◌<◌, ◌≤◌, ◌⊎◌, All, filter_map, IfOk, IfErr, IfSome, Some, [], length, position};
ghost use Rattle.dr_script.specs.{Ranges.HasRanges, declared.script.Script.Script as ScriptOf};
ghost use Rattle.dr_shards.specs.Layout.{crosses, crosses_by, shard_fault, is_of_shard, layout, shard_messages, lay_refusal, renumbered, shard_of};
ghost use Rattle.dr_shards.specs.declared.fault.LayFault.TheVariants.{OutOfMemory};

use crate::fault::LayFault;
use dr_entry::{Message, Seq};
use dr_restart::copy_messages;
use dr_script::{Fault, Script, What};
use std::alloc::{AllocError, Global};

/// The scripts of so many shards, in their order.
///
/// # Errors
///
/// `NoShard` exactly where there are more shards than members; then `ManyAges` exactly where the script has
/// not one age; then `Crosses` exactly where a suspicion names a member of another shard, for the first such.
/// And `OutOfMemory`.
pub fn lay_out(alloc: Global, script: &Script, shards: u8) -> Result<Vec<Script>, LayFault>
    requires ranges { HasRanges script.now }
    requires some { shards ≢ 0 }
    ensures laid { IfOk result (λ l. l.items ≡ layout script.now shards) }
    ensures some { IfOk result (λ l. l.items ≢ []) }
    ensures exact { IfSome (lay_refusal script.now shards) (λ fault. result ≡ Err fault) }
    ensures cause { IfErr result
        (λ f. (f ≡ OutOfMemory) ⊎ (lay_refusal script.now shards ≡ Some f)) }
    ensures ranges { IfOk result (λ l. All (λ (s : ScriptOf). HasRanges s × (s.ages ≡ 1)) l.items) }
{
    if let Some(refusal) = lay_refusal(script, shards) {
        return Err(refusal);
    }
    Ok(shards_of(alloc, script, shards)?)
}

/// The scripts of all shards.
fn shards_of(alloc: Global, script: &Script, shards: u8) -> Result<Vec<Script>, AllocError>
    requires some { shards ≢ 0 }
    requires ranges { HasRanges script.now }
    ensures { IfOk result (λ v. v.items ≡ layout script.now shards) }
{
    let mut scripts = Vec::with_capacity(alloc, usize::from(shards))?;
    for k in 0..shards {
        scripts.push(shard_of(alloc, script, shards, k)?)?;
    }
    Ok(scripts)
}

/// Why the script is not laid out, if it is not.
fn lay_refusal(script: &Script, shards: u8) -> Option<LayFault>
    requires few { length script.now.faults ≤ 256 }
    requires some { shards ≢ 0 }
    ensures { result ≡ lay_refusal script.now shards }
{
    if script.members < shards {
        return Some(LayFault::NoShard {
            shards,
            members: script.members,
        });
    }
    if script.ages != 1 {
        return Some(LayFault::ManyAges { ages: script.ages });
    }
    match first_crossing(script.faults.as_slice(), shards) {
        Some(fault) => Some(LayFault::Crosses {
            fault: fault as u16,
        }),
        None => None,
    }
}

fn first_crossing(faults: &[Fault], shards: u8) -> Option<usize>
    requires some { shards ≢ 0 }
    ensures { result ≡ position (crosses shards) faults.now }
{
    faults.iter().position(|fault| crosses(fault, shards))
}

/// Whether a fault is a suspicion that names a member of another shard.
fn crosses(fault: &Fault, shards: u8) -> bool
    requires some { shards ≢ 0 }
    ensures { result ≡ crosses shards fault.now }
{
    match fault.what {
        What::Crash { .. } => false,
        What::Suspect { other, .. } => other % shards != fault.member % shards,
    }
}

/// The script of shard `k`.
fn shard_of(alloc: Global, script: &Script, shards: u8, k: u8) -> Result<Script, AllocError>
    requires some { shards ≢ 0 }
    requires ranges { HasRanges script.now }
    ensures { IfOk result (λ s. s ≡ shard_of script.now shards k) }
{
    let messages = shard_messages(alloc, script, shards, k)?;
    let faults = faults_in(alloc, script.faults.as_slice(), shards, k)?;
    Ok(Script {
        members: messages.len() as u8,
        window: script.window,
        turns: script.turns,
        patience: script.patience,
        ages: script.ages,
        messages: Seq::of(messages),
        faults: Seq::of(faults),
        schedule: script.schedule,
    })
}

/// The messages of the members of shard `k`.
fn shard_messages(
    alloc: Global,
    script: &Script,
    shards: u8,
    k: u8,
) -> Result<Vec<Seq<Message>>, AllocError>
    requires some { shards ≢ 0 }
    requires lists { length script.now.messages ≡ script.now.members }
    ensures { IfOk result (λ v. v.items ≡ shard_messages script.now shards k) }
{
    let mut messages = Vec::with_capacity(alloc, usize::from(script.members))?;
    for m in 0..script.members {
        if m % shards != k {
            continue;
        }
        let list = &script.messages.as_slice()[usize::from(m)];
        messages.push(copy_messages(alloc, list)?)?;
    }
    Ok(messages)
}

/// The faults of the members of shard `k`, by that shard's numbers.
fn faults_in(alloc: Global, faults: &[Fault], shards: u8, k: u8) -> Result<Vec<Fault>, AllocError>
    requires some { shards ≢ 0 }
    ensures { IfOk result (λ v. v.items ≡ filter_map (shard_fault shards k) faults.now) }
{
    faults
        .iter()
        .filter_map(|fault| shard_fault(shards, k, fault))
        .collect(alloc)
}

/// The fault of a member of shard `k`, by that shard's numbers.
fn shard_fault(shards: u8, k: u8, fault: &Fault) -> Option<Fault>
    requires some { shards ≢ 0 }
    ensures { result ≡ shard_fault shards k fault.now }
{
    (fault.member % shards == k).then_some(Fault {
        age: fault.age,
        member: fault.member / shards,
        what: renumbered(shards, fault.what),
    })
}

/// What happens to a member, by its shard's numbers.
fn renumbered(shards: u8, what: What) -> What
    requires some { shards ≢ 0 }
    ensures { result ≡ renumbered shards what }
{
    match what {
        What::Crash { turn, push } => What::Crash { turn, push },
        What::Suspect { turn, other } => What::Suspect {
            turn,
            other: other / shards,
        },
    }
}
