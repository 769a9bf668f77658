ghost use Rattle.std.specs.Prelude.{◌≡◌, ◌≢◌, ◌⊎◌, [], All, IfOk, None};
ghost use Rattle.dr_outcome.specs.declared.outcome.Body.TheVariants as bodies;
ghost use Rattle.dr_outcome.specs.{Last.last_of, Outcome.{HasDone, SaysOnly}};
ghost use Rattle.dr_script.specs.{Ranges.HasRanges, declared.script.Script.Script as ScriptOf};
ghost use Rattle.dr_shards.specs.{Layout.lay_refusal, Shards.AreShardAges};
ghost use Rattle.dr_yard.specs.Yards.{YardState};
ghost use Rattle.dr_commands.specs.Shards.{OfLayout, RunsShards, refused_layout, shards_ends};
ghost use Rattle.dr_commands.specs.ShardsLines.{shards_text};

use crate::shards::lines::shards_text;
use crate::shards::sharding::Sharding;
use dr_entry::Seq;
use dr_intake::script_or_refusal;
use dr_outcome::{Body, Outcome, last_of, without_ages};
use dr_pace::Pace;
use dr_script::Script;
use dr_shards::{LayFault, lay_out, run_shards};
use dr_text::Last;
use std::alloc::{AllocError, Global};
use std::thread::Threads;

/// Lays the script that these bytes are, where they are one, out in shards, runs each of them, and says what
/// becomes of it. The logs are in memory, and every yard stays as it is. Threads call the pace after each turn
/// of a member.
pub fn run_sharded<R: Threads + Sync, P: Pace + Sync>(
    rt: &R,
    alloc: Global,
    bytes: &[u8],
    sharding: &Sharding,
    pace: &P,
) -> Outcome
    ensures { (yard : YardState) → SaysOnly None yard yard result
        ⊎ HasDone (RunsShards sharding.now bytes.now) shards_ends yard yard result }
{
    match script_or_refusal(alloc, bytes) {
        Ok(script) => run_script(rt, alloc, &script, sharding, pace),
        Err(line) => without_ages(alloc, line),
    }
}

/// Lays a script out in shards, and runs them.
fn run_script<R: Threads + Sync, P: Pace + Sync>(
    rt: &R,
    alloc: Global,
    script: &Script,
    sharding: &Sharding,
    pace: &P,
) -> Outcome
    requires { HasRanges script.now }
    ensures { (yard : YardState) → SaysOnly None yard yard result
        ⊎ OfLayout (lay_refusal script.now sharding.now.count) sharding.now script.now yard yard result }
{
    match lay_out(alloc, script, sharding.count.get()) {
        Ok(scripts) => match run_all(rt, alloc, &scripts, script.members, sharding, pace) {
            Ok(outcome) => outcome,
            Err(_) => without_ages(alloc, None),
        },
        Err(fault) => without_ages(alloc, refused_layout(fault)),
    }
}

/// Runs the shards of so many members, by the scripts of the shards.
fn run_all<R: Threads + Sync, P: Pace + Sync>(
    rt: &R,
    alloc: Global,
    scripts: &[Script],
    members: u8,
    sharding: &Sharding,
    pace: &P,
) -> Result<Outcome, AllocError>
    requires some { scripts.now ≢ [] }
    requires ranges { All (λ (s : ScriptOf). HasRanges s × (s.ages ≡ 1)) scripts.now }
    ensures ages { IfOk result (λ o. AreShardAges sharding.now.mode scripts.now o.ages) }
    ensures stop { IfOk result (λ o. o.stop ≡ None) }
    ensures body { IfOk result
        (λ o. o.body ≡ bodies.Text (shards_text sharding.now.count members o.ages)) }
    ensures last { IfOk result (λ o. o.last ≡ last_of o.ages None) }
{
    let ages = run_shards(rt, alloc, scripts, sharding.mode, pace)?;
    let text = shards_text(alloc, sharding.count.get(), members, &ages)?;
    let last = last_of(&ages, None);
    Ok(Outcome {
        ages: Seq::of(ages),
        stop: None,
        body: Body::Text(text),
        last,
    })
}

/// The last line by which a layout is refused, unless memory was wanting.
fn refused_layout(fault: LayFault) -> Option<Last>
    ensures { result ≡ refused_layout fault }
{
    match fault {
        LayFault::OutOfMemory => None,
        LayFault::NoShard { shards, members } => Some(Last::NoShard { shards, members }),
        LayFault::ManyAges { ages } => Some(Last::ManyAges { ages }),
        LayFault::Crosses { fault } => Some(Last::Crosses { fault }),
    }
}
