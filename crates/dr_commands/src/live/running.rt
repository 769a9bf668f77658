ghost use Rattle.std.specs.Prelude.{◌≡◌, ◌⊎◌, IfOk, IfSome, None};
ghost use Rattle.dr_live.specs.Live.{HasLived, IsLivePlan};
ghost use Rattle.dr_outcome.specs.declared.outcome.Body.TheVariants as bodies;
ghost use Rattle.dr_outcome.specs.{Last.last_of, Outcome.{HasDone, SaysOnly}};
ghost use Rattle.dr_script.specs.Ranges.{HasRanges};
ghost use Rattle.dr_yard.specs.Yards.{YardState};
ghost use Rattle.dr_commands.specs.{Live.{OfPlan, RunsLive, live_ends, refused_plan}, LiveLines.live_text};

use crate::live::lines::push_live;
use crate::live::rounds::Rounds;
use dr_entry::{AgeEnd, Message, Seq, Text};
use dr_intake::script_or_refusal;
use dr_live::{ListApp, is_live_plan, run_live};
use dr_outcome::{Body, Outcome, last_of, without_ages};
use dr_pace::Pace;
use dr_restart::copy_messages;
use dr_script::Script;
use dr_text::{Last, LongText};
use std::alloc::{AllocError, Global};
use std::thread::Threads;

/// The number of the rule that a script breaks with faults, with a patience or with more ages than one.
const LIVE_RULE: u8 = 15;

/// Runs the script that these bytes are, where they are one, as a live group: each member's messages are pushed
/// while ages run, and are taken in so many rounds, and then the rest of them. The logs are in memory, and
/// every yard stays as it is. Members call the pace after each turn.
pub fn run_lived<R: Threads + Sync, P: Pace + Sync>(
    rt: &R,
    alloc: Global,
    bytes: &[u8],
    rounds: &Rounds,
    pace: &P,
) -> Outcome
    ensures { (yard : YardState) → SaysOnly None yard yard result
        ⊎ HasDone (RunsLive rounds.now bytes.now) live_ends yard yard result }
{
    match script_or_refusal(alloc, bytes) {
        Ok(script) => run_script(rt, alloc, &script, rounds, pace),
        Err(line) => without_ages(alloc, line),
    }
}

/// Runs a script as a live group, where it is a plan for one.
fn run_script<R: Threads + Sync, P: Pace + Sync>(
    rt: &R,
    alloc: Global,
    script: &Script,
    rounds: &Rounds,
    pace: &P,
) -> Outcome
    requires { HasRanges script.now }
    ensures { (yard : YardState) → SaysOnly None yard yard result
        ⊎ OfPlan rounds.now script.now yard yard result }
{
    if !is_live_plan(script) {
        return without_ages(alloc, refusal(alloc));
    }
    match run_plan(rt, alloc, script, rounds, pace) {
        Ok(outcome) => outcome,
        Err(_) => without_ages(alloc, None),
    }
}

/// The last line by which a script is refused that is no plan, unless memory was wanting.
fn refusal(alloc: Global) -> Option<Last>
    ensures { IfSome result (λ line. line ≡ refused_plan) }
{
    let path = String::from_str(alloc, "/").ok()?;
    Some(Last::Rule {
        rule: LIVE_RULE,
        path: Text::of(path),
    })
}

/// Runs a plan.
fn run_plan<R: Threads + Sync, P: Pace + Sync>(
    rt: &R,
    alloc: Global,
    script: &Script,
    rounds: &Rounds,
    pace: &P,
) -> Result<Outcome, AllocError>
    requires { IsLivePlan script.now }
    ensures lived { IfOk result
        (λ o. HasLived script.now rounds.now script.now.messages o.ages) }
    ensures stop { IfOk result (λ o. o.stop ≡ None) }
    ensures body { IfOk result
        (λ o. o.body ≡ bodies.Text (live_text script.now.messages o.ages)) }
    ensures last { IfOk result (λ o. o.last ≡ last_of o.ages None) }
{
    let apps = apps_of(alloc, script.messages.as_slice())?;
    let end = run_live(rt, alloc, script, apps, rounds.get(), pace)?;
    let ages = end.ages.as_slice();
    let text = text_of(alloc, end.pushed.as_slice(), ages)?;
    let last = last_of(ages, None);
    Ok(Outcome {
        ages: end.ages,
        stop: None,
        body: Body::Text(text),
        last,
    })
}

/// An app for each of these lists, which gives its messages.
fn apps_of(alloc: Global, lists: &[Seq<Message>]) -> Result<Vec<ListApp>, AllocError>
    ensures { IfOk result (λ apps. apps.items ≡ lists.now) }
{
    let mut apps = Vec::with_capacity(alloc, lists.len())?;
    for list in lists {
        apps.push(ListApp::new(copy_messages(alloc, list)?.into_vec()))?;
    }
    Ok(apps)
}

/// What is said of these senders behind these ages.
fn text_of(alloc: Global, pushed: &[Seq<Message>], ages: &[AgeEnd]) -> Result<LongText, AllocError>
    ensures { IfOk result (λ text. text ≡ live_text pushed.now ages.now) }
{
    let mut text = String::new(alloc);
    push_live(&mut text, pushed, ages)?;
    LongText::of(alloc, text)
}
