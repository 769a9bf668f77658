//! Runs a live group.
ghost use Rattle.std.specs.Prelude.{◌≡◌, ◌≤◌, ◌↔◌, All, IfOk, IsTrue, length, map};
ghost use Rattle.dr_entry.specs.declared.limits.TheConstants.{MAX_MESSAGES};
ghost use Rattle.dr_live.specs.Live.{HasLived, IsLivePlan};
ghost use Rattle.dr_script.specs.Ranges.{HasRanges};

use crate::group::Group;
use dr_entry::{AgeEnd, Message, Seq};
use dr_pace::Pace;
use dr_restart::copy_messages;
use dr_script::Script;
use dr_senders::{App, Senders};
use std::alloc::{AllocError, Global};
use std::thread::Threads;

/// Whether a live group may have this script as its plan: it has one age and no faults, and a patience of 0.
pub fn is_live_plan(plan: &Script) -> bool
    requires { HasRanges plan.now }
    ensures { IsTrue result ↔ IsLivePlan plan.now }
{
    plan.ages == 1 && plan.patience == 0 && plan.faults.as_slice().is_empty()
}

/// How the ages of a live group ended, in order, and what each app has pushed, by the number of its member.
#[derive(Debug, PartialEq, Eq, Drop)]
pub struct LiveEnd {
    pub ages: Seq<AgeEnd>,
    pub pushed: Seq<Seq<Message>>,
}

/// Runs a group whose members send what apps give, one for each member, ascending. Each app has a thread of
/// its own, which pushes all its messages into a ring. In each of the rounds the messages that are found in
/// the rings are taken, and an age is run in threads, in which each member sends all that was taken of its
/// ring until then. Behind the rounds all apps are waited for, the rest is taken, and a last age is run. Where
/// the thread of an app can't be started all its messages are pushed before the first round. Each age begins
/// with what the one before has left on the logs, which are in memory. The messages of the plan are not
/// looked at. Members call the pace after each turn.
///
/// # Errors
///
/// Want of memory alone.
pub fn run_live<R: Threads + Sync, A: App + 'static, P: Pace + Sync>(
    rt: &R,
    alloc: Global,
    plan: &Script,
    apps: Vec<A>,
    rounds: u8,
    pace: &P,
) -> Result<LiveEnd, AllocError>
    requires plan { IsLivePlan plan.now }
    requires apps { length apps.items ≡ plan.now.members }
    requires few { All (λ a. length (A.left a) ≤ MAX_MESSAGES) apps.items }
    requires rounds { rounds ≤ 15 }
    ensures pushed { IfOk result (λ r. r.pushed ≡ map A.left apps.items) }
    ensures lived { IfOk result (λ r. HasLived plan.now rounds r.pushed r.ages) }
{
    let mut group = Group::new(alloc, usize::from(rounds) + 1)?;
    let mut senders = Senders::begin(rt, alloc, apps)?;
    for _ in 0..rounds {
        senders.take()?;
        let lists = senders.taken(alloc)?;
        group.run_age(rt, alloc, plan, lists, pace)?;
    }
    let pushed = senders.finish(rt, alloc)?;
    let all = copy_lists(alloc, pushed.as_slice())?;
    group.run_age(rt, alloc, plan, all, pace)?;
    Ok(LiveEnd {
        ages: group.into_ages(),
        pushed,
    })
}

/// Equal lists.
fn copy_lists(alloc: Global, lists: &[Seq<Message>]) -> Result<Seq<Seq<Message>>, AllocError>
    ensures { IfOk result (λ copy. copy ≡ lists.now) }
{
    let mut copy = Vec::with_capacity(alloc, lists.len())?;
    for list in lists {
        copy.push(copy_messages(alloc, list)?)?;
    }
    Ok(Seq::of(copy))
}
