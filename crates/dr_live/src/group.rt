//! A live group, from age to age.
ghost use Rattle.std.specs.Prelude.{◌≡◌, ◌+◌, ◌<◌, ◌∷◌, ℕ, OnOk, IfOk, [], false, length};
ghost use Rattle.dr_entry.specs.declared.limits.TheConstants.{MAX_MEMBERS};
ghost use Rattle.dr_ages.specs.Ages.{IsAgeOf, all_but};
ghost use Rattle.dr_ages.specs.declared.mode.Mode.TheVariants as modes;
ghost use Rattle.dr_live.specs.Live.{AreReadyFor, AreUpTo, IsLivePlan, OpensAlways, calm_yard, plan_with};
ghost use Rattle.dr_script.specs.{Ranges.HasRanges, declared.script.Script.Script as ScriptOf};
ghost use Rattle.dr_senders.specs.Senders.{Lists};
ghost use Rattle.dr_yard.specs.Places.{place_lent};

use dr_ages::{AgesEnd, Mode, Part, Stop, run_ages};
use dr_entry::{AgeEnd, Message, Seq};
use dr_pace::Pace;
use dr_script::Script;
use dr_yard::CalmYard;
use std::alloc::{AllocError, Global};
use std::thread::Threads;

/// A live group between its ages: the disks of its members, and how the ages ended.
#[derive(Drop)]
pub(crate) struct Group {
    yard: CalmYard,
    ages: Vec<AgeEnd>,
    ghost here: { (m : ℕ) → m < MAX_MEMBERS → place_lent yard m ≡ false },
}

impl Group {
    /// A group before its first age, of so many.
    pub(crate) fn new(alloc: Global, ages: usize) -> Result<Group, AllocError>
        ensures none { IfOk result (λ g. g.ages.items ≡ []) }
        ensures ready { IfOk result (λ g. (plan : ScriptOf) (lists : Lists)
            → AreReadyFor plan lists g.ages.items (calm_yard g.yard)) }
    {
        Ok(Group {
            yard: CalmYard::new(alloc)?,
            ages: Vec::with_capacity(alloc, ages)?,
        })
    }

    /// Runs the next age, with these messages of the members.
    ///
    /// # Errors
    ///
    /// Want of memory alone.
    pub(crate) fn run_age<R: Threads + Sync, P: Pace + Sync>(
        &mut self,
        rt: &R,
        alloc: Global,
        plan: &Script,
        lists: Seq<Seq<Message>>,
        pace: &P,
    ) -> Result<(), AllocError>
        requires plan { IsLivePlan plan.now }
        requires ranges { HasRanges (plan_with plan.now lists) }
        requires few { length self.old.ages.items < 16 }
        requires ready { AreReadyFor plan.now lists self.old.ages.items (calm_yard self.old.yard) }
        ensures more { OnOk result (length self.new.ages.items ≡ length self.old.ages.items + 1) }
        ensures up { OnOk result (AreUpTo plan.now lists self.new.ages.items (calm_yard self.new.yard)) }
    {
        let script = with_messages(alloc, plan, lists);
        let age = run_one(rt, alloc, &script, &mut self.yard, pace)?;
        self.ages.push(age)?;
        Ok(())
    }

    /// How its ages ended.
    pub(crate) fn into_ages(self) -> Seq<AgeEnd>
        ensures { result ≡ self.ages.items }
    {
        Seq::of(self.ages)
    }
}

/// The plan with these messages.
fn with_messages(alloc: Global, plan: &Script, lists: Seq<Seq<Message>>) -> Script
    requires { IsLivePlan plan.now }
    ensures { result ≡ plan_with plan.now lists }
{
    Script {
        members: plan.members,
        window: plan.window,
        turns: plan.turns,
        patience: plan.patience,
        ages: plan.ages,
        messages: lists,
        faults: Seq::of(Vec::new(alloc)),
        schedule: plan.schedule,
    }
}

/// Runs the one age of a script in threads, over disks that never fail.
///
/// # Errors
///
/// Want of memory alone.
fn run_one<R: Threads + Sync, P: Pace + Sync>(
    rt: &R,
    alloc: Global,
    script: &Script,
    yard: &mut CalmYard,
    pace: &P,
) -> Result<AgeEnd, AllocError>
    requires ranges { HasRanges script.now }
    requires one { script.now.ages ≡ 1 }
    requires here { (m : ℕ) → m < MAX_MEMBERS → place_lent yard.old m ≡ false }
    requires opens { OpensAlways script.now (calm_yard yard.old) }
    ensures here { (m : ℕ) → m < MAX_MEMBERS → place_lent yard.new m ≡ false }
    ensures age { IfOk result
        (IsAgeOf script.now (all_but 0) modes.Run 0 (calm_yard yard.old) (calm_yard yard.new)) }
{
    let part = Part::everybody();
    let AgesEnd { ages, stop } = run_ages(rt, alloc, script, &part, Mode::Run, "", yard, pace);
    match stop {
        None => Ok(only(ages)),
        Some(stop) => match stop {
            Stop::OutOfMemory => Err(AllocError),
            // No disk fails, and the logs are those of one group, with room for all ages.
            _ => unreachable!(),
        },
    }
}

/// The one age of these.
fn only(ages: Seq<AgeEnd>) -> AgeEnd
    requires { length ages ≡ 1 }
    ensures { ages ≡ result ∷ [] }
{
    match ages.into_vec().pop() {
        Some(age) => age,
        // There is one.
        None => unreachable!(),
    }
}
