ghost use Rattle.std.specs.Prelude.{◌≡◌, ◌≤◌, All, IfOk, length};
ghost use Rattle.dr_live.specs.Live.{IsLivePlan};

use anyhow::anyhow;
use dr_entry::{AgeEnd, End, Entry, Message};
use dr_live::{App, ListApp, LiveEnd, is_live_plan, run_live};
use dr_pace::{Pace, SnoozePace};
use dr_script::{Script, read_script};
use std::alloc::Global;
use std::fmt::Write;
use std::sync::Arc;
use std::sync::atomic::{AtomicU64, Ordering};
use std::thread::{self, Threads};

/// Five members, with turns enough for threads.
const PLAN: &[u8] = br#"{"members":5,"window":1,"turns":1000000,"patience":0,"ages":1,
    "messages":[[],[],[],[],[]],"faults":[],"schedule":"lockstep"}"#;

/// How many members there are.
const MEMBERS: u64 = 5;

/// How many messages have to be in the rings before the first age ends, and before the second one does.
const PUSHED: [u64; 2] = [3, 5];

/// How often a thread looks at most whether others have come.
const LOOKS: u32 = 100_000_000;

/// How many members have come to their ends, and how many messages were pushed.
#[derive(Drop)]
struct Counts {
    ends: AtomicU64,
    pushed: AtomicU64,
}

/// Waits until a count is so high.
fn wait_for(count: &AtomicU64, least: u64) {
    for _ in 0..LOOKS {
        if count.load(Ordering::SeqCst) >= least {
            return;
        }
        thread::yield_now();
    }
}

/// Gives its first message once so many members have come to their ends, and each further one an age later.
#[derive(Drop)]
struct LateApp {
    messages: ListApp,
    ends: u64,
    has_given: bool,
    counts: Arc<Counts, Global>,
}

impl App for LateApp {
    ghost left = { λ a. a.messages };

    fn next(&mut self) -> Option<Message> {
        if self.has_given {
            // It is asked again, so what it gave is in the ring.
            self.counts.pushed.fetch_add(1, Ordering::SeqCst);
            self.ends = self.ends.saturating_add(MEMBERS);
        }
        let message = self.messages.next();
        if message.is_some() {
            self.has_given = true;
            wait_for(&self.counts.ends, self.ends);
        }
        message
    }
}

/// Snoozes, and holds the first two ages until so many messages were pushed.
#[derive(Drop)]
struct HoldAges {
    counts: Arc<Counts, Global>,
}

impl Pace for HoldAges {
    fn turn(&self, member: u8, turn: u32) {
        SnoozePace.turn(member, turn);
    }

    fn idle(&self, member: u8, turn: u32) {
        SnoozePace.idle(member, turn);
    }

    fn rest(&self, _member: u8) {
        let ends = self.counts.ends.fetch_add(1, Ordering::SeqCst);
        if ends == MEMBERS - 1 {
            wait_for(&self.counts.pushed, PUSHED[0]);
        } else if ends == 2 * MEMBERS - 1 {
            wait_for(&self.counts.pushed, PUSHED[1]);
        }
    }
}

fn plan(alloc: Global) -> anyhow::Result<Script>
    ensures live { IfOk result IsLivePlan }
    ensures members { IfOk result (λ plan. plan.members ≡ 5) }
{
    let script = match read_script(alloc, PLAN) {
        Ok(script) => script,
        Err(_) => return Err(anyhow!("this is no script")),
    };
    if script.members == 5 && is_live_plan(&script) {
        Ok(script)
    } else {
        Err(anyhow!("this is no plan"))
    }
}

/// An app that gives these messages, the first once so many members have come to their ends.
fn late_app(
    ends: u64,
    messages: Vec<Message>,
    counts: &Arc<Counts, Global>,
) -> anyhow::Result<LateApp>
    requires { length messages.items ≤ 4096 }
    ensures { IfOk result (λ app. length app.messages ≤ 4096) }
{
    Ok(LateApp {
        messages: ListApp::new(messages),
        ends,
        has_given: false,
        counts: Arc::try_clone(counts)?,
    })
}

/// A message.
fn message() -> anyhow::Result<Message> {
    Message::of(b"m").ok_or(anyhow!("the message is too long"))
}

/// Apps that give a message each: at once, behind the first age, behind the second one and behind the third
/// one. The last one gives a message behind each of these ages.
fn apps(alloc: Global, counts: &Arc<Counts, Global>) -> anyhow::Result<Vec<LateApp>>
    ensures all { IfOk result (λ v. length v.items ≡ 5) }
    ensures few { IfOk result (λ v. All (λ app. length app.messages ≤ 4096) v.items) }
{
    let mut apps = Vec::new(alloc);
    apps.push(late_app(0, vec![in alloc; message()?]?, counts)?)?;
    apps.push(late_app(5, vec![in alloc; message()?]?, counts)?)?;
    apps.push(late_app(10, vec![in alloc; message()?]?, counts)?)?;
    apps.push(late_app(15, vec![in alloc; message()?]?, counts)?)?;
    let each = vec![in alloc; message()?, message()?, message()?]?;
    apps.push(late_app(5, each, counts)?)?;
    Ok(apps)
}

/// Whose messages each member has delivered in an age, in ascending order.
fn delivered(alloc: Global, age: &AgeEnd) -> anyhow::Result<String> {
    let mut text = String::new(alloc);
    for member in age.members.as_slice() {
        for sender in 0..MEMBERS as u8 {
            for entry in member.history.as_slice() {
                if matches!(entry, Entry::Msg { sender: by, .. } if *by == sender) {
                    write!(text, "{sender}")?;
                }
            }
        }
        text.push_str(if member.end == End::Done { "." } else { "?" })?;
    }
    Ok(text)
}

/// Tells, of each of four ages, whose messages each member has delivered: what an app pushes while an age
/// runs is in the next one, also where it has pushed before, and what it pushes behind the last round in the
/// last age. What is pushed at once may be in the first age or not, so only what may not be there is told of
/// that one. Behind them stands how often members told the pace their ends.
pub(crate) fn told_of_moments(rt: &(impl Threads + Sync), alloc: Global) -> anyhow::Result<String> {
    let counts = Arc::new(
        alloc,
        Counts {
            ends: AtomicU64::new(0),
            pushed: AtomicU64::new(0),
        },
    )?;
    let pace = HoldAges {
        counts: Arc::try_clone(&counts)?,
    };
    let apps = apps(alloc, &counts)?;
    let LiveEnd { ages, pushed } = run_live(rt, alloc, &plan(alloc)?, apps, 3, &pace)?;
    let mut text = String::new(alloc);
    for list in pushed.as_slice() {
        writeln!(text, "pushed {}", list.as_slice().len())?;
    }
    for (number, age) in ages.as_slice().iter().enumerate() {
        let told = delivered(alloc, age)?;
        if number > 0 || ![".....", "0.0.0.0.0."].contains(&told.as_str()) {
            writeln!(text, "age {number}: {told}")?;
        }
    }
    writeln!(text, "ends {}", counts.ends.load(Ordering::SeqCst))?;
    Ok(text)
}
