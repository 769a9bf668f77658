ghost use Rattle.std.specs.Prelude.{◌≡◌, ◌<◌, ◌≤◌, ◌*◌, IfOk, IsTrue};
ghost use Rattle.dr_program.specs.Schedule.{next_state};
ghost use Rattle.dr_script.specs.Ranges.{HasRanges};
ghost use Rattle.dr_drill.specs.Drill.{drill, early_crash, letter, message, messages_of_member, state_after};

use dr_entry::{Message, Seq};
use dr_script::{Fault, Schedule, Script, What};
use dr_sim::Lcg;
use std::alloc::{AllocError, Global};

/// How many members there are.
const MEMBERS: u8 = 5;

/// How many messages each has.
const MESSAGES: usize = 400;

/// How many letters a message has.
const LENGTH: usize = 32;

/// The script that this number makes.
///
/// # Errors
///
/// Want of memory alone.
pub fn make(alloc: Global, seed: u64) -> Result<Script, AllocError>
    ensures script { IfOk result (λ s. s ≡ drill seed) }
    ensures ranges { IfOk result HasRanges }
{
    let mut letters = Lcg::new(seed);
    let mut lists = Vec::with_capacity(alloc, usize::from(MEMBERS))?;
    for _ in 0..MEMBERS {
        lists.push(messages(alloc, &mut letters)?)?;
    }
    let mut faults = Vec::with_capacity(alloc, 2)?;
    faults.push(early_crash(3))?;
    faults.push(early_crash(4))?;
    Ok(Script {
        members: MEMBERS,
        window: 8,
        turns: 1808,
        patience: 3,
        ages: 1,
        messages: Seq::of(lists),
        faults: Seq::of(faults),
        schedule: Schedule::Lockstep,
    })
}

/// The crash of a member before it has pushed anything.
fn early_crash(member: u8) -> Fault
    ensures { result ≡ early_crash member }
{
    Fault {
        age: 0,
        member,
        what: What::Crash { turn: 1, push: 0 },
    }
}

/// The messages of a member, of the next letters.
fn messages(alloc: Global, letters: &mut Lcg) -> Result<Seq<Message>, AllocError>
    ensures messages { IfOk result (λ l. l ≡ messages_of_member letters.old 0) }
    ensures state { IfOk result (λ _. letters.new ≡ state_after letters.old (32 * 400)) }
{
    let mut list = Vec::with_capacity(alloc, MESSAGES)?;
    for _ in 0..MESSAGES {
        list.push(message(letters))?;
    }
    Ok(Seq::of(list))
}

/// A message of the next letters.
fn message(letters: &mut Lcg) -> Message
    ensures message { result ≡ message letters.old 0 }
    ensures state { letters.new ≡ state_after letters.old 32 }
{
    let mut bytes = [0; LENGTH];
    for i in 0..LENGTH {
        bytes[i] = letter(letters);
    }
    Message::of(&bytes).unwrap()
}

/// The next letter.
fn letter(letters: &mut Lcg) -> u8
    ensures letter { result ≡ letter letters.old 0 }
    ensures state { letters.new ≡ next_state letters.old }
{
    b'a' + letters.choose(26) as u8
}
