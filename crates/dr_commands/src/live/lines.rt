ghost use Rattle.std.specs.Prelude.{◌≡◌, ◌++◌, [], ◌∷◌, OnOk, if◌then◌else◌, length, string_bytes};
ghost use Rattle.dr_history.specs.Order.{messages_from};
ghost use Rattle.dr_commands.specs.LiveLines.{last_history, live_text, sender_line, senders_text};

use dr_entry::{AgeEnd, Entry, Message, Seq};
use dr_summary::longest;
use std::alloc::AllocError;
use std::fmt::Write;

/// Appends how much each sender has pushed, and how much of it is delivered in the last of these ages.
pub(crate) fn push_live(
    out: &mut String,
    pushed: &[Seq<Message>],
    ages: &[AgeEnd],
) -> Result<(), AllocError>
    ensures { OnOk result
        (string_bytes out.new ≡ string_bytes out.old ++ live_text pushed.now ages.now) }
{
    push_senders(out, pushed, last_history(ages))
}

/// The longest history of the last of these ages.
fn last_history(ages: &[AgeEnd]) -> &[Entry]
    ensures { result.now ≡ last_history ages.now }
{
    match ages {
        [] => &[],
        [.., age] => longest(age.members.as_slice()),
    }
}

/// Appends the lines of these senders, by what a history has of their messages.
fn push_senders(
    out: &mut String,
    pushed: &[Seq<Message>],
    history: &[Entry],
) -> Result<(), AllocError>
    ensures { OnOk result
        (string_bytes out.new ≡ string_bytes out.old ++ senders_text pushed.now history.now) }
{
    for (number, list) in pushed.iter().enumerate() {
        push_sender(out, number, list, history)?;
    }
    Ok(())
}

/// Appends the line of one of them.
fn push_sender(
    out: &mut String,
    number: usize,
    list: &Seq<Message>,
    history: &[Entry],
) -> Result<(), AllocError>
    ensures { OnOk result (string_bytes out.new ≡ string_bytes out.old
        ++ sender_line number (length list.now) (length (messages_from number history.now))) }
{
    let pushed = list.as_slice().len();
    let delivered = count_from(number, history);
    writeln!(out, "member {number} pushed {pushed} delivered {delivered}")
}

/// How many messages of this sender are among the entries.
fn count_from(sender: usize, entries: &[Entry]) -> usize
    ensures { result ≡ length (messages_from sender entries.now) }
{
    let mut count = 0;
    for entry in entries {
        if is_from(sender, entry) {
            count += 1;
        }
    }
    count
}

/// Whether an entry is a message of this sender.
fn is_from(sender: usize, entry: &Entry) -> bool
    ensures { messages_from sender (entry.now ∷ []) ≡ (if result then entry.now ∷ [] else []) }
{
    matches!(entry, Entry::Msg { sender: by, .. } if usize::from(*by) == sender)
}
