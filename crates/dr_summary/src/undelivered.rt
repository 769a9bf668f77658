ghost use Rattle.std.specs.{List.flat_map, Prelude.{◌≡◌, ◌++◌, IfOk, OnOk, string_bytes, take}};
ghost use Rattle.dr_summary.specs.Notes.{count_from, is_from, message_name, more_text, named_text, names_behind, names_line, undelivered, undelivered_of, undelivered_text};

use dr_entry::{Entry, Message, Seq};
use dr_script::Script;
use std::alloc::{AllocError, Global};
use std::fmt::Write;

/// How many messages are named at most.
const NAMED: usize = 16;

/// Appends the messages of the script that are not in this history.
pub(crate) fn push_undelivered(
    alloc: Global,
    out: &mut String,
    script: &Script,
    history: &[Entry],
) -> Result<(), AllocError>
    ensures { OnOk result (string_bytes out.new ≡ string_bytes out.old
        ++ undelivered_text (undelivered script.now history.now)) }
{
    let names = undelivered(alloc, script, history)?;
    push_line(out, &names)
}

/// Appends the line of these messages, where there are any.
fn push_line(out: &mut String, names: &[(usize, usize)]) -> Result<(), AllocError>
    ensures { OnOk result
        (string_bytes out.new ≡ string_bytes out.old ++ undelivered_text names.now) }
{
    if names.is_empty() {
        return Ok(());
    }
    push_names_line(out, names)
}

fn push_names_line(out: &mut String, names: &[(usize, usize)]) -> Result<(), AllocError>
    ensures { OnOk result (string_bytes out.new ≡ string_bytes out.old ++ names_line names.now) }
{
    out.push_str("delivered by nobody:")?;
    push_named(out, names)?;
    out.push_str("\n")
}

/// Appends the first of these names, and how many more there are.
fn push_named(out: &mut String, names: &[(usize, usize)]) -> Result<(), AllocError>
    ensures { OnOk result (string_bytes out.new ≡ string_bytes out.old ++ named_text names.now) }
{
    push_names(out, first_of(names))?;
    push_more(out, names.len().saturating_sub(NAMED))
}

/// Those of these messages that are named.
fn first_of(names: &[(usize, usize)]) -> &[(usize, usize)]
    ensures { result.now ≡ take 16 names.now }
{
    &names[..names.len().min(NAMED)]
}

/// The messages of the script that are not in this history, each as its sender and its number.
pub(crate) fn undelivered(
    alloc: Global,
    script: &Script,
    history: &[Entry],
) -> Result<Vec<(usize, usize)>, AllocError>
    ensures { IfOk result (λ names. names.items ≡ undelivered script.now history.now) }
{
    let mut names = Vec::new(alloc);
    for (sender, messages) in script.messages.as_slice().iter().enumerate() {
        push_undelivered_of(&mut names, sender, messages, history)?;
    }
    Ok(names)
}

/// Appends a sender's messages that are not in this history.
fn push_undelivered_of(
    names: &mut Vec<(usize, usize)>,
    sender: usize,
    messages: &Seq<Message>,
    history: &[Entry],
) -> Result<(), AllocError>
    ensures { OnOk result (names.new.items
        ≡ names.old.items ++ undelivered_of history.now sender messages.now) }
{
    let had = count_from(sender, history);
    push_rest(names, sender, had, messages.as_slice().len())
}

/// How many messages of a sender a history has.
fn count_from(sender: usize, history: &[Entry]) -> usize
    ensures { result ≡ count_from sender history.now }
{
    history
        .iter()
        .filter(|entry| is_from(sender, entry))
        .count()
}

fn is_from(sender: usize, entry: &Entry) -> bool
    ensures { result ≡ is_from sender entry.now }
{
    match entry {
        Entry::View { .. } => false,
        Entry::Msg { sender: from, .. } => usize::from(*from) == sender,
    }
}

/// Appends the messages of a sender from number `had` on.
fn push_rest(
    names: &mut Vec<(usize, usize)>,
    sender: usize,
    had: usize,
    count: usize,
) -> Result<(), AllocError>
    ensures { OnOk result (names.new.items ≡ names.old.items ++ names_behind sender had count) }
{
    for index in had..count {
        names.push((sender, index))?;
    }
    Ok(())
}

fn push_names(out: &mut String, names: &[(usize, usize)]) -> Result<(), AllocError>
    ensures { OnOk result
        (string_bytes out.new ≡ string_bytes out.old ++ flat_map message_name names.now) }
{
    for (sender, index) in names {
        write!(out, " {sender}.{index}")?;
    }
    Ok(())
}

/// Appends how many more there are.
fn push_more(out: &mut String, count: usize) -> Result<(), AllocError>
    ensures { OnOk result (string_bytes out.new ≡ string_bytes out.old ++ more_text count) }
{
    if count == 0 {
        return Ok(());
    }
    write!(out, " and {count} more")
}
