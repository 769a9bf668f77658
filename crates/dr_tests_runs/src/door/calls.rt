//! Calls of one door.
use dr_door::{Door, LogWhy};
use std::alloc::Global;
use std::fmt::Debug;

/// What the door answers to the call of a line, with these numbers.
pub(super) fn told_of(alloc: Global, door: &mut Door, line: &str) -> anyhow::Result<String> {
    let (name, rest) = line.split_once(' ').unwrap_or((line, ""));
    let mut numbers: Vec<u64> = Vec::new(alloc);
    for word in rest.split_whitespace() {
        numbers.push(word.parse()?)?;
    }
    match (name, numbers.as_slice()) {
        ("came", [index, word]) => told(alloc, &door.came(usize::try_from(*index)?, *word)),
        ("judge", [index, word]) => told(alloc, &door.judge(usize::try_from(*index)?, *word)),
        ("again", [to, from]) => told(
            alloc,
            &door.again(u8::try_from(*to)?, usize::try_from(*from)?),
        ),
        _ => answer_of(alloc, door, name),
    }
}

/// What the door answers to a call with no number.
fn answer_of(alloc: Global, door: &mut Door, name: &str) -> anyhow::Result<String> {
    match name {
        "go" => told(alloc, &door.go()),
        "turn" => told(alloc, &door.turn()),
        "pushed" => told(alloc, &door.pushed()),
        "appended" => told(alloc, &door.appended()),
        "full" => told(alloc, &door.append_failed(&LogWhy::LogFull { len: 1 })),
        "given" => told(alloc, &door.given()),
        "missed" => told(alloc, &door.taken(None)),
        "joined" => told(alloc, &door.taken(Some(&[]))),
        "letter" => told(alloc, &door.letter()),
        _ => told(alloc, &door.end()),
    }
}

/// The text of an answer.
fn told(alloc: Global, answer: &impl Debug) -> anyhow::Result<String> {
    Ok(format!(in alloc; "{answer:?}")?)
}
