//! The merge, and histories that are in order and agree, of a group of two in one view.
//!
//! A letter stands for an entry: those of the messages for these, and any other for View 0.
use dr_entry::{End, Entry, MemberEnd, Message, SentItem, Seq, ViewSent};
use dr_history::{GroupView, Opening};
use dr_oracle::{agreed, in_order, merge};
use std::alloc::{AllocError, Global};

/// The messages: who sends it, its index, and its byte.
const MESSAGES: [(u8, u32, u8); 6] = [
    (0, 0, b'a'),
    (1, 0, b'b'),
    (0, 1, b'd'),
    (1, 1, b'e'),
    (0, 2, b'f'),
    (0, 3, b'h'),
];

/// What the members have sent: member 0 its four messages, with a null behind the first, and member 1 a null and
/// its two messages.
const ITEMS: [&str; 2] = ["0-123", "-01"];

/// What a call with the counts of a merge, or with histories, answers.
pub(crate) fn told_of_histories(alloc: Global, name: &str, words: &str) -> anyhow::Result<String> {
    let opening = opening(alloc)?;
    let (first, second) = words.split_once(' ').unwrap_or((words, ""));
    if name == "merge" {
        let counts = [first.parse()?, second.parse()?];
        let ends = ends(alloc, "", "")?;
        let view = GroupView::new(1, 0, 0b011);
        let merged = merge(alloc, &opening, ends.as_slice(), &view, &counts)?;
        return Ok(format!(in alloc; "{merged:?}")?);
    }
    let ends = ends(alloc, first, second)?;
    let holds = if name == "agreed" {
        agreed(&opening, ends.as_slice())
    } else {
        in_order(&opening, ends.as_slice(), entries(alloc, first)?.as_slice())
    };
    Ok(format!(in alloc; "{holds}")?)
}

fn opening(alloc: Global) -> Result<Opening, AllocError> {
    let messages = vec![in alloc; messages_of(alloc, 0)?, messages_of(alloc, 1)?]?;
    Ok(Opening {
        age: 1,
        members: 0b011,
        present: 0b011,
        start: Seq::of(Vec::new(alloc)),
        messages: Seq::of(messages),
    })
}

fn messages_of(alloc: Global, member: u8) -> Result<Seq<Message>, AllocError> {
    let mut messages = Vec::new(alloc);
    for (sender, _, byte) in MESSAGES {
        if sender == member {
            messages.push(Message::of(&[byte]).unwrap())?;
        }
    }
    Ok(Seq::of(messages))
}

/// The ends of both members, with these histories.
fn ends(alloc: Global, one: &str, other: &str) -> Result<Vec<MemberEnd>, AllocError> {
    Ok(vec![in alloc; end(alloc, ITEMS[0], one)?, end(alloc, ITEMS[1], other)?]?)
}

fn end(alloc: Global, items: &str, history: &str) -> Result<MemberEnd, AllocError> {
    let mut sent = Vec::new(alloc);
    for item in items.bytes() {
        sent.push(match item {
            b'-' => SentItem::Null,
            _ => SentItem::Index(u32::from(item % 16)),
        })?;
    }
    let items = Seq::of(sent);
    Ok(MemberEnd {
        end: End::Done,
        turns: 1,
        sent: Seq::of(vec![in alloc; ViewSent { number: 0, items }]?),
        history: Seq::of(entries(alloc, history)?),
        logged: 0,
        durable: 0,
    })
}

/// The entries for which these letters stand.
fn entries(alloc: Global, letters: &str) -> Result<Vec<Entry>, AllocError> {
    let mut entries = Vec::new(alloc);
    for letter in letters.bytes() {
        entries.push(entry(letter))?;
    }
    Ok(entries)
}

fn entry(letter: u8) -> Entry {
    for (sender, index, byte) in MESSAGES {
        if byte == letter {
            let bytes = Message::of(&[byte]).unwrap();
            return Entry::Msg {
                sender,
                index,
                bytes,
            };
        }
    }
    Entry::View {
        age: 1,
        number: 0,
        members: 0b011,
    }
}
