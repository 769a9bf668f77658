//! Who comes into a view, who gives the letters, and in which order views may follow one another.
//!
//! Members are masks. `may_wish` takes the late ones, a member, and the Views of a history by their ages and members;
//! `views` takes who is there and the Views of age 1; `letter_end` takes a history by letters: `V` for a View, and any
//! other for a message.
use anyhow::anyhow;
use dr_entry::{Entry, MAX_MEMBERS, Message, Seq};
use dr_history::Opening;
use dr_install::letter_end;
use dr_join::{newcomers, welcomer};
use dr_oracle::in_order;
use dr_suspect::may_wish;
use dr_words::Mask;
use std::alloc::{AllocError, Global};

/// The members of the roster.
const ROSTER: usize = 4;

/// What a call with these words answers.
pub(crate) fn told_of_joins(alloc: Global, name: &str, words: &str) -> anyhow::Result<String> {
    if name == "letter_end" {
        let entries = entries(alloc, words)?;
        return Ok(format!(in alloc; "{}", letter_end(entries.as_slice()))?);
    }
    let mut numbers: Vec<u16> = Vec::new(alloc);
    for word in words.split_whitespace() {
        numbers.push(word.parse()?)?;
    }
    Ok(match (name, numbers.as_slice()) {
        ("next", [members, names]) => {
            format!(in alloc; "{:?}", Mask::of(*members).next(Mask::of(*names)))?
        }
        ("newcomers", [before, after]) => {
            format!(in alloc; "{:?}", newcomers(Mask::of(*before), Mask::of(*after)))?
        }
        ("welcomer", [before, after]) => {
            format!(in alloc; "{:?}", welcomer(Mask::of(*before), Mask::of(*after)))?
        }
        ("may_wish", [late, member, views @ ..]) => {
            format!(in alloc; "{}", wishes(alloc, *late, *member, views)?)?
        }
        ("views", [present, views @ ..]) => {
            format!(in alloc; "{}", follow(alloc, *present, views)?)?
        }
        _ => return Err(anyhow!("{name} takes other words")),
    })
}

/// Whether a member whose history has these Views may wish for another.
fn wishes(alloc: Global, late: u16, member: u16, views: &[u16]) -> anyhow::Result<bool> {
    let member = u8::try_from(member)?;
    if usize::from(member) >= MAX_MEMBERS {
        return Err(anyhow!("{member} is no member"));
    }
    let mut history = Vec::new(alloc);
    for at in 0..views.len() / 2 {
        history.push(Entry::View {
            age: views[2 * at],
            number: 0,
            members: views[2 * at + 1],
        })?;
    }
    Ok(may_wish(history.as_slice(), 1, Mask::of(late), member))
}

/// Whether these Views of age 1 are in order, in which so many members are there.
fn follow(alloc: Global, present: u16, views: &[u16]) -> anyhow::Result<bool> {
    let mut history = Vec::new(alloc);
    for (number, members) in views.iter().enumerate() {
        history.push(Entry::View {
            age: 1,
            number: u8::try_from(number)?,
            members: *members,
        })?;
    }
    let mut messages: Vec<Seq<Message>> = Vec::new(alloc);
    for _ in 0..ROSTER {
        messages.push(Seq::of(Vec::new(alloc)))?;
    }
    let opening = Opening {
        age: 1,
        members: *views.first().unwrap_or(&0),
        present,
        start: Seq::of(Vec::new(alloc)),
        messages: Seq::of(messages),
    };
    Ok(in_order(&opening, &[], history.as_slice()))
}

/// The entries of a history that these letters stand for.
fn entries(alloc: Global, letters: &str) -> Result<Vec<Entry>, AllocError> {
    let mut entries = Vec::new(alloc);
    for letter in letters.bytes() {
        entries.push(match letter {
            b'V' => Entry::View {
                age: 1,
                number: 0,
                members: 1,
            },
            _ => Entry::Msg {
                sender: 0,
                index: 0,
                bytes: Message::of(&[letter]).unwrap(),
            },
        })?;
    }
    Ok(entries)
}
