//! What is new in a turn of a member.
use crate::news::{Change, News};
use dr_entry::{End, Entry};
use dr_quote::push_message;
use dr_text::{push_end, push_mask};
use std::alloc::{AllocError, Global};
use std::fmt::Write;

/// The turn that a member is in, with its news. Each word has a line feed before it, since texts have blanks.
#[derive(Drop)]
pub(crate) struct Turn {
    alloc: Global,
    number: u32,
    took: String,
    put: String,
    delivered: String,
    logged: Option<u64>,
    durable: Option<u64>,
    /// All else, each behind a semicolon.
    more: String,
    /// Whether entries may come to the history by its last deed, so that there may be more to tell once that is done.
    waits: bool,
    /// Whether they would come by a letter.
    by_letter: bool,
}

impl Turn {
    /// What a member is in before its first turn, without news.
    pub(crate) fn new(alloc: Global) -> Turn {
        Turn {
            alloc,
            number: 0,
            took: String::new(alloc),
            put: String::new(alloc),
            delivered: String::new(alloc),
            logged: None,
            durable: None,
            more: String::new(alloc),
            waits: false,
            by_letter: false,
        }
    }

    /// The turn of this number begins, without news.
    pub(crate) fn begin(&mut self, number: u32) {
        self.number = number;
        self.took.clear();
        self.put.clear();
        self.delivered.clear();
        self.logged = None;
        self.durable = None;
        self.more.clear();
        self.waits = false;
        self.by_letter = false;
    }

    /// Whether there may be more to tell of it once its last deed is done.
    pub(crate) fn waits(&self) -> bool {
        self.waits
    }

    /// Whether that would come by a letter.
    pub(crate) fn by_letter(&self) -> bool {
        self.by_letter
    }

    /// Its number.
    pub(crate) fn number(&self) -> u32 {
        self.number
    }

    /// Whether it has no news, and waits for none.
    pub(crate) fn is_quiet(&self) -> bool {
        self.took.as_str().is_empty()
            && self.put.as_str().is_empty()
            && self.delivered.as_str().is_empty()
            && self.logged.is_none()
            && self.durable.is_none()
            && self.more.as_str().is_empty()
            && !self.waits
    }

    /// Appends its news, in words.
    pub(crate) fn push_to(&self, out: &mut String) -> Result<(), AllocError> {
        push_list(out, ";\ntook", &self.took)?;
        push_list(out, ";\nput", &self.put)?;
        push_list(out, ";\ndelivered", &self.delivered)?;
        if let Some(count) = self.logged {
            write!(out, ";\nlog\n{count}")?;
        }
        if let Some(count) = self.durable {
            write!(out, ";\ndurable\n{count}")?;
        }
        out.push_str(self.more.as_str())
    }

    /// Takes note of news of one of so many members. That of a turn begins it.
    pub(crate) fn note(&mut self, members: usize, news: News<'_>) -> Result<(), AllocError> {
        match news {
            News::Turn(number) => {
                self.begin(number);
                Ok(())
            }
            News::Logged(count) => {
                self.logged = Some(count);
                Ok(())
            }
            News::Durable(count) => {
                self.durable = Some(count);
                Ok(())
            }
            News::NextView { .. } => {
                self.waits = true;
                Ok(())
            }
            News::Letterbox => {
                self.wait_for_letter();
                Ok(())
            }
            News::Taking { .. } | News::Put(_) | News::Filler | News::Delivery { .. } => {
                self.note_item(news)
            }
            News::Commitment(change) => push_commitment(&mut self.more, members, &change),
            News::End(end) => self.note_end(end),
            _ => self.note_vote(news),
        }
    }

    /// Entries may come by a letter.
    fn wait_for_letter(&mut self) {
        self.waits = true;
        self.by_letter = true;
    }

    /// Takes note of an item.
    fn note_item(&mut self, news: News<'_>) -> Result<(), AllocError> {
        match news {
            News::Taking { sender, count } => write!(self.took, "\n{sender}#{count}"),
            News::Put(message) => {
                self.put.push_str("\n")?;
                push_message(self.alloc, &mut self.put, message)
            }
            News::Delivery { sender, index, .. } => write!(self.delivered, "\n{sender}.{index}"),
            _ => self.put.push_str("\nnull"),
        }
    }

    /// Takes note of what a member does to change its view, or to take another one into it.
    fn note_vote(&mut self, news: News<'_>) -> Result<(), AllocError> {
        match news {
            News::Suspicion(other) => write!(self.more, ";\nsuspects\n{other}"),
            News::Wish(other) => write!(self.more, ";\nwishes\nfor\n{other}"),
            News::Letter(other) => write!(self.more, ";\nwelcomes\n{other}"),
            News::Vote => self.more.push_str(";\nvotes"),
            News::Proposal(_) => self.more.push_str(";\nproposes"),
            _ => self.more.push_str(";\naccepts"),
        }
    }

    fn note_end(&mut self, end: End) -> Result<(), AllocError> {
        self.more.push_str(";\n")?;
        match end {
            End::Done => self.more.push_str("DONE"),
            End::Crashed => self.more.push_str("CRASHED"),
            End::Suspected { by } => write!(self.more, "SUSPECTED\nby\n{by}"),
            End::Excluded { view } => write!(self.more, "EXCLUDED\nfrom\n{view}"),
            End::Spent { turns } => write!(self.more, "SPENT\n{turns}"),
            _ => {
                self.more.push_str("ENDED:\n")?;
                push_end(&mut self.more, end)
            }
        }
    }

    /// Takes note of entries that came by its last deed, if there are any.
    pub(crate) fn note_rest(&mut self, entries: &[Entry]) -> Result<(), AllocError> {
        let by_letter = self.by_letter;
        self.waits = false;
        self.by_letter = false;
        push_rest(&mut self.more, by_letter, entries)
    }
}

/// Appends that a value is committed: who leaves and who comes in, and how many items of each member are
/// delivered.
fn push_commitment(out: &mut String, members: usize, change: &Change) -> Result<(), AllocError> {
    out.push_str(";\ncommits\nthat")?;
    push_those(out, change.leavers, "\nleaves", "\nleave")?;
    if change.leavers != 0 && change.newcomers != 0 {
        out.push_str("\nand")?;
    }
    push_those(out, change.newcomers, "\njoins", "\njoin")?;
    out.push_str("\nwith\nitems")?;
    push_counts(out, "\n", members, &change.trim)
}

/// Appends these members, if there are any, with a word behind one of them and another one behind several.
fn push_those(out: &mut String, names: u16, one: &str, several: &str) -> Result<(), AllocError> {
    if names == 0 {
        return Ok(());
    }
    out.push_str("\n")?;
    push_mask(out, names)?;
    out.push_str(if names.is_power_of_two() {
        one
    } else {
        several
    })
}

/// Appends how many items of each of so many members are delivered, each behind this text.
///
/// # Errors
///
/// Want of memory alone.
pub fn push_counts(
    out: &mut String,
    before: &str,
    members: usize,
    trim: &[u32],
) -> Result<(), AllocError> {
    for (member, count) in trim.iter().enumerate().take(members) {
        write!(out, "{before}{member}:{count}")?;
    }
    Ok(())
}

/// Appends what was delivered as a view ended, or by a letter, and the view behind it, if anything was.
pub(crate) fn push_rest(
    out: &mut String,
    by_letter: bool,
    entries: &[Entry],
) -> Result<(), AllocError> {
    if by_letter && !entries.is_empty() {
        out.push_str(";\njoins")?;
    }
    let mut some = false;
    for entry in entries {
        let title = if some { "" } else { ";\ndelivered" };
        push_came(out, title, entry)?;
        some = some || matches!(entry, Entry::Msg { .. });
    }
    Ok(())
}

/// Appends an entry that came as a view ended, a message behind this title.
fn push_came(out: &mut String, title: &str, entry: &Entry) -> Result<(), AllocError> {
    match entry {
        Entry::View { number, .. } => write!(out, ";\nVIEW\n{number}"),
        Entry::Msg { sender, index, .. } => write!(out, "{title}\n{sender}.{index}"),
    }
}

/// Appends a list behind its title, where it has words.
fn push_list(out: &mut String, title: &str, list: &String) -> Result<(), AllocError> {
    if list.as_str().is_empty() {
        return Ok(());
    }
    out.push_str(title)?;
    out.push_str(list.as_str())
}
