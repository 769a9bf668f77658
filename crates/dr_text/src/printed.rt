ghost use Rattle.std.specs.Prelude.{◌≡◌, ◌↔◌, IsTrue, ◌≤◌, IfOk, string_bytes, length, take, drop};
ghost use Rattle.dr_text.specs.Printed.{ArePrinted, lines};

use crate::entries::push_entry;
use dr_entry::Entry;
use std::alloc::{AllocError, Global};

/// The lines of some entries, ready to be copied.
#[derive(Drop)]
pub(crate) struct Printed<'a> {
    entries: &'a [Entry],
    text: String,
    /// Where the lines of the first entries end: of none of them, of one, and so on.
    ends: Vec<usize>,
    ghost printed: { ArePrinted entries.now (length entries.now) (string_bytes text) ends.items },
}

impl<'a> Printed<'a> {
    /// Prints these entries.
    pub(crate) fn of(alloc: Global, entries: &'a [Entry]) -> Result<Printed<'a>, AllocError>
        ensures { IfOk result (λ printed. printed.entries.now ≡ entries.now) }
    {
        let mut text = String::new(alloc);
        let mut ends = Vec::new(alloc);
        ends.push(0)?;
        for entry in entries {
            push_entry(&mut text, entry)?;
            ends.push(text.as_str().len())?;
        }
        Ok(Printed {
            entries,
            text,
            ends,
        })
    }

    /// How many of these entries, from the first on, are those that are printed.
    pub(crate) fn count_same(&self, entries: &[Entry]) -> usize
        ensures within { (result ≤ length self.now.entries.now) × (result ≤ length entries.now) }
        ensures same { take result self.now.entries.now ≡ take result entries.now }
    {
        count_same(self.entries, entries)
    }

    /// Where the lines of the first `count` entries end.
    pub(crate) fn end_of(&self, count: usize) -> usize
        requires { count ≤ length self.now.entries.now }
        ensures { take result (string_bytes self.now.text) ≡ lines self.now.entries.now count }
    {
        self.ends[count]
    }

    /// The text of all lines.
    pub(crate) fn into_text(self) -> String
        ensures { string_bytes result ≡ string_bytes self.entry.text }
    {
        self.text
    }
}

/// How many entries both lists begin with.
fn count_same(a: &[Entry], b: &[Entry]) -> usize
    ensures within { (result ≤ length a.now) × (result ≤ length b.now) }
    ensures same { take result a.now ≡ take result b.now }
{
    let most = a.len().min(b.len());
    for i in 0..most {
        if !is_same(&a[i], &b[i]) {
            return i;
        }
    }
    most
}

fn is_same(a: &Entry, b: &Entry) -> bool
    ensures { IsTrue result ↔ (a.now ≡ b.now) }
{
    a == b
}

/// The entries after the first `count`.
pub(crate) fn behind(entries: &[Entry], count: usize) -> &[Entry]
    requires { count ≤ length entries.now }
    ensures { result.now ≡ drop count entries.now }
{
    &entries[count..]
}
