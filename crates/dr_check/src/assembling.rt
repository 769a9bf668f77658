//! Makes a report of its lines, from the last one on.
//!
//! What has been read is what stands behind, so each step is one of an induction over lines.
ghost use Rattle.std.specs.Prelude.{◌≡◌, ◌++◌, ◌∷◌, [], IfOk, OnOk, reverse, map, true, false};
ghost use Rattle.dr_check.specs.Course.{with_start, put_line, read_from};

use crate::line::Line;
use crate::report::{Report, ReportAge, ReportMember};
use dr_entry::{Entry, Seq};
use std::alloc::{AllocError, Global};
use std::marker::Model;
use std::mem::replace;

/// What the lines up to the last one say: the entries of the list that is being read, the members behind it,
/// whose histories lack the start, and the ages behind these. Each list is kept from its end on. Contracts
/// see them in order.
#[derive(Drop)]
struct Draft {
    entries: Vec<Entry>,
    members: Vec<ReportMember>,
    ages: Vec<ReportAge>,
}

impl Model for Draft {
    ghost use Rattle.std.specs.Prelude.{reverse};
    ghost use Rattle.dr_check.specs.Course.{Read};

    ghost Value = { Read };

    ghost view = { λ b. record {
      entries = reverse b.entries.items;
      members = reverse b.members.items;
      ages = reverse b.ages.items;
    } };
}

/// The elements of a list, from its end on.
fn turned<T>(mut items: Vec<T>) -> Vec<T>
    ensures { result.items ≡ reverse items.items }
{
    items.as_mut_slice().reverse();
    items
}

/// Equal entries.
fn copied(alloc: Global, start: &[Entry]) -> Result<Vec<Entry>, AllocError>
    ensures { IfOk result (λ entries. entries.items ≡ start.now) }
{
    let mut entries = Vec::with_capacity(alloc, start.len())?;
    for entry in start {
        entries.push(entry.copy())?;
    }
    Ok(entries)
}

/// A list with another behind it.
fn joined(alloc: Global, start: &[Entry], own: Seq<Entry>) -> Result<Seq<Entry>, AllocError>
    ensures { IfOk result (λ entries. entries ≡ start.now ++ own) }
{
    let mut entries = copied(alloc, start)?;
    for entry in own.into_vec() {
        entries.push(entry)?;
    }
    Ok(Seq::of(entries))
}

/// A member with the start before its entries, where it took part.
fn with_start(
    alloc: Global,
    start: &[Entry],
    member: ReportMember,
) -> Result<ReportMember, AllocError>
    ensures { IfOk result (λ whole. whole ≡ with_start start.now member) }
{
    if !member.present {
        return Ok(member);
    }
    Ok(ReportMember {
        history: joined(alloc, start, member.history)?,
        ..member
    })
}

/// Members, which are kept from the last one on, with the start before their entries, in order.
fn all_behind(
    alloc: Global,
    start: &[Entry],
    members: Vec<ReportMember>,
) -> Result<Vec<ReportMember>, AllocError>
    ensures { IfOk result (λ whole. whole.items ≡ map (with_start start.now) (reverse members.items)) }
{
    let mut whole = Vec::new(alloc);
    for member in turned(members) {
        whole.push(with_start(alloc, start, member)?)?;
    }
    Ok(whole)
}

impl Draft {
    /// Nothing was read.
    fn none(alloc: Global) -> Draft
        ensures { result ≡ record { entries = []; members = []; ages = [] } }
    {
        Draft {
            entries: Vec::new(alloc),
            members: Vec::new(alloc),
            ages: Vec::new(alloc),
        }
    }

    /// Puts a line with this number in front.
    fn put(&mut self, alloc: Global, number: u64, line: Line) -> Result<(), AllocError>
        ensures { OnOk result (self.new ≡ put_line number line self.old) }
    {
        match line {
            Line::Entry(entry) => self.put_entry(entry),
            Line::Present {
                logged,
                durable,
                ..
            } => self.put_present(alloc, number, logged, durable),
            Line::Absent { .. } => self.put_absent(alloc, number),
            Line::Age { age, .. } => self.put_age(alloc, number, age),
            Line::Last => Ok(()),
        }
    }

    fn put_entry(&mut self, entry: Entry) -> Result<(), AllocError>
        ensures { OnOk result (self.new ≡ record self.old { entries = entry ∷ self.old.entries }) }
    {
        self.entries.push(entry)?;
        Ok(())
    }

    /// Takes the entries out, in order.
    fn take_entries(&mut self, alloc: Global) -> Seq<Entry>
        ensures taken { result ≡ self.old.entries }
        ensures left { self.new ≡ record self.old { entries = [] } }
    {
        Seq::of(turned(replace(&mut self.entries, Vec::new(alloc))))
    }

    fn put_present(
        &mut self,
        alloc: Global,
        number: u64,
        logged: u64,
        durable: u64,
    ) -> Result<(), AllocError>
        ensures { OnOk result (self.new ≡ record self.old {
          entries = [];
          members = record {
            line = number;
            present = true;
            history = self.old.entries;
            logged = logged;
            durable = durable;
          } ∷ self.old.members;
        }) }
    {
        let history = self.take_entries(alloc);
        self.members.push(ReportMember {
            line: number,
            present: true,
            history,
            logged,
            durable,
        })?;
        Ok(())
    }

    fn put_absent(&mut self, alloc: Global, number: u64) -> Result<(), AllocError>
        ensures { OnOk result (self.new ≡ record self.old {
          entries = [];
          members = record { line = number; present = false; history = []; logged = 0; durable = 0 }
              ∷ self.old.members;
        }) }
    {
        self.entries.clear();
        self.members.push(ReportMember {
            line: number,
            present: false,
            history: Seq::of(Vec::new(alloc)),
            logged: 0,
            durable: 0,
        })?;
        Ok(())
    }

    fn put_age(&mut self, alloc: Global, number: u64, age: u16) -> Result<(), AllocError>
        ensures { OnOk result (self.new ≡ record self.old {
          entries = [];
          members = [];
          ages = record {
            age = age;
            line = number;
            start = self.old.entries;
            members = map (with_start self.old.entries) self.old.members;
          } ∷ self.old.ages;
        }) }
    {
        let start = self.take_entries(alloc);
        let members = replace(&mut self.members, Vec::new(alloc));
        let members = all_behind(alloc, start.as_slice(), members)?;
        self.ages.push(ReportAge {
            age,
            line: number,
            start,
            members: Seq::of(members),
        })?;
        Ok(())
    }

    /// The ages, in order.
    fn into_ages(self) -> Seq<ReportAge>
        ensures { result ≡ self.ages }
    {
        Seq::of(turned(self.ages))
    }
}

/// The report that these lines are.
pub(crate) fn report_of(alloc: Global, lines: Vec<Line>) -> Result<Report, AllocError>
    ensures { IfOk result (λ report. report.ages ≡ (read_from 1 lines.items).ages) }
{
    let mut lines = lines;
    let mut read = Draft::none(alloc);
    while let Some(line) = lines.pop() {
        let number = lines.len() as u64 + 1;
        read.put(alloc, number, line)?;
    }
    Ok(Report {
        ages: read.into_ages(),
    })
}
