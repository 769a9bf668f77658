//! A world, with the events that it was offered.
use crate::starts::start_without;
use crate::world::events::event_of;
use crate::world::printing::push_world;
use anyhow::anyhow;
use dr_agree::agreed_run;
use dr_entry::MAX_MEMBERS;
use dr_script::read_script;
use dr_words::{Mask, Shape};
use dr_world::{Event, World};
use std::alloc::{AllocError, Global};
use std::fmt::Write;

/// The world of a script without some members and with others late, and all events that it was offered.
#[derive(Drop)]
pub(crate) struct Played {
    script: String,
    away: Mask,
    late: Mask,
    world: World,
    events: Vec<Event>,
}

impl Played {
    /// The world of this script as its first age opens.
    pub(crate) fn open(alloc: Global, script: &str) -> anyhow::Result<Played> {
        Ok(Played {
            script: String::from_str(alloc, script)?,
            away: Mask::empty(),
            late: Mask::empty(),
            world: run_of(alloc, script, Mask::empty(), Mask::empty(), &[])?,
            events: Vec::new(alloc),
        })
    }

    /// What a word with these numbers asks for, where it asks for something.
    pub(crate) fn answer(
        &mut self,
        alloc: Global,
        name: &str,
        numbers: &[u8],
    ) -> anyhow::Result<Option<String>> {
        let mut said = String::new(alloc);
        match (name, numbers) {
            ("world", []) => push_world(&mut said, &self.world)?,
            ("again", []) => {
                let events = self.events.as_slice();
                let world = run_of(alloc, self.script.as_str(), self.away, self.late, events)?;
                push_world(&mut said, &world)?;
            }
            ("absent", &[m]) if m < MAX_MEMBERS as u8 => {
                self.away = self.away.with(m);
                self.open_anew(alloc)?;
            }
            ("late", &[m]) if m < MAX_MEMBERS as u8 => {
                self.late = self.late.with(m);
                self.open_anew(alloc)?;
            }
            ("word", &[m, row, column]) => push_word(&mut said, &self.world, m, row, column)?,
            ("show", &[from, to, first, end]) => {
                said.push_str(if self.show(from, to, first, end)? {
                    ": seen"
                } else {
                    ": not seen"
                })?;
            }
            _ => match event_of(name, numbers) {
                Some(event) => said.push_str(if self.take(event)? {
                    ": came"
                } else {
                    ": may not come"
                })?,
                None => return Ok(None),
            },
        }
        Ok(Some(said))
    }

    /// Opens the world anew, without those that are away and with those that are late.
    fn open_anew(&mut self, alloc: Global) -> anyhow::Result<()> {
        self.world = run_of(alloc, self.script.as_str(), self.away, self.late, &[])?;
        self.events.clear();
        Ok(())
    }

    /// Offers the world an event; whether it came.
    fn take(&mut self, event: Event) -> Result<bool, AllocError> {
        let came = self.world.step(&event);
        self.events.push(event)?;
        Ok(came)
    }

    /// A member pushes its words of these columns to another, which looks at them; whether all this came.
    fn show(&mut self, from: u8, to: u8, first: u8, end: u8) -> Result<bool, AllocError> {
        let mut came = true;
        for column in first..end {
            let c = usize::from(column);
            came &= self.take(Event::Push { m: from, j: to, c })?;
            came &= self.take(Event::Look { m: to, i: from, c })?;
        }
        Ok(came)
    }
}

/// The world of a script behind these events in its first age, without some members and with others late.
fn run_of(
    alloc: Global,
    script: &str,
    away: Mask,
    late: Mask,
    events: &[Event],
) -> anyhow::Result<World> {
    let script = read_script(alloc, script.as_bytes())?;
    let start = start_without(alloc, &script, away, late).ok_or(anyhow!("nobody is there"))?;
    Ok(agreed_run(alloc, &script, &start, events)?)
}

/// Appends a word of a member's copy, where there is one.
fn push_word(
    out: &mut String,
    world: &World,
    m: u8,
    row: u8,
    column: u8,
) -> Result<(), AllocError> {
    let members = world.members();
    let shape = Shape {
        members,
        window: world.script().window,
        banks: members,
    };
    let column = usize::from(column);
    if m < members && row < members && column < shape.columns() {
        let word = world.word(m, row, column);
        write!(out, ": {word:016x}")?;
    }
    Ok(())
}
