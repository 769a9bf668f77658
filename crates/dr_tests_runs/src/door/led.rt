//! Doors that are led to their ends, and what is carried between them.
//!
//! In each turn all packets that were ever sent come to whom they were sent to, the last one first.
use anyhow::anyhow;
use arrayvec::ArrayVec;
use dr_door::{Deed, Door, Packet, encode, receiver_of};
use dr_entry::{Entry, RECORD_ROOM};
use std::alloc::Global;

/// For how many turns the doors are led.
const TURNS: u32 = 60;

/// The most deeds of a turn that are answered here.
const DEEDS: u32 = 100_000;

/// A door, and the number and the bytes of the records that went on its log.
#[derive(Drop)]
pub(super) struct Led {
    door: Door,
    records: u32,
    bytes: usize,
}

/// A letter for a late member.
#[derive(Drop)]
struct Letter {
    to: u8,
    entries: Vec<Entry>,
}

/// What was sent, and how it is carried.
#[derive(Drop)]
pub(super) struct Way {
    sent: Vec<Packet>,
    letters: Vec<Letter>,
    /// Of so many packets the second one comes only from the next turn on; all come at once where this is 0.
    late: usize,
    /// Whether letters come.
    brings: bool,
    /// How many packets were refused.
    refused: u32,
}

impl Way {
    /// A way on which nothing was sent yet.
    pub(super) fn new(alloc: Global, late: usize, brings: bool) -> Way {
        Way {
            sent: Vec::new(alloc),
            letters: Vec::new(alloc),
            late,
            brings,
            refused: 0,
        }
    }
}

/// Leads these doors to their ends.
pub(super) fn lead_all(alloc: Global, doors: Vec<Door>, way: &mut Way) -> anyhow::Result<Vec<Led>> {
    let mut all: Vec<Led> = Vec::new(alloc);
    for door in doors {
        all.push(Led {
            door,
            records: 0,
            bytes: 0,
        })?;
    }
    for _ in 0..TURNS {
        let before = way.sent.len();
        for led in &mut all {
            lead(alloc, led, way)?;
        }
        let refused = carry(all.as_mut_slice(), way, before);
        way.refused = way.refused.saturating_add(refused);
    }
    Ok(all)
}

/// Prints how many words were sent and refused on a way, and in which turns these doors ended.
pub(super) fn print_way(rt: &HostRuntime, all: &[Led], way: &Way) -> anyhow::Result<()> {
    println!(rt;
        "{} words were sent, {} refused",
        way.sent.len(),
        way.refused
    )?;
    for led in all {
        println!(rt;
            "member {} ended in turn {}",
            led.door.me(),
            led.door.turns()
        )?;
    }
    Ok(())
}

/// Carries the packets to the doors that they were sent to, where so many were sent in earlier turns. Answers how
/// many were refused.
fn carry(doors: &mut [Led], way: &Way, before: usize) -> u32 {
    let mut refused = 0u32;
    for (nth, packet) in way.sent.iter().enumerate().rev() {
        if before <= nth && way.late > 0 && nth % way.late == 1 {
            continue;
        }
        for Led { door, .. } in doors.iter_mut() {
            if receiver_of(&door.shape(), packet.index) == door.me()
                && door.came(packet.index, packet.word).is_err()
            {
                refused = refused.saturating_add(1);
            }
        }
    }
    refused
}

/// A door takes its turn, or comes to its end.
fn lead(alloc: Global, led: &mut Led, way: &mut Way) -> anyhow::Result<()> {
    if led.door.turn().is_err() {
        return Ok(());
    }
    for _ in 0..DEEDS {
        let Some(deed) = led.door.go() else {
            return Ok(());
        };
        match deed {
            Deed::Push(index, word) => {
                way.sent.push(Packet { index, word })?;
                let _ = led.door.pushed();
            }
            Deed::Append(record) => {
                let mut bytes: ArrayVec<u8, RECORD_ROOM> = ArrayVec::new();
                encode(&record, &mut bytes);
                led.records = led.records.saturating_add(1);
                led.bytes = led.bytes.saturating_add(bytes.len());
                let _ = led.door.appended();
            }
            Deed::Give { late } => give(alloc, &mut led.door, late, way)?,
            Deed::Take => take(&mut led.door, way)?,
            _ => return Ok(()),
        }
    }
    Ok(())
}

/// A door gives its letter.
fn give(alloc: Global, door: &mut Door, late: u8, way: &mut Way) -> anyhow::Result<()> {
    let mut entries = Vec::new(alloc);
    for entry in door.letter() {
        entries.push(entry.copy())?;
    }
    way.letters.push(Letter { to: late, entries })?;
    let _ = door.given();
    Ok(())
}

/// A door takes its letter, where one was given and comes.
fn take(door: &mut Door, way: &Way) -> anyhow::Result<()> {
    let me = door.me();
    let mut letter = None;
    for one in &way.letters {
        if way.brings && one.to == me {
            letter = Some(one.entries.as_slice());
        }
    }
    match door.taken(letter) {
        Ok(()) => Ok(()),
        Err(why) => Err(anyhow!("{why}")),
    }
}

/// Prints how the members of these doors ended, their histories, and what went on their logs.
pub(super) fn print_ends(rt: &HostRuntime, all: &[Led]) -> anyhow::Result<()> {
    for led in all {
        let door = &led.door;
        println!(rt;
            "member {}: {:?}, {} logged, {} durable; {} records of {} bytes",
            door.me(),
            door.end(),
            door.logged(),
            door.durable(),
            led.records,
            led.bytes
        )?;
        println!(rt; "  {:?}", door.history())?;
    }
    Ok(())
}
