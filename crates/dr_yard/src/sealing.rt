//! The files `seals` and `seals.copy` of a folder, which have the same text.
//!
//! So a folder that has lost one of them isn't taken for one that was never sealed, and one of another folder is
//! told. Each is written anew as a whole: to another name, which is synced and then takes its place. So a run that
//! is killed leaves older ones, or one that is older: of each log counts what is known of the later time. Whoever
//! writes them has the folder locked, since two runs without common members may meet.

use crate::file_disk::read_from;
use crate::paths::{in_folder, path_to};
use crate::seal::{Seal, Sealed};
use crate::seals::{Seals, TEXT};
use dr_entry::MAX_MEMBERS;
use std::fs::{self, File, OpenOptions};
use std::io::{self, ErrorKind, Write};
use std::random::RandomSource;
use std::rt::Files;

/// The names of both copies.
const NAMES: [&str; 2] = ["seals", "seals.copy"];

/// The seals of a folder.
#[derive(Drop)]
enum Found {
    /// There are none.
    None,
    /// Those that the copies tell together.
    Seals(Seals),
    /// The copies are of two groups.
    OfTwoGroups,
}

/// The copies of the seals of a folder that are there.
#[derive(Drop)]
struct Copies {
    first: Option<Seals>,
    second: Option<Seals>,
}

impl Copies {
    /// Reads them. One that can't be read counts as one that has no line, where the other can be.
    fn read<R: Files<File = File>>(rt: &R, folder: &str) -> io::Result<Copies> {
        match (
            read_copy(rt, folder, NAMES[0]),
            read_copy(rt, folder, NAMES[1]),
        ) {
            (Err(error), Err(_)) => Err(error),
            (first, second) => Ok(Copies {
                first: first.unwrap_or(Some(Seals::of_text(&[]))),
                second: second.unwrap_or(Some(Seals::of_text(&[]))),
            }),
        }
    }

    /// What they tell together.
    fn found(&self) -> Found {
        match (&self.first, &self.second) {
            (None, None) => Found::None,
            (Some(only), None) | (None, Some(only)) => Found::Seals(only.copy()),
            (Some(first), Some(second)) => match first.joined(second) {
                Some(seals) => Found::Seals(seals),
                None => Found::OfTwoGroups,
            },
        }
    }
}

/// What is known of the log of a member in a folder; nothing, where no member has this number.
///
/// # Errors
///
/// The system refused to read what is there.
pub fn sealed_in<R: Files<File = File>>(rt: &R, folder: &str, member: u8) -> io::Result<Sealed> {
    if usize::from(member) >= MAX_MEMBERS {
        return Ok(Sealed::Unreadable);
    }
    Ok(match Copies::read(rt, folder)?.found() {
        Found::Seals(seals) => seals.of(member),
        Found::None => Sealed::Never,
        Found::OfTwoGroups => Sealed::OfTwoGroups,
    })
}

/// A copy of the seals of a folder, where it is there.
fn read_copy<R: Files<File = File>>(rt: &R, folder: &str, name: &str) -> io::Result<Option<Seals>> {
    let path = path_to(folder, name).ok_or(io::Error::from(ErrorKind::InvalidFilename))?;
    let file = match File::open(rt, path.as_str()) {
        Ok(file) => file,
        Err(error) if error.kind() == ErrorKind::NotFound => return Ok(None),
        Err(error) => return Err(error),
    };
    let mut text = [0; TEXT];
    let count = read_from(&file, 0, &mut text)?;
    Ok(Some(Seals::of_text(&text[..count])))
}

/// Notes how the logs of these members are, or that they were never given back, in both copies. A number that no
/// member has is left out. Where the copies are of two groups, or no group can be read, the group gets a new name,
/// and nothing is known of the other logs.
///
/// # Errors
///
/// Another one has the folder locked, or the system refused a call. Each copy is as before then, or these.
pub(crate) fn put_seals<R: Files<File = File> + RandomSource>(
    rt: &R,
    folder: &str,
    changes: &[(u8, Option<Seal>)],
) -> io::Result<()> {
    let lock = File::open(rt, in_folder(folder))?;
    if lock.try_lock().is_err() {
        return Err(io::Error::from(ErrorKind::WouldBlock));
    }
    let copies = Copies::read(rt, folder)?;
    let mut seals = match copies.found() {
        Found::Seals(seals) => seals,
        Found::None => Seals::new(random_name(rt)?),
        Found::OfTwoGroups => Seals::of_text(&[]),
    };
    if seals.group().is_none() {
        seals.rename(random_name(rt)?);
    }
    for (member, seal) in changes {
        if usize::from(*member) < MAX_MEMBERS {
            seals.put(*member, *seal);
        }
    }
    let first = write_copy(rt, folder, NAMES[0], &copies.first, &seals)?;
    let second = write_copy(rt, folder, NAMES[1], &copies.second, &seals)?;
    if first || second {
        lock.sync_all()?;
    }
    Ok(())
}

/// A name for a new group.
fn random_name<R: RandomSource>(rt: &R) -> io::Result<[u8; 16]> {
    let mut name = [0; 16];
    rt.fill_bytes(&mut name)?;
    Ok(name)
}

/// Writes a copy of the seals of a folder, which is locked, if it was another. It answers whether it was.
fn write_copy<R: Files<File = File>>(
    rt: &R,
    folder: &str,
    name: &str,
    before: &Option<Seals>,
    seals: &Seals,
) -> io::Result<bool> {
    match before {
        Some(before) if before.lines() == seals.lines() => return Ok(false),
        _ => {}
    }
    let too_long = || io::Error::from(ErrorKind::InvalidFilename);
    let path = path_to(folder, name).ok_or(too_long())?;
    let new_path = path_to(folder, "seals.new").ok_or(too_long())?;
    let mut file = OpenOptions::new()
        .write(true)
        .create(true)
        .truncate(true)
        .open(rt, new_path.as_str())?;
    for line in seals.lines() {
        file.write_all(&line[..])?;
    }
    file.sync_all()?;
    fs::rename(rt, new_path.as_str(), path.as_str())?;
    Ok(true)
}
