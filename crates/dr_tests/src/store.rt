//! This part reads what becomes of a store, a line each, and prints what the store answers. What it has
//! to print was worked out by hand.
//!
//! `put KEY VALUE` and `remove KEY` apply these commands, `bytes NUMBER..` a message of these bytes, and `view`
//! an entry that is no message. `get VERSION KEY` prints the value of a key, `scan VERSION PREFIX` the keys that
//! begin so with their values, and `versions` the oldest version and the last one; `forget VERSION` forgets all
//! below it. `again` goes on with the store of all entries so far, and `new` with an empty one. A line that
//! begins with `#` says what those behind it show, and is printed.
mod command;

use crate::store::command::entry_of;
use anyhow::anyhow;
use dr_entry::Entry;
use dr_store::Store;
use std::alloc::Global;
use std::fmt::Write;

/// Prints what becomes of these lines.
pub(crate) fn show(rt: &HostRuntime, lines: &str) -> anyhow::Result<()> {
    let alloc = rt.alloc();
    let mut store = Store::new(alloc);
    let mut history = Vec::new(alloc);
    for line in lines.lines() {
        match line {
            "new" => {
                history.clear();
                store = Store::new(alloc);
            }
            "again" => store = Store::of(alloc, history.as_slice())?,
            _ if line.starts_with('#') => println!(rt; "{line}")?,
            _ => match entry_of(alloc, line)? {
                Some(entry) => {
                    apply(alloc, &mut store, &entry)?;
                    history.push(entry)?;
                }
                None => println!(rt; "{}", answer(alloc, &mut store, line)?)?,
            },
        }
    }
    Ok(())
}

/// Applies an entry, unless the store has come to its last version.
fn apply(alloc: Global, store: &mut Store, entry: &Entry) -> anyhow::Result<()> {
    if store.version() == u64::MAX {
        return Err(anyhow!("there is no further version"));
    }
    store.apply(alloc, entry)?;
    Ok(())
}

/// What the store answers.
fn answer(alloc: Global, store: &mut Store, line: &str) -> anyhow::Result<String> {
    let (name, rest) = line.split_once(' ').unwrap_or((line, ""));
    let (version, key) = rest.split_once(' ').unwrap_or((rest, ""));
    if name == "versions" {
        return Ok(format!(in alloc; "{} {}", store.oldest(), store.version())?);
    }
    let version: u64 = version.parse()?;
    match name {
        "get" => value_of(alloc, store, key, version),
        "scan" => found(alloc, store, key, version),
        "forget" => Ok(match store.forget(version) {
            Ok(()) => String::from_str(alloc, "ok")?,
            Err(fault) => format!(in alloc; "{fault}")?,
        }),
        _ => Err(anyhow!("this is no line of a store")),
    }
}

/// The value of a key at a version, in quotes.
fn value_of(alloc: Global, store: &Store, key: &str, version: u64) -> anyhow::Result<String> {
    Ok(match store.get_at(key.as_bytes(), version) {
        Ok(Some(value)) => format!(in alloc; "{:?}", str::from_utf8(value)?)?,
        Ok(None) => String::from_str(alloc, "none")?,
        Err(fault) => format!(in alloc; "{fault}")?,
    })
}

/// The keys that begin so at a version, each with its value in quotes.
fn found(alloc: Global, store: &Store, prefix: &str, version: u64) -> anyhow::Result<String> {
    let mut text = String::from_str(alloc, "found")?;
    match store.scan_at(alloc, prefix.as_bytes(), version) {
        Ok(rows) => {
            for (key, value) in &rows {
                let key = str::from_utf8(key.as_slice())?;
                write!(text, " {key}={:?}", str::from_utf8(value.as_slice())?)?;
            }
        }
        Err(fault) => return Ok(format!(in alloc; "{fault}")?),
    }
    Ok(text)
}
