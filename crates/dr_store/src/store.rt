mod scanning;

ghost use Rattle.std.specs.{Option.unwrap_or, Result.result_err};
ghost use Rattle.std.specs.Prelude.{◌≡◌, ◌+◌, ◌-◌, ◌^◌, ◌<◌, ◌≤◌, ◌⊎◌, ◌∷◌, ◌++◌, [], ℕ, List, All, OnOk, OnErr, IfOk, IfErr, IfSome, length, nat_lt, Some, None, filter_map, max, option_map, is_ok, if◌then◌else◌};
ghost use Rattle.std.specs.FinMap as map;
ghost use Rattle.dr_entry.specs.declared.entry.Entry.{Entry as EntryOf};
ghost use Rattle.dr_entry.specs.declared.limits.TheConstants.{MAX_MESSAGE_LENGTH};
ghost use Rattle.dr_store.specs.Commands.{command_in, contents, messages};
ghost use Rattle.dr_store.specs.Stock.{IsStoreOf, begun_with, found_at, value_by, refusal_at, value_at, values_at};
ghost use Rattle.dr_store.specs.Tables.{IsInOrder, listed, changes_of, with_change, with_command};
ghost use Rattle.dr_store.specs.declared.fault.AtFault.TheVariants.{Ahead, OutOfMemory};

use crate::changes::{Change, Changes};
use crate::command::{StoreCommand, command_in};
use crate::fault::AtFault;
use dr_entry::{Entry, Message, Seq};
use std::alloc::{AllocError, Global};
use std::collections::BTreeMap;
use std::marker::Model;

/// A store: what the messages that were applied have made of it, at each version that it has not forgotten.
#[derive(Debug, Drop)]
pub struct Store {
    changes: BTreeMap<Vec<u8>, Changes>,
    version: u64,
    oldest: u64,
}

impl Model for Store {
    ghost use Rattle.std.specs.Prelude.{◌≤◌, All};
    ghost use Rattle.dr_store.specs.Stock.{Stock, stock_code, HasNothingLater};
    ghost use Rattle.dr_store.specs.Tables.{changes_of, IsInOrder};

    ghost Value = { Stock };

    ghost coded = { stock_code };

    ghost view = { λ s. record {
      changes = changes_of s.changes.entries;
      version = s.version;
      oldest = s.oldest;
    } };

    ghost invariant = { λ s. IsInOrder s.changes.entries × HasNothingLater (record {
      changes = changes_of s.changes.entries;
      version = s.version;
      oldest = s.oldest;
    }) };
}

impl Store {
    /// A store to which no message was applied.
    pub fn new(alloc: Global) -> Store
        ensures empty { result ≡ record { changes = map.empty; version = 0; oldest = 0 } }
        ensures stands { IsStoreOf result [] }
    {
        Store {
            changes: BTreeMap::new(alloc),
            version: 0,
            oldest: 0,
        }
    }

    /// The store to which all entries of a history were applied.
    ///
    /// # Errors
    ///
    /// Want of memory alone.
    pub fn of(alloc: Global, history: &[Entry]) -> Result<Store, AllocError>
        ensures stands { IfOk result (λ s. IsStoreOf s history.now) }
        ensures whole { IfOk result (λ s. s.oldest ≡ 0) }
    {
        let mut store = Store::new(alloc);
        for entry in history {
            store.apply(alloc, entry)?;
        }
        Ok(store)
    }

    /// How many messages were applied.
    pub fn version(&self) -> u64
        ensures { result ≡ self.now.version }
    {
        self.version
    }

    /// The least version that was not forgotten.
    pub fn oldest(&self) -> u64
        ensures value { result ≡ self.now.oldest }
        ensures bound { result ≤ self.now.version }
    {
        self.oldest
    }

    /// Applies the next entry of a history.
    ///
    /// # Errors
    ///
    /// Want of memory alone. The store is as before then.
    pub fn apply(&mut self, alloc: Global, e: &Entry) -> Result<(), AllocError>
        requires { self.old.version < 2 ^ 64 - 1 }
        ensures stands { OnOk result ((h : List EntryOf) → IsStoreOf self.old h
            → IsStoreOf self.new (h ++ e.now ∷ [])) }
        ensures version { OnOk result (self.new.version
            ≡ self.old.version + length (messages (e.now ∷ []))) }
        ensures oldest { self.new.oldest ≡ self.old.oldest }
        ensures same { OnErr result (self.new ≡ self.old) }
    {
        let Entry::Msg { bytes, .. } = e else {
            return Ok(());
        };
        let version = self.version + 1;
        follow(&mut self.changes, alloc, bytes, version)?;
        self.version = version;
        Ok(())
    }

    /// The value of a key at a version.
    ///
    /// # Errors
    ///
    /// `Ahead` exactly where the store has not come to the version, `Forgotten` exactly where it has
    /// forgotten it.
    pub fn get_at(&self, key: &[u8], version: u64) -> Result<Option<&[u8]>, AtFault>
        ensures value { IfOk result
            (λ v. option_map (λ bytes. bytes.now) v ≡ value_at self.now key.now version) }
        ensures refused { result_err result ≡ refusal_at self.now version }
        ensures short { IfOk result (λ v. IfSome v (λ bytes. length bytes.now ≤ MAX_MESSAGE_LENGTH)) }
        // The answer is that of the history, whatever was forgotten.
        ensures folded { IfOk result (λ v. (h : List EntryOf) → IsStoreOf self.now h
            → option_map (λ bytes. bytes.now) v ≡ map.get (contents h version) key.now) }
    {
        self.check(version)?;
        match self.changes.get(key) {
            Some(changes) => Ok(changes.at(version)),
            None => Ok(None),
        }
    }

    /// Forgets all versions below this one.
    ///
    /// # Errors
    ///
    /// `Ahead` exactly where the store has not come to the version, and then it is as before.
    pub fn forget(&mut self, below: u64) -> Result<(), AtFault>
        ensures ahead { result_err result
            ≡ (if nat_lt self.old.version below then Some (Ahead self.old.version) else None) }
        ensures version { self.new.version ≡ self.old.version }
        ensures oldest { OnOk result (self.new.oldest ≡ max self.old.oldest below) }
        ensures same { OnErr result (self.new ≡ self.old) }
        ensures values { OnOk result ((key : List ℕ) → (v : ℕ) → below ≤ v
            → value_at self.new key v ≡ value_at self.old key v) }
        ensures stands { OnOk result ((h : List EntryOf) → IsStoreOf self.old h
            → IsStoreOf self.new h) }
    {
        if below > self.version {
            return Err(AtFault::Ahead {
                version: self.version,
            });
        }
        if below <= self.oldest {
            return Ok(());
        }
        forget(&mut self.changes, below);
        self.oldest = below;
        Ok(())
    }

    /// Refuses a version to which the store has not come, or which it has forgotten.
    fn check(&self, version: u64) -> Result<(), AtFault>
        ensures { result_err result ≡ refusal_at self.now version }
    {
        if version > self.version {
            return Err(AtFault::Ahead {
                version: self.version,
            });
        }
        if version < self.oldest {
            return Err(AtFault::Forgotten {
                oldest: self.oldest,
            });
        }
        Ok(())
    }
}

/// Puts what a message asks for, if it is a command, behind the changes of its key.
///
/// # Errors
///
/// Want of memory alone. The changes are as before then.
fn follow(
    changes: &mut BTreeMap<Vec<u8>, Changes>,
    alloc: Global,
    message: &Message,
    version: u64,
) -> Result<(), AllocError>
    requires here { IsInOrder changes.old.entries }
    requires later { (key : List ℕ) → All (λ c. c.version ≤ version)
        (unwrap_or (map.get (changes_of changes.old.entries) key) []) }
    ensures here { OnOk result (IsInOrder changes.new.entries) }
    ensures changed { OnOk result (changes_of changes.new.entries
        ≡ with_command (changes_of changes.old.entries) version (command_in message.now)) }
    ensures same { OnErr result (changes.new.entries ≡ changes.old.entries) }
{
    match command_in(message) {
        Some(StoreCommand { key, value }) => change(changes, alloc, key, Change { version, value }),
        None => Ok(()),
    }
}

/// Puts a change behind the others of its key.
///
/// # Errors
///
/// Want of memory alone. The changes are as before then.
fn change(
    changes: &mut BTreeMap<Vec<u8>, Changes>,
    alloc: Global,
    key: &[u8],
    change: Change,
) -> Result<(), AllocError>
    requires here { IsInOrder changes.old.entries }
    requires later { (k : List ℕ) → All (λ c. c.version ≤ change.version)
        (unwrap_or (map.get (changes_of changes.old.entries) k) []) }
    ensures here { OnOk result (IsInOrder changes.new.entries) }
    ensures changed { OnOk result (changes_of changes.new.entries
        ≡ with_change (changes_of changes.old.entries) key.now change) }
    ensures same { OnErr result (changes.new.entries ≡ changes.old.entries) }
{
    if let Some(earlier) = changes.get_mut(key) {
        return earlier.push(change);
    }
    let key = Vec::from_slice(alloc, key)?;
    let first = Changes::of(alloc, change)?;
    changes.insert(key, first)?;
    Ok(())
}

/// Drops what no version from this one on needs.
fn forget(changes: &mut BTreeMap<Vec<u8>, Changes>, below: u64)
    requires here { IsInOrder changes.old.entries }
    ensures here { IsInOrder changes.new.entries }
    ensures same { (key : List ℕ) → (v : ℕ) → below ≤ v
        → value_by v (unwrap_or (map.get (changes_of changes.new.entries) key) [])
        ≡ value_by v (unwrap_or (map.get (changes_of changes.old.entries) key) []) }
    ensures fewer { (n : ℕ) → (key : List ℕ)
        → All (λ c. c.version ≤ n) (unwrap_or (map.get (changes_of changes.old.entries) key) [])
        → All (λ c. c.version ≤ n) (unwrap_or (map.get (changes_of changes.new.entries) key) []) }
{
    changes.retain(|_, changes| changes.forget(below));
}
