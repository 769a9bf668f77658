ghost use Rattle.std.specs.Prelude.{◌≡◌, ◌⊎◌, List, IfOk, IfErr, IfSome, Some, filter_map};
ghost use Rattle.dr_entry.specs.declared.entry.Entry.{Entry as EntryOf};
ghost use Rattle.dr_store.specs.{Commands.contents, Stock.{IsStoreOf, begun_with, found_at, refusal_at, values_at}};
ghost use Rattle.dr_store.specs.{Tables.listed, declared.fault.AtFault.TheVariants.OutOfMemory};

use crate::changes::Changes;
use crate::fault::AtFault;
use crate::store::Store;
use dr_entry::Seq;
use std::alloc::{AllocError, Global};
use std::collections::BTreeMap;

impl Store {
    /// The keys that begin with these bytes and have a value at a version, ascending, each with its value.
    ///
    /// # Errors
    ///
    /// Those of [`Store::get_at`], and `OutOfMemory`.
    pub fn scan_at(
        &self,
        alloc: Global,
        prefix: &[u8],
        version: u64,
    ) -> Result<Vec<(Seq<u8>, Seq<u8>)>, AtFault>
        ensures values { IfOk result (λ v. v.items ≡ values_at self.now prefix.now version) }
        ensures exact { IfSome (refusal_at self.now version) (λ fault. result ≡ Err fault) }
        ensures cause { IfErr result
            (λ f. (f ≡ OutOfMemory) ⊎ (refusal_at self.now version ≡ Some f)) }
        // The answer is that of the history, whatever was forgotten.
        ensures folded { IfOk result (λ v. (h : List EntryOf) → IsStoreOf self.now h
            → v.items ≡ begun_with prefix.now (contents h version)) }
    {
        self.check(version)?;
        Ok(scan(&self.changes, alloc, prefix, version)?)
    }
}

/// The keys that begin with these bytes and have a value at a version, each with its value.
fn scan(
    table: &BTreeMap<Vec<u8>, Changes>,
    alloc: Global,
    prefix: &[u8],
    version: u64,
) -> Result<Vec<(Seq<u8>, Seq<u8>)>, AllocError>
    ensures { IfOk result (λ v. v.items
        ≡ filter_map (found_at prefix.now version) (listed table.now.entries)) }
{
    let first = Vec::from_slice(alloc, prefix)?;
    let mut found = Vec::new(alloc);
    for (key, changes) in table.range(first..) {
        if !key.as_slice().starts_with(prefix) {
            return Ok(found);
        }
        if let Some(value) = changes.at(version) {
            found.push(owned(alloc, key.as_slice(), value)?)?;
        }
    }
    Ok(found)
}

/// A copy of a key and its value.
fn owned(alloc: Global, key: &[u8], value: &[u8]) -> Result<(Seq<u8>, Seq<u8>), AllocError>
    ensures { IfOk result (λ r. r ≡ (key.now, value.now)) }
{
    let key = Seq::of(Vec::from_slice(alloc, key)?);
    let value = Seq::of(Vec::from_slice(alloc, value)?);
    Ok((key, value))
}
