ghost use Rattle.std.specs.List.Sorted.{IsPartitionPoint};
ghost use Rattle.std.specs.Prelude.{◌≡◌, ◌≤◌, ◌∷◌, ◌++◌, [], ℕ, All, OnOk, OnErr, IfOk, IfSome, IsTrue, ◌↔◌, length, nat_le, drop, true, false, option_map};
ghost use Rattle.dr_entry.specs.declared.limits.TheConstants.{MAX_MESSAGE_LENGTH};
ghost use Rattle.dr_store.specs.Stock.{value_by};

use dr_entry::Message;
use std::alloc::{AllocError, Global};
use std::marker::Model;

/// A change of a key: from this version on it has the value, or none.
#[derive(Debug, Drop)]
pub(crate) struct Change {
    pub version: u64,
    pub value: Option<Message>,
}

/// The changes of a key. Their versions do not fall.
#[derive(Debug, Drop)]
pub(crate) struct Changes {
    changes: Vec<Change>,
}

impl Model for Changes {
    ghost use Rattle.std.specs.Prelude.{List};
    ghost use Rattle.std.specs.List.Sorted.{IsNonDecreasingBy};
    ghost use Rattle.dr_store.specs.declared.changes.Change.{Change};

    ghost Value = { List Change };

    ghost view = { λ c. c.changes.items };

    ghost invariant = { λ c. IsNonDecreasingBy (λ (change : Change). change.version) c.changes.items };
}

impl Changes {
    /// This change alone.
    ///
    /// # Errors
    ///
    /// Want of memory alone.
    pub(crate) fn of(alloc: Global, change: Change) -> Result<Changes, AllocError>
        ensures { IfOk result (λ c. c ≡ change ∷ []) }
    {
        // Room for one: most keys change once.
        let mut changes = Vec::with_capacity(alloc, 1)?;
        changes.push(change)?;
        Ok(Changes { changes })
    }

    /// Puts a change behind the others.
    ///
    /// # Errors
    ///
    /// Want of memory alone. The changes are as before then.
    pub(crate) fn push(&mut self, change: Change) -> Result<(), AllocError>
        requires { All (λ c. c.version ≤ change.version) self.old }
        ensures pushed { OnOk result (self.new ≡ self.old ++ change ∷ []) }
        ensures same { OnErr result (self.new ≡ self.old) }
    {
        self.changes.push(change)?;
        Ok(())
    }

    /// The value that the changes give at a version.
    pub(crate) fn at(&self, version: u64) -> Option<&[u8]>
        ensures value { option_map (λ v. v.now) result ≡ value_by version self.now }
        ensures short { IfSome result (λ v. length v.now ≤ MAX_MESSAGE_LENGTH) }
    {
        let count = self.count_to(version);
        if count == 0 {
            return None;
        }
        match &self.changes[count - 1].value {
            Some(value) => Some(value.bytes()),
            None => None,
        }
    }

    /// Drops the changes that no version from this one on needs, and answers whether some are left.
    pub(crate) fn forget(&mut self, below: u64) -> bool
        ensures same { (v : ℕ) → below ≤ v → value_by v self.new ≡ value_by v self.old }
        ensures fewer { (n : ℕ) → All (λ c. c.version ≤ n) self.old → All (λ c. c.version ≤ n) self.new }
        ensures left { result ≡ false → self.new ≡ [] }
    {
        let gone = self.unneeded(below);
        self.changes.drain(..gone);
        !self.changes.is_empty()
    }

    /// How many of the first changes no version from this one on needs.
    fn unneeded(&self, below: u64) -> usize
        ensures bound { result ≤ length self.now }
        ensures same { (v : ℕ) → below ≤ v → value_by v (drop result self.now) ≡ value_by v self.now }
    {
        let count = self.count_to(below);
        if count == 0 {
            return 0;
        }
        if self.changes[count - 1].value.is_none() {
            return count;
        }
        count - 1
    }

    /// How many changes there are up to a version.
    fn count_to(&self, version: u64) -> usize
        ensures bound { result ≤ length self.now }
        ensures parted { IsPartitionPoint (λ c. nat_le c.version version ≡ true)
            (λ c. nat_le c.version version ≡ false) self.now result }
    {
        self.changes
            .as_slice()
            .partition_point(|change| change.version <= version)
    }
}
