//! The memory for letters.
ghost use Rattle.std.specs.Prelude.{◌≡◌, ◌+◌, ◌≤◌, ◌<◌, [], IfOk, vec_capacity};

use dr_entry::Entry;
use std::alloc::{AllocError, Global};
use std::marker::Model;

/// Lists for letters, in memory that was taken together.
#[derive(Drop)]
pub struct Letters {
    lists: Vec<Vec<Entry>>,
    room: usize,
}

impl Model for Letters {
    ghost use Rattle.dr_join.specs.Lists.{Spare};

    ghost Value = { Spare };

    ghost use Rattle.dr_join.specs.Inside.{AreEmpty, spare_of};

    ghost view = { spare_of };

    ghost invariant = { AreEmpty };
}

impl Letters {
    /// So many lists, each with room for so many entries. No later call takes memory.
    ///
    /// # Errors
    ///
    /// Want of memory alone.
    pub fn new(alloc: Global, count: u8, room: usize) -> Result<Letters, AllocError>
        ensures { IfOk result (λ letters. letters ≡ record { count = count; room = room }) }
    {
        let mut lists = Vec::with_capacity(alloc, usize::from(count))?;
        for _ in 0..count {
            lists.push(Vec::with_capacity(alloc, room)?).unwrap();
        }
        Ok(Letters { lists, room })
    }

    /// One of the lists that are left. It is empty.
    pub fn take(&mut self) -> Vec<Entry>
        requires { 0 < self.old.count }
        ensures empty { result.items ≡ [] }
        ensures room { self.old.room ≤ vec_capacity result }
        ensures left { self.new.count + 1 ≡ self.old.count }
        ensures same { self.new.room ≡ self.old.room }
    {
        self.lists.pop().unwrap()
    }
}
