//! A yard of disks in memory that never fail.

ghost use Rattle.std.specs.Prelude.{◌≡◌, ◌<◌, ℕ, IfOk, false, [], Some};
ghost use Rattle.dr_disk.specs.{Calls.at_rest, Disk.Now};
ghost use Rattle.dr_entry.specs.declared.limits.TheConstants.{MAX_MEMBERS};
ghost use Rattle.dr_yard.specs.Places.{place_lent, place_told};

use crate::yard::Yard;
use dr_disk::CalmDisk;
use dr_entry::MAX_MEMBERS;
use dr_io::Failed;
use std::alloc::{AllocError, Global};
use std::marker::Model;

/// A disk in memory for each member. None of its calls fails.
#[derive(Drop)]
pub struct CalmYard {
    places: Vec<Option<CalmDisk>>,
}

impl Model for CalmYard {
    ghost use Rattle.std.specs.Prelude.{◌≡◌, List, Option, vec_len};
    ghost use Rattle.dr_disk.specs.Memory.{CalmState};
    ghost use Rattle.dr_entry.specs.declared.limits.TheConstants.{MAX_MEMBERS};

    ghost Value = { List (Option CalmState) };

    ghost view = { λ a. a.places.items };

    ghost invariant = { λ a. vec_len a.places ≡ MAX_MEMBERS };
}

impl CalmYard {
    /// A yard of empty disks, of which none is lent.
    ///
    /// # Errors
    ///
    /// Want of memory alone.
    pub fn new(alloc: Global) -> Result<CalmYard, AllocError>
        ensures here { IfOk result (λ yard. (m : ℕ) → m < MAX_MEMBERS
            → place_lent yard m ≡ false) }
        ensures empty { IfOk result (λ yard. (m : ℕ)
            → place_told yard m ≡ Some (Now (at_rest []))) }
    {
        let mut places = Vec::with_capacity(alloc, MAX_MEMBERS)?;
        for _ in 0..MAX_MEMBERS {
            places.push(Some(CalmDisk::new(alloc))).unwrap();
        }
        Ok(CalmYard { places })
    }
}

impl Yard for CalmYard {
    type Store = CalmDisk;

    ghost told = { λ yard m. place_told yard m };

    ghost is_lent = { λ yard m. place_lent yard m };

    ghost faults = { λ yard m. 0 };

    fn lend(&mut self, _folder: &str, member: u8) -> Result<CalmDisk, Failed> {
        match self.places[usize::from(member)].take() {
            Some(disk) => Ok(disk),
            // It is not lent.
            None => unreachable!(),
        }
    }

    fn give_back(&mut self, member: u8, disk: CalmDisk) {
        self.places[usize::from(member)] = Some(disk);
    }
}
