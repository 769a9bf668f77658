//! A yard of disks in memory, some of whose calls fail.

ghost use Rattle.std.specs.Prelude.{◌≡◌, ◌≢◌, ◌<◌, ◌≤◌, ◌↔◌, ℕ, IfOk, IsErr, OnOk, OnErr, Some, false, length, map, slice_set, take};
ghost use Rattle.dr_entry.specs.declared.limits.TheConstants.{MAX_MEMBERS};
ghost use Rattle.dr_io.specs.Plan.{IsPlanned, plan_after, plan_of};
ghost use Rattle.dr_yard.specs.{Memory.{AreHere, IsEmptyDisk, place_of}, declared.berth.Berth.TheVariants.Here};

use crate::berth::Berth;
use crate::yard::Yard;
use dr_disk::MemoryDisk;
use dr_entry::MAX_MEMBERS;
use dr_io::{Failed, Plan};
use std::alloc::{AllocError, Global};
use std::marker::Model;

/// A disk in memory for each member, kept across ages. The calls of `lend` that are planned to fail do so,
/// and no others. Neither `lend` nor `give_back` takes memory.
#[derive(Debug, Drop)]
pub struct MemoryYard {
    places: Vec<Berth>,
    plan: Plan,
    // Room for the disks as they leave the yard.
    room: Vec<MemoryDisk>,
}

impl Model for MemoryYard {
    ghost use Rattle.std.specs.Prelude.{◌≡◌, ◌≤◌, vec_capacity, vec_len};
    ghost use Rattle.dr_entry.specs.declared.limits.TheConstants.{MAX_MEMBERS};
    ghost use Rattle.dr_yard.specs.Memory.{MemoryYardState};

    ghost Value = { MemoryYardState };

    ghost view = { λ a. record { places = a.places.items; plan = a.plan } };

    ghost invariant = { λ a. (vec_len a.places ≡ MAX_MEMBERS) × (vec_len a.room ≡ 0)
        × (MAX_MEMBERS ≤ vec_capacity a.room) };
}

impl MemoryYard {
    /// A yard that holds these disks, by member, and empty ones for the members behind them. The calls of
    /// `lend` whose numbers, from 1, are in `fails` fail.
    ///
    /// # Errors
    ///
    /// Want of memory alone.
    pub fn new(
        alloc: Global,
        disks: Vec<MemoryDisk>,
        fails: &[u64],
    ) -> Result<MemoryYard, AllocError>
        requires { length disks.items ≤ MAX_MEMBERS }
        ensures disks { IfOk result (λ yard.
            take (length disks.items) yard.places ≡ map Here disks.items) }
        ensures empty { IfOk result (λ yard. (m : ℕ) → length disks.items ≤ m → m < MAX_MEMBERS
            → IsEmptyDisk (place_of yard.places m)) }
        ensures here { IfOk result (λ yard. AreHere yard.places) }
        ensures plan { IfOk result (λ yard. yard.plan ≡ plan_of fails.now) }
    {
        let held = disks.len();
        let mut places = Vec::with_capacity(alloc, MAX_MEMBERS)?;
        for disk in disks {
            places.push(Berth::Here(disk)).unwrap();
        }
        for _ in held..MAX_MEMBERS {
            let disk = MemoryDisk::new(alloc, &[], None)?;
            places.push(Berth::Here(disk)).unwrap();
        }
        Ok(MemoryYard {
            places,
            plan: Plan::new(alloc, fails)?,
            room: Vec::with_capacity(alloc, MAX_MEMBERS)?,
        })
    }

    /// The disks of all members, ascending. Takes no memory.
    pub fn into_disks(self) -> Vec<MemoryDisk>
        requires { AreHere self.places }
        ensures { map Here result.items ≡ self.places }
    {
        let mut disks = self.room;
        for place in self.places {
            match place {
                Berth::Here(disk) => disks.push(disk).unwrap(),
                // None is lent.
                Berth::Lent { .. } => unreachable!(),
            }
        }
        disks
    }
}

impl Yard for MemoryYard {
    ghost use Rattle.std.specs.Prelude.{true};
    ghost use Rattle.dr_disk.specs.Disk.{Calls};
    ghost use Rattle.dr_io.specs.Faults.{HasCause};
    ghost use Rattle.dr_yard.specs.Memory.{asked, faults_in, is_lent, told_in};

    type Store = MemoryDisk;

    ghost told = { λ yard m. told_in (place_of yard.places m) };

    ghost is_lent = { λ yard m. is_lent (place_of yard.places m) };

    ghost faults = { λ yard m. faults_in (place_of yard.places m) };

    fn lend(&mut self, _folder: &str, member: u8) -> Result<MemoryDisk, Failed>
        requires below { member < MAX_MEMBERS }
        requires here { is_lent (place_of self.old.places member) ≡ false }
        ensures told { IfOk result
            (λ disk. Some (Calls disk.calls) ≡ told_in (place_of self.old.places member)) }
        ensures count { IfOk result
            (λ disk. disk.plan.faults ≡ faults_in (place_of self.new.places member)) }
        ensures lent { OnOk result (is_lent (place_of self.new.places member) ≡ true) }
        ensures kept { OnErr result ((is_lent (place_of self.new.places member) ≡ false)
            × (told_in (place_of self.new.places member) ≡ told_in (place_of self.old.places member))) }
        ensures cause { HasCause (faults_in (place_of self.old.places member))
            (faults_in (place_of self.new.places member)) result }
        ensures others { (m : ℕ) → m ≢ member
            → (told_in (place_of self.new.places m) ≡ told_in (place_of self.old.places m))
            × (is_lent (place_of self.new.places m) ≡ is_lent (place_of self.old.places m))
            × (faults_in (place_of self.new.places m) ≡ faults_in (place_of self.old.places m)) }

        ensures planned { IsErr result ↔ IsPlanned self.old.plan }
        ensures plan { self.new.plan ≡ plan_after result self.old.plan }
        ensures disk { IfOk result (λ disk. place_of self.old.places member ≡ Here disk) }
        ensures places { self.new.places
            ≡ slice_set self.old.places member (asked result (place_of self.old.places member)) }
    {
        let place = &mut self.places[usize::from(member)];
        if let Err(failed) = self.plan.begin_call() {
            place.count_fault();
            return Err(failed);
        }
        Ok(place.take())
    }

    fn give_back(&mut self, member: u8, disk: MemoryDisk)
        requires below { member < MAX_MEMBERS }
        requires away { is_lent (place_of self.old.places member) ≡ true }
        requires count { faults_in (place_of self.old.places member) ≤ disk.plan.faults }
        ensures told { told_in (place_of self.new.places member) ≡ Some (Calls disk.calls) }
        ensures counted { faults_in (place_of self.new.places member) ≡ disk.plan.faults }
        ensures here { is_lent (place_of self.new.places member) ≡ false }
        ensures others { (m : ℕ) → m ≢ member
            → (told_in (place_of self.new.places m) ≡ told_in (place_of self.old.places m))
            × (is_lent (place_of self.new.places m) ≡ is_lent (place_of self.old.places m))
            × (faults_in (place_of self.new.places m) ≡ faults_in (place_of self.old.places m)) }

        ensures places { self.new.places ≡ slice_set self.old.places member (Here disk) }
        ensures plan { self.new.plan ≡ self.old.plan }
    {
        self.places[usize::from(member)] = Berth::Here(disk);
    }
}
