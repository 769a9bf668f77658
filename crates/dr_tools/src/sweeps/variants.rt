//! The scripts of a sweep's runs.
ghost use Rattle.std.specs.Prelude.{◌≡◌, ◌+◌, ◌<◌, IfOk, get_or, length};
ghost use Rattle.dr_script.specs.Ranges.{HasRanges};
ghost use Rattle.dr_tools.specs.Variants.{AreSound, by_seed, first_variant, variant, variants_in, with_fault};

use crate::sweeps::parts::with_parts;
use crate::sweeps::words::Seeds;
use dr_entry::Seq;
use dr_script::{Fault, Schedule, Script};
use std::alloc::{AllocError, Global};

/// In what the scripts of a sweep's runs differ from the one that is swept.
#[derive(Drop)]
pub(crate) enum Variants {
    /// They have these seeds, in place of its schedule.
    Seeded(Seeds),
    /// They have one of these crashes too.
    Crashes(Seq<Fault>),
}

impl Variants {
    /// How many there are.
    pub(crate) fn count(&self) -> u64
        ensures { result ≡ variants_in self.now }
    {
        match self {
            Variants::Seeded(seeds) => seeds.count,
            Variants::Crashes(faults) => faults.as_slice().len() as u64,
        }
    }

    /// The number by which a row names the run with this number: its seed, or the number itself.
    pub(crate) fn row_number(&self, script: &Script, number: u64) -> u64
        requires sound { AreSound script.now self.now }
        requires below { number < variants_in self.now }
        ensures { result ≡ first_variant self.now + number }
    {
        match self {
            Variants::Seeded(seeds) => seeds.from + number,
            Variants::Crashes(_) => number,
        }
    }

    /// The script of the run with this number, from 0.
    pub(crate) fn script(
        &self,
        alloc: Global,
        script: &Script,
        number: u64,
    ) -> Result<Script, AllocError>
        requires ranges { HasRanges script.now }
        requires sound { AreSound script.now self.now }
        requires below { number < variants_in self.now }
        ensures script { IfOk result (λ s. s ≡ variant self.now script.now number) }
        ensures ranges { IfOk result HasRanges }
    {
        match self {
            Variants::Seeded(seeds) => seeded(alloc, script, seeds.from + number),
            Variants::Crashes(faults) => {
                with_fault(alloc, script, fault_at(faults.as_slice(), number))
            }
        }
    }
}

/// The script by this seed, in place of its schedule.
fn seeded(alloc: Global, script: &Script, seed: u64) -> Result<Script, AllocError>
    ensures { IfOk result (λ s. s ≡ by_seed script.now seed) }
{
    let copy = with_parts(alloc, script, &[])?;
    Ok(Script {
        schedule: Schedule::Seed(seed),
        ..copy
    })
}

/// The fault with this number.
fn fault_at(faults: &[Fault], number: u64) -> Fault
    requires { number < length faults.now }
    ensures { result ≡ get_or faults.now number result }
{
    faults[number as usize]
}

/// The script with this fault too.
fn with_fault(alloc: Global, script: &Script, fault: Fault) -> Result<Script, AllocError>
    ensures { IfOk result (λ s. s ≡ with_fault script.now fault) }
{
    let copy = with_parts(alloc, script, &[])?;
    let mut faults = Vec::new(alloc);
    faults.extend_from_slice(script.faults.as_slice())?;
    faults.push(fault)?;
    Ok(Script {
        faults: Seq::of(faults),
        ..copy
    })
}
