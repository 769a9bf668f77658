//! A disk whose calls somebody else does. It has the bytes in memory, and tells the calls of the last append, to be
//! done to a real one.
//!
//! An append of a log is a few writes one behind the other, a sync, the write of a gate, and a sync; a mount is one
//! sync. A write behind one of these begins the next append. So what is told are at most four calls: writes that
//! follow one another are one.
#![tactic(auto)]

ghost use Rattle.std.specs.Prelude.{◌≡◌, IfOk, [], Some, option_copied};
ghost use Rattle.dr_desk.specs.Tasks.{is_over, is_sync, joined, with_task, with_write};
ghost use Rattle.dr_desk.specs.declared.Task.TheVariants.{Write};
ghost use Rattle.dr_disk.specs.Calls.{at_rest};

use dr_disk::{CalmDisk, Disk};
use dr_io::Failed;
use std::alloc::{AllocError, Global};
use std::marker::Model;

/// A call that is to be done to a disk.
#[derive(Clone, Copy, Debug, PartialEq, Eq)]
pub enum Task {
    /// The bytes from the first of these places on, up to the second, are to be as they are here.
    Write { from: u64, to: u64 },
    /// All that was written is to be safe.
    Sync,
}

/// A disk whose calls somebody else does.
#[derive(Debug, Drop)]
pub struct Desk {
    disk: CalmDisk,
    tasks: Vec<Task>,
}

impl Model for Desk {
    ghost use Rattle.std.specs.Prelude.{◌≤◌, length, vec_capacity};
    ghost use Rattle.dr_desk.specs.Tasks.{DeskState};

    ghost Value = { DeskState };

    ghost view = { λ a. record {
      disk = a.disk;
      tasks = a.tasks.items;
    } };

    ghost invariant = { λ a. (length a.tasks.items ≤ 4) × (4 ≤ vec_capacity a.tasks) };
}

impl Desk {
    /// A desk that has these bytes, which a disk has.
    ///
    /// # Errors
    ///
    /// Want of memory alone.
    pub fn of(alloc: Global, bytes: &[u8]) -> Result<Desk, AllocError>
        ensures bytes { IfOk result (λ desk. desk.disk.state ≡ at_rest bytes.now) }
        ensures tasks { IfOk result (λ desk. desk.tasks ≡ []) }
    {
        let mut disk = CalmDisk::new(alloc);
        disk.reserve(2, bytes.len() as u64)?;
        let _ = disk.write_at(0, bytes);
        let _ = disk.sync();
        Ok(Desk {
            disk,
            tasks: Vec::with_capacity(alloc, 4)?,
        })
    }

    /// Its bytes, as they are once all calls are done.
    pub fn bytes(&self) -> &[u8]
        ensures { result.now ≡ self.now.disk.state.content }
    {
        self.disk.bytes()
    }

    /// The calls of the last append, in their order.
    pub fn tasks(&self) -> &[Task]
        ensures { result.now ≡ self.now.tasks }
    {
        self.tasks.as_slice()
    }

    /// Takes a call more. Behind a mount, or a whole append, it is the first of the next append.
    fn add(&mut self, task: Task)
        ensures tasks { self.new.tasks ≡ with_task task self.old.tasks }
        ensures disk { self.new.disk ≡ self.old.disk }
    {
        if is_over(self.tasks.as_slice()) {
            self.tasks.clear();
        }
        self.tasks.push(task).unwrap();
    }

    /// Takes a write of these places more, as one with the write before it where that ends here.
    fn add_write(&mut self, at: u64, end: u64)
        ensures tasks { self.new.tasks ≡ with_write at end self.old.tasks }
        ensures disk { self.new.disk ≡ self.old.disk }
    {
        match joined(self.tasks.last(), at, end) {
            Some(task) => {
                self.tasks.pop();
                self.tasks.push(task).unwrap();
            }
            None => self.add(Task::Write { from: at, to: end }),
        }
    }
}

/// Whether it is a sync.
fn is_sync(task: &Task) -> bool
    ensures { result ≡ is_sync task.now }
{
    match task {
        Task::Sync => true,
        Task::Write { .. } => false,
    }
}

/// Whether these are the calls of a mount, or of a whole append.
fn is_over(tasks: &[Task]) -> bool
    ensures { result ≡ is_over tasks.now }
{
    tasks.len() == 1 && is_sync(&tasks[0]) || tasks.len() >= 4
}

/// The write that a write is together with the task before it, where this ends where that begins.
fn joined(last: Option<&Task>, at: u64, end: u64) -> Option<Task>
    ensures { result ≡ joined (option_copied last.entry) at end }
{
    match last {
        Some(Task::Write { from, to }) => joined_with(*from, *to, at, end),
        Some(Task::Sync) => None,
        None => None,
    }
}

/// So it is behind a write.
fn joined_with(from: u64, to: u64, at: u64, end: u64) -> Option<Task>
    ensures { result ≡ joined (Some (Write from to)) at end }
{
    if to == at {
        Some(Task::Write { from, to: end })
    } else {
        None
    }
}

impl Disk for Desk {
    ghost use Rattle.std.specs.Prelude.{◌+◌, ◌≤◌, ◌^◌, IsOk, Some, false, length};
    ghost use Rattle.dr_desk.specs.Tasks.{with_task, with_write};
    ghost use Rattle.dr_desk.specs.declared.Task.TheVariants as tasks;
    ghost use Rattle.dr_disk.specs.Calls as calls;
    ghost use Rattle.dr_disk.specs.{Disk.Now, Images.ReadsAnImage};

    ghost told = { λ desk. Some (Now desk.disk.state) };

    ghost room_calls = { λ _. 2 ^ 64 };

    ghost room_bytes = { λ desk. desk.disk.room_bytes };

    ghost faults = { λ _. 0 };

    ghost groups = { λ _. false };

    fn wants_groups(&self) -> bool {
        false
    }

    fn reserve(&mut self, calls: u64, bytes: u64) -> Result<(), AllocError> {
        self.disk.reserve(calls, bytes)
    }

    fn len(&mut self) -> Result<u64, Failed> {
        self.disk.len()
    }

    fn read_at(&mut self, at: u64, into: &mut [u8]) -> Result<usize, Failed> {
        self.disk.read_at(at, into)
    }

    /// Writes the bytes in memory, and takes the write down.
    fn write_at(&mut self, at: u64, from: &[u8]) -> Result<(), Failed>
        requires inside { at ≤ length self.old.disk.state.content }
        requires room_for_bytes { length from.now ≤ self.old.disk.room_bytes }
        ensures ok { IsOk result }
        ensures state { self.new.disk.state ≡ calls.step self.old.disk.state (calls.Write at from.now) }
        ensures tasks { self.new.tasks ≡ with_write at (at + length from.now) self.old.tasks }
        ensures bytes_kept { self.old.disk.room_bytes ≤ self.new.disk.room_bytes + length from.now }
    {
        let end = at.min(self.disk.bytes().len() as u64) + from.len() as u64;
        self.disk.write_at(at, from)?;
        self.add_write(at, end);
        Ok(())
    }

    fn cut(&mut self, to: u64) -> Result<(), Failed> {
        self.disk.cut(to)
    }

    /// Syncs the disk in memory, and takes the sync down.
    fn sync(&mut self) -> Result<(), Failed>
        ensures ok { IsOk result }
        ensures state { self.new.disk.state ≡ calls.step self.old.disk.state calls.Sync }
        ensures read { ReadsAnImage (Now self.old.disk.state) }
        ensures tasks { self.new.tasks ≡ with_task tasks.Sync self.old.tasks }
        ensures bytes_kept { self.old.disk.room_bytes ≤ self.new.disk.room_bytes }
    {
        self.disk.sync()?;
        self.add(Task::Sync);
        Ok(())
    }
}
