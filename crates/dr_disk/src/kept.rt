//! The record of a disk's calls, and what a read gives.

ghost use Rattle.std.specs.Prelude.{◌≡◌, ◌+◌, ◌≤◌, [], ◌∷◌, ◌++◌, IfOk, OnOk, length, take, drop};
ghost use Rattle.dr_disk.specs.{Calls.{content_after, Write, FailedWrite, Cut, FailedCut, Sync}, Crashed.IsFilled};
ghost use Rattle.dr_disk.specs.Ranges.{pend_all, settled};

use crate::bytes::{copy_front, put};
use crate::crashed::{count_of, replay};
use std::alloc::{AllocError, Global};
use std::marker::Model;

/// A call of the record. The bytes of a write stand in the record's text.
#[derive(Clone, Copy, Debug)]
pub(crate) enum Step {
    Write { at: u64, count: usize },
    FailedWrite { at: u64, count: usize },
    Cut { to: u64 },
    FailedCut { to: u64 },
    Sync,
}

/// The record of a disk's calls: the steps, and the bytes of all writes behind one another; and
/// the bytes that a read gives.
#[derive(Debug, Drop)]
pub(crate) struct Kept {
    steps: Vec<Step>,
    text: Vec<u8>,
    bytes: Vec<u8>,
}

impl Model for Kept {
    ghost use Rattle.std.specs.Prelude.{◌-◌, min, vec_len, vec_capacity};
    ghost use Rattle.dr_disk.specs.Memory.{KeptState};
    ghost use Rattle.dr_disk.specs.Steps.{calls_of, IsWhole};

    ghost Value = { KeptState };

    ghost view = { λ a. record {
      calls = calls_of a.steps.items a.text.items;
      room_calls = vec_capacity a.steps - vec_len a.steps;
      room_bytes = min (vec_capacity a.text - vec_len a.text) (vec_capacity a.bytes - vec_len a.bytes);
    } };

    ghost invariant = { λ a. IsWhole a.steps.items a.text.items a.bytes.items };
}

impl Kept {
    /// Of an empty disk without a call, and with room for none.
    pub(crate) fn new(alloc: Global) -> Kept
        ensures { result.calls ≡ [] }
    {
        Kept {
            steps: Vec::new(alloc),
            text: Vec::new(alloc),
            bytes: Vec::new(alloc),
        }
    }

    /// Makes room for so many more calls and bytes.
    pub(crate) fn reserve(&mut self, calls: u64, bytes: u64) -> Result<(), AllocError>
        ensures same { self.new.calls ≡ self.old.calls }
        ensures calls { OnOk result (calls ≤ self.new.room_calls) }
        ensures bytes { OnOk result (bytes ≤ self.new.room_bytes) }
        ensures calls_kept { self.old.room_calls ≤ self.new.room_calls }
        ensures bytes_kept { self.old.room_bytes ≤ self.new.room_bytes }
    {
        self.steps.reserve(calls as usize)?;
        self.text.reserve(bytes as usize)?;
        self.bytes.reserve(bytes as usize)
    }

    /// What a read gives.
    pub(crate) fn bytes(&self) -> &[u8]
        ensures { result.now ≡ content_after self.now.calls }
    {
        self.bytes.as_slice()
    }

    /// What a crash may leave of the disk at most, where all that was not synced holds this byte.
    pub(crate) fn crashed(&self, alloc: Global, fill: u8) -> Result<Vec<u8>, AllocError>
        ensures { IfOk result (λ image. IsFilled fill (pend_all (settled []) self.now.calls) image.items) }
    {
        let mut now = Vec::new(alloc);
        let mut image = Vec::new(alloc);
        let mut from = 0;
        for step in &self.steps {
            let count = count_of(*step);
            replay(
                *step,
                &self.text[from..from + count],
                fill,
                &mut now,
                &mut image,
            )?;
            from += count;
        }
        Ok(image)
    }

    /// Copies what there is from `at` on to the front of `into`, and answers how much.
    pub(crate) fn read_at(&self, at: u64, into: &mut [u8]) -> usize
        ensures bound { result ≤ length into.new }
        ensures value { take result into.new
            ≡ take (length into.new) (drop at (content_after self.now.calls)) }
    {
        let at = (at as usize).min(self.bytes.len());
        copy_front(&self.bytes[at..], into)
    }

    /// Records and does a write.
    pub(crate) fn write(&mut self, at: u64, from: &[u8])
        requires inside { at ≤ length (content_after (self.old.calls)) }
        requires room_for_call { 1 ≤ self.old.room_calls }
        requires room_for_bytes { length from.now ≤ self.old.room_bytes }
        ensures told { self.new.calls ≡ self.old.calls ++ Write at from.now ∷ [] }
        ensures calls_kept { self.old.room_calls ≤ self.new.room_calls + 1 }
        ensures bytes_kept { self.old.room_bytes ≤ self.new.room_bytes + length from.now }
    {
        self.steps
            .push(Step::Write {
                at,
                count: from.len(),
            })
            .unwrap();
        self.text.extend_from_slice(from).unwrap();
        put(&mut self.bytes, at as usize, from);
    }

    /// Records a write that failed.
    pub(crate) fn fail_write(&mut self, at: u64, count: usize)
        requires room_for_call { 1 ≤ self.old.room_calls }
        ensures told { self.new.calls ≡ self.old.calls ++ FailedWrite at count ∷ [] }
        ensures calls_kept { self.old.room_calls ≤ self.new.room_calls + 1 }
        ensures bytes_kept { self.old.room_bytes ≤ self.new.room_bytes }
    {
        self.steps.push(Step::FailedWrite { at, count }).unwrap();
    }

    /// Records and does a cut.
    pub(crate) fn cut(&mut self, to: u64)
        requires room_for_call { 1 ≤ self.old.room_calls }
        ensures told { self.new.calls ≡ self.old.calls ++ Cut to ∷ [] }
        ensures calls_kept { self.old.room_calls ≤ self.new.room_calls + 1 }
        ensures bytes_kept { self.old.room_bytes ≤ self.new.room_bytes }
    {
        self.steps.push(Step::Cut { to }).unwrap();
        self.bytes.truncate(to as usize);
    }

    /// Records a cut that failed.
    pub(crate) fn fail_cut(&mut self, to: u64)
        requires room_for_call { 1 ≤ self.old.room_calls }
        ensures told { self.new.calls ≡ self.old.calls ++ FailedCut to ∷ [] }
        ensures calls_kept { self.old.room_calls ≤ self.new.room_calls + 1 }
        ensures bytes_kept { self.old.room_bytes ≤ self.new.room_bytes }
    {
        self.steps.push(Step::FailedCut { to }).unwrap();
    }

    /// Records a sync.
    pub(crate) fn sync(&mut self)
        requires room_for_call { 1 ≤ self.old.room_calls }
        ensures told { self.new.calls ≡ self.old.calls ++ Sync ∷ [] }
        ensures calls_kept { self.old.room_calls ≤ self.new.room_calls + 1 }
        ensures bytes_kept { self.old.room_bytes ≤ self.new.room_bytes }
    {
        self.steps.push(Step::Sync).unwrap();
    }
}
