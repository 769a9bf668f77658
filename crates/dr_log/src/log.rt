//! A member's log.

ghost use Rattle.std.specs.Prelude.{◌≡◌, ◌≢◌, ◌↔◌, ◌+◌, ◌*◌, ◌<◌, ◌≤◌, ◌++◌, [], ◌∷◌, ℕ, List, All, length, max, true, false, IfOk, IfErr, IfSome, IsErrOf, IsTrue, OnOk, OnErr};
ghost use Rattle.dr_io.specs.Faults.{Rose};
ghost use Rattle.dr_disk.specs.{Calls.Sync, Disk.{added, content_of}, Images.{Goes, IsLeft, Lasts, ReadsAnImage}};
ghost use Rattle.dr_entry.specs.Spelling.{Fits, IsValid, IsValidEntry, spelling};
ghost use Rattle.dr_entry.specs.declared.record.Record.TheVariants as records;
ghost use Rattle.dr_log.specs.{Appending.IsMounted, Voting.{HasVotedAge, WasUpgraded}};
ghost use Rattle.dr_log.specs.{Grouping.{added_all, group}, declared.fault.LogFault.TheVariants.{DiskFault, LogFull}};
ghost use Rattle.dr_log.specs.Standing.{HasAllOf, IsBeforeOrAfter, IsNoneOrAll, KeepsRecords, LosesNone, MayBeUpgraded, MayBeVoted, as_records, entries_length, in_newer_format, least_length, with_age_vote};
ghost use Rattle.dr_log.specs.State.{KeepsLimit, appended, appended_all, as_entry, as_other, as_vote, broken_off, broken_off_all};
ghost use Rattle.dr_log.specs.declared.fault.MountWhy.TheVariants as why;
ghost use Rattle.dr_log_bytes.specs.Content.{IsPlaced, OnLog, block_length, empty_of, with_record};
ghost use Rattle.dr_log_bytes.specs.Grammar.{IsDamaged, StandFor};

use crate::appending::{put_behind, put_group, size_of};
use crate::fault::{LogFault, MountFault, MountWhy};
use crate::making::CLOSED;
use crate::opening::open;
use crate::shelves::Shelves;
use crate::spares::Spares;
use arrayvec::ArrayVec;
use dr_disk::Disk;
use dr_entry::{AgeVote, Entry, MAX_RECORD, RECORD_ROOM, Record, Vote, encode, encode_entry};
use dr_log_bytes::EMPTY;
use std::alloc::{AllocError, Global};
use std::marker::Model;

/// The most calls of the disk, and the most bytes, that one append takes: its record, a closed gate
/// behind it, and the gate before it.
const CALLS_OF_APPEND: u64 = 4;

const BYTES_OF_APPEND: u64 = 74;

/// The entries, votes and age votes of a member, on a disk.
#[derive(Debug, Drop)]
pub struct Log<D: Disk> {
    disk: D,
    shelves: Shelves,
    limit: u64,
    spares: Spares,
    failed: bool,
}

impl<D: Disk> Model for Log<D> {
    ghost use Rattle.dr_log.specs.Kept.{IsKept};
    ghost use Rattle.dr_log.specs.State.{LogState};

    ghost Value = { LogState D };

    ghost view = { λ a. record {
      disk = a.disk;
      content = a.shelves.content;
      limit = a.limit;
      spare_entries = a.spares.entries;
      spare_votes = a.spares.votes;
      spare_others = a.spares.others;
      failed = a.failed;
    } };

    ghost invariant = { λ a. IsKept (D.told a.disk) (D.room_calls a.disk) (D.room_bytes a.disk) a.shelves a.spares
        a.failed };
}

impl<D: Disk> Log<D> {
    /// Reads the log on a disk, or makes an empty one where there are at most nine bytes. The log
    /// may grow to `limit` bytes. Memory and time are linear in its bytes.
    ///
    /// # Errors
    ///
    /// Want of memory; a fault of the disk; or bytes that are damaged at the place that is told.
    /// The disk is given back.
    pub fn mount(alloc: Global, disk: D, limit: u64) -> Result<Log<D>, MountFault<D>>
        requires { 9 ≤ limit }
        // What was on the disk is on the log, and safe.
        ensures records { IfOk result (λ log. IfSome (D.told disk)
            (λ told. StandFor (content_of told) log.content)) }
        // That is what a crash might have left before.
        ensures read { IfOk result (λ _. IfSome (D.told disk) ReadsAnImage) }
        ensures durable { IfOk result (λ log. IsLeft (D.told log.disk)
            (λ image. StandFor image log.content)) }
        ensures least { IfOk result (λ log. least_length log.content ≤ log.content.length) }
        ensures limit { IfOk result (λ log. log.limit ≡ limit) }
        ensures whole { IfOk result (λ log. log.failed ≡ false) }
        // At any moment a crash leaves what it might have left before, as far as records go.
        ensures any_moment { IfOk result (λ log. Goes (D.told disk) (D.told log.disk) KeepsRecords) }
        ensures any_moment_err { IfErr result (λ e. Goes (D.told disk) (D.told e.disk) KeepsRecords) }
        ensures calls { IfOk result (λ log. IsMounted (D.told disk) (D.told log.disk)) }
        ensures damaged { IfErr result (λ e. (at : ℕ) → e.why ≡ why.Damaged at → IfSome (D.told disk)
            (λ told. IsDamaged (content_of told) at)) }
        // That is what a crash might have left before too.
        ensures read_damaged { IfErr result (λ e. (at : ℕ) → e.why ≡ why.Damaged at
            → IfSome (D.told disk) ReadsAnImage) }
        // Damaged bytes are synced, and left as they are.
        ensures left_damaged { IfErr result (λ e. (at : ℕ) → e.why ≡ why.Damaged at
            → D.told e.disk ≡ added Sync (D.told disk)) }
        ensures fault { IfErr result
            (λ e. e.why ≡ why.DiskFault → Rose (D.faults disk) (D.faults e.disk)) }
        // No fault of the disk is hidden.
        ensures faults { IfOk result (λ log. D.faults log.disk ≡ D.faults disk) }
        ensures faults_err { IfErr result (λ e. D.faults disk ≤ D.faults e.disk) }
        ensures calm_err { IfErr result
            (λ e. e.why ≢ why.DiskFault → D.faults e.disk ≡ D.faults disk) }
    {
        let mut disk = disk;
        match open(alloc, &mut disk) {
            Ok(found) => Ok(Log {
                disk,
                shelves: Shelves::of(found),
                limit,
                spares: Spares::none(),
                failed: false,
            }),
            Err(why) => Err(MountFault { disk, why }),
        }
    }

    /// Makes room for appending so many entries and so many votes, and an age vote, an upgrade and a cut besides,
    /// without taking memory.
    ///
    /// # Errors
    ///
    /// Want of memory alone.
    pub fn reserve(&mut self, entries: usize, votes: usize) -> Result<(), AllocError>
        ensures ok { OnOk result (self.new ≡ record self.old {
          disk = self.new.disk;
          spare_entries = max self.old.spare_entries entries;
          spare_votes = max self.old.spare_votes votes;
          spare_others = max self.old.spare_others 3;
        }) }
        ensures err { OnErr result (self.new ≡ record self.old { disk = self.new.disk }) }
        ensures told { D.told self.new.disk ≡ D.told self.old.disk }
        // Where no append has failed, each crash leaves what is on the log.
        ensures safe { self.old.failed ≡ false → IsLeft (D.told self.new.disk)
            (λ image. StandFor image self.new.content) }
        ensures faults { D.faults self.new.disk ≡ D.faults self.old.disk }
    {
        let spares = self.spares.at_least(entries, votes);
        let (calls, bytes) = room_for(spares)?;
        self.shelves.reserve(spares)?;
        self.disk.reserve(calls, bytes)?;
        self.spares = spares;
        Ok(())
    }

    /// Appends a record. It is safe once this has answered Ok. It takes no memory, two writes and
    /// two syncs.
    ///
    /// # Errors
    ///
    /// The log would become longer than its limit, and is as before; or a call of the disk failed,
    /// which ends the log: the disk has the record or not.
    pub fn append(&mut self, r: &Record) -> Result<(), LogFault>
        requires valid { IsValid r.now }
        requires spare_entry { as_entry r.now ≤ self.old.spare_entries }
        requires spare_vote { as_vote r.now ≤ self.old.spare_votes }
        requires spare_other { as_other r.now ≤ self.old.spare_others }
        requires placed { IsPlaced self.old.content r.now }
        requires whole { self.old.failed ≡ false }
        ensures ok { OnOk result (self.new ≡ appended self.old r.now self.new.disk) }
        ensures fault { IsErrOf result DiskFault → self.new ≡ broken_off self.old r.now self.new.disk }
        ensures full { (len : ℕ) → IsErrOf result (LogFull len) → self.new ≡ self.old }
        ensures limit { KeepsLimit self.old.limit self.old.content.length (block_length r.now) result }
        // At any moment a crash leaves the records from before, or these and the new one.
        ensures any_moment { Goes (D.told self.old.disk) (D.told self.new.disk)
            (λ s. IsBeforeOrAfter self.old.content r.now) }
        // What no crash loses at one moment none loses later on, unless the record takes it away.
        ensures lasting { (first : OnLog)
            → (HasAllOf first self.old.content → HasAllOf first (with_record r.now self.old.content))
            → Lasts (D.told self.old.disk) (D.told self.new.disk) (LosesNone first) }
        // Once this has answered Ok, each crash leaves the new one too.
        ensures durable { OnOk result (IsLeft (D.told self.new.disk)
            (λ image. StandFor image self.new.content)) }
        ensures calls { OnOk result (D.told self.new.disk
            ≡ added_all (group self.old.content.length (r.now ∷ [])) (D.told self.old.disk)) }
        // No fault of the disk is hidden.
        ensures calm { OnOk result (D.faults self.new.disk ≡ D.faults self.old.disk) }
        ensures cause { IsErrOf result DiskFault → Rose (D.faults self.old.disk) (D.faults self.new.disk) }
        ensures faults { D.faults self.old.disk ≤ D.faults self.new.disk }
    {
        let mut bytes: ArrayVec<u8, RECORD_ROOM> = ArrayVec::new();
        encode(r, &mut bytes);
        self.append_spelled(r.copy(), &mut bytes)
    }

    /// Appends an entry, as [`Log::append`] does a record.
    ///
    /// # Errors
    ///
    /// Those of [`Log::append`].
    pub fn append_entry(&mut self, entry: &Entry) -> Result<(), LogFault>
        requires valid { IsValidEntry entry.now }
        requires spare { 1 ≤ self.old.spare_entries }
        requires whole { self.old.failed ≡ false }
        ensures ok { OnOk result (self.new ≡ appended self.old (records.Entry entry.now) self.new.disk) }
        ensures fault { IsErrOf result DiskFault
            → self.new ≡ broken_off self.old (records.Entry entry.now) self.new.disk }
        ensures full { (len : ℕ) → IsErrOf result (LogFull len) → self.new ≡ self.old }
        ensures limit { KeepsLimit self.old.limit self.old.content.length
            (block_length (records.Entry entry.now)) result }
        // At any moment a crash leaves the records from before, or these and the new entry.
        ensures any_moment { Goes (D.told self.old.disk) (D.told self.new.disk)
            (λ s. IsBeforeOrAfter self.old.content (records.Entry entry.now)) }
        // What no crash loses at one moment none loses later on.
        ensures lasting { (first : OnLog)
            → Lasts (D.told self.old.disk) (D.told self.new.disk) (LosesNone first) }
        // Once this has answered Ok, each crash leaves the new one too.
        ensures durable { OnOk result (IsLeft (D.told self.new.disk)
            (λ image. StandFor image self.new.content)) }
        ensures calls { OnOk result (D.told self.new.disk
            ≡ added_all (group self.old.content.length (records.Entry entry.now ∷ [])) (D.told self.old.disk)) }
        // No fault of the disk is hidden.
        ensures calm { OnOk result (D.faults self.new.disk ≡ D.faults self.old.disk) }
        ensures cause { IsErrOf result DiskFault → Rose (D.faults self.old.disk) (D.faults self.new.disk) }
        ensures faults { D.faults self.old.disk ≤ D.faults self.new.disk }
    {
        let mut bytes: ArrayVec<u8, RECORD_ROOM> = ArrayVec::new();
        encode_entry(entry, &mut bytes);
        self.append_spelled(Record::Entry(entry.copy()), &mut bytes)
    }

    /// Appends a record whose spelling is given, behind which there is room for its gate. Each call has its own
    /// copy of it, in which the kind of the record may be known.
    #[inline(always)]
    fn append_spelled(
        &mut self,
        r: Record,
        bytes: &mut ArrayVec<u8, RECORD_ROOM>,
    ) -> Result<(), LogFault>
        requires spelled { bytes.old.items ≡ spelling r }
        requires short { length bytes.old.items ≤ MAX_RECORD }
        requires fits { Fits r }
        requires valid { IsValid r }
        requires spare_entry { as_entry r ≤ self.old.spare_entries }
        requires spare_vote { as_vote r ≤ self.old.spare_votes }
        requires spare_other { as_other r ≤ self.old.spare_others }
        requires placed { IsPlaced self.old.content r }
        requires whole { self.old.failed ≡ false }
        ensures ok { OnOk result (self.new ≡ appended self.old r self.new.disk) }
        ensures fault { IsErrOf result DiskFault → self.new ≡ broken_off self.old r self.new.disk }
        ensures full { (len : ℕ) → IsErrOf result (LogFull len) → self.new ≡ self.old }
        ensures limit { KeepsLimit self.old.limit self.old.content.length (block_length r) result }
        ensures any_moment { Goes (D.told self.old.disk) (D.told self.new.disk)
            (λ s. IsBeforeOrAfter self.old.content r) }
        ensures lasting { (first : OnLog)
            → (HasAllOf first self.old.content → HasAllOf first (with_record r self.old.content))
            → Lasts (D.told self.old.disk) (D.told self.new.disk) (LosesNone first) }
        ensures durable { OnOk result (IsLeft (D.told self.new.disk)
            (λ image. StandFor image self.new.content)) }
        ensures calls { OnOk result (D.told self.new.disk
            ≡ added_all (group self.old.content.length (r ∷ [])) (D.told self.old.disk)) }
        ensures calm { OnOk result (D.faults self.new.disk ≡ D.faults self.old.disk) }
        ensures cause { IsErrOf result DiskFault → Rose (D.faults self.old.disk) (D.faults self.new.disk) }
        ensures faults { D.faults self.old.disk ≤ D.faults self.new.disk }
    {
        let size = bytes.len() as u64 + 1;
        let len = self.shelves.len();
        if size > self.limit.saturating_sub(len) {
            return Err(LogFault::LogFull { len });
        }
        bytes.push(CLOSED);
        self.spares.spend(&r);
        if put_behind(&mut self.disk, len, bytes.as_slice()).is_err() {
            self.failed = true;
            return Err(LogFault::DiskFault);
        }
        self.shelves.take(r, size);
        Ok(())
    }

    /// Appends entries, the last of which is given apart, behind one gate: all of them are safe once this has
    /// answered Ok, and none is on the log before. It takes no memory, a write for each, and then two syncs
    /// with a write between them.
    ///
    /// # Errors
    ///
    /// The log would become longer than its limit, and is as before; or a call of the disk failed,
    /// which ends the log: the disk has all of the entries or none.
    pub fn append_entries(&mut self, first: &[Entry], last: &Entry) -> Result<(), LogFault>
        requires valid { All IsValidEntry first.now }
        requires valid_last { IsValidEntry last.now }
        requires spares { length first.now + 1 ≤ self.old.spare_entries }
        requires whole { self.old.failed ≡ false }
        ensures ok { OnOk result (self.new
            ≡ appended_all self.old (first.now ++ last.now ∷ []) self.new.disk) }
        ensures fault { IsErrOf result DiskFault
            → self.new ≡ broken_off_all self.old (length first.now + 1) self.new.disk }
        ensures full { (len : ℕ) → IsErrOf result (LogFull len) → self.new ≡ self.old }
        ensures limit { KeepsLimit self.old.limit self.old.content.length
            (entries_length (first.now ++ last.now ∷ [])) result }
        // At any moment a crash leaves the records from before, or these and all the new ones.
        ensures any_moment { Goes (D.told self.old.disk) (D.told self.new.disk)
            (λ s. IsNoneOrAll self.old.content (first.now ++ last.now ∷ [])) }
        // What no crash loses at one moment none loses later on.
        ensures lasting { (first : OnLog)
            → Lasts (D.told self.old.disk) (D.told self.new.disk) (LosesNone first) }
        // Once this has answered Ok, each crash leaves the new ones too.
        ensures durable { OnOk result (IsLeft (D.told self.new.disk)
            (λ image. StandFor image self.new.content)) }
        ensures calls { OnOk result (D.told self.new.disk
            ≡ added_all (group self.old.content.length (as_records (first.now ++ last.now ∷ [])))
            (D.told self.old.disk)) }
        // No fault of the disk is hidden.
        ensures calm { OnOk result (D.faults self.new.disk ≡ D.faults self.old.disk) }
        ensures cause { IsErrOf result DiskFault → Rose (D.faults self.old.disk) (D.faults self.new.disk) }
        ensures faults { D.faults self.old.disk ≤ D.faults self.new.disk }
    {
        let size = size_of(first, last);
        let len = self.shelves.len();
        if size > self.limit.saturating_sub(len) {
            return Err(LogFault::LogFull { len });
        }
        self.spares.entries -= first.len() + 1;
        if put_group(&mut self.disk, len, first, last).is_err() {
            self.failed = true;
            return Err(LogFault::DiskFault);
        }
        self.shelves.take_all(first, last, size);
        Ok(())
    }

    /// Appends the vote for an age with these members, and before it an upgrade where the log is of the older
    /// format. It takes no memory.
    ///
    /// # Errors
    ///
    /// That of the append that was refused. The upgrade may stand alone.
    pub fn vote_age(&mut self, age: u16, members: u16) -> Result<(), LogFault>
        requires some { 0 < members }
        requires spare { 1 ≤ self.old.spare_others }
        // The upgrade of a log of the older format takes one more.
        requires spare_upgrade { self.old.content.newer ≡ false → 2 ≤ self.old.spare_others }
        requires whole { self.old.failed ≡ false }
        // It is one append, or two.
        ensures appends { HasVotedAge D.told D.faults self.old self.new
            (record { age = age; members = members }) result }
        ensures ok { OnOk result (self.new.content
            ≡ with_age_vote (record { age = age; members = members }) self.old.content) }
        // At any moment a crash leaves what was there, maybe in the newer format, or that and the vote.
        ensures any_moment { Goes (D.told self.old.disk) (D.told self.new.disk)
            (λ s. MayBeVoted self.old.content (record { age = age; members = members })) }
        ensures durable { OnOk result (IsLeft (D.told self.new.disk)
            (λ image. StandFor image self.new.content)) }
        ensures faults { D.faults self.old.disk ≤ D.faults self.new.disk }
    {
        match self.upgrade() {
            Ok(()) => self.append(&Record::AgeVote(AgeVote { age, members })),
            Err(fault) => Err(fault),
        }
    }

    /// Makes the log one of the newer format.
    fn upgrade(&mut self) -> Result<(), LogFault>
        requires spare { 1 ≤ self.old.spare_others }
        requires whole { self.old.failed ≡ false }
        ensures appends { WasUpgraded D.told D.faults self.old self.new result }
        ensures ok { OnOk result (self.new.content ≡ in_newer_format self.old.content) }
        ensures newer { OnOk result (self.new.content.newer ≡ true) }
        ensures whole { OnOk result (self.new.failed ≡ false) }
        ensures spare { self.old.spare_others ≤ self.new.spare_others + 1 }
        ensures none_spent { self.old.content.newer ≡ true → self.new.spare_others ≡ self.old.spare_others }
        ensures any_moment { Goes (D.told self.old.disk) (D.told self.new.disk)
            (λ s. MayBeUpgraded self.old.content) }
        ensures faults { D.faults self.old.disk ≤ D.faults self.new.disk }
    {
        if self.shelves.is_newer() {
            return Ok(());
        }
        self.append(&Record::Upgrade)
    }

    /// The entries, in order.
    pub fn entries(&self) -> &[Entry]
        ensures { result.now ≡ self.now.content.entries }
    {
        self.shelves.entries()
    }

    /// The votes, in order.
    pub fn votes(&self) -> &[Vote]
        ensures { result.now ≡ self.now.content.votes }
    {
        self.shelves.votes()
    }

    /// The age votes, in order.
    pub fn age_votes(&self) -> &[AgeVote]
        ensures { result.now ≡ self.now.content.age_votes }
    {
        self.shelves.age_votes()
    }

    /// Whether the log is of the newer format, by its first bytes or an upgrade.
    pub fn is_newer(&self) -> bool
        ensures { result ≡ self.now.content.newer }
    {
        self.shelves.is_newer()
    }

    /// The number of bytes up to the closed gate, with it.
    pub fn len(&self) -> u64
        ensures length { result ≡ self.now.content.length }
        ensures least { least_length self.now.content ≤ result }
    {
        self.shelves.len()
    }

    /// Whether no record is on it.
    pub fn is_empty(&self) -> bool
        ensures { IsTrue result ↔ (self.now.content ≡ empty_of self.now.content.newer) }
    {
        self.shelves.len() == EMPTY
    }

    /// Whether its disk wants groups: entries that are due should be appended together.
    pub fn wants_groups(&self) -> bool
        ensures { result ≡ D.groups self.now.disk }
    {
        self.disk.wants_groups()
    }

    /// Whether an append failed. Then the log takes no further one.
    pub fn failed(&self) -> bool
        ensures { result ≡ self.now.failed }
    {
        self.failed
    }

    /// Its disk.
    pub fn disk(&self) -> &D
        ensures { result.now ≡ self.now.disk }
    {
        &self.disk
    }

    /// Gives the disk back.
    pub fn unmount(self) -> D
        ensures { result ≡ self.disk }
    {
        self.disk
    }
}

/// For how many calls of the disk, and how many bytes, appends of so many records ask.
fn room_for(spares: Spares) -> Result<(u64, u64), AllocError>
    ensures calls { IfOk result (λ room. room.0 ≡ 4 * (spares.entries + spares.votes + spares.others)) }
    ensures bytes { IfOk result (λ room. room.1 ≡ 74 * (spares.entries + spares.votes + spares.others)) }
{
    let both = (spares.entries as u64)
        .checked_add(spares.votes as u64)
        .ok_or(AllocError)?;
    let appends = both.checked_add(spares.others as u64).ok_or(AllocError)?;
    let bytes = appends.checked_mul(BYTES_OF_APPEND).ok_or(AllocError)?;
    Ok((appends * CALLS_OF_APPEND, bytes))
}
