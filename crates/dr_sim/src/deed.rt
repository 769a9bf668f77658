ghost use Rattle.std.specs.Prelude.{◌≡◌, ℕ, ◌-◌, ◌<◌, ◌≤◌, ◌↔◌, ◌⊎◌, All, IsTrue, None, true, false, is_some, slice_set, Some, List, Option, length};
ghost use Rattle.dr_machine.specs.Group.{Group};
ghost use Rattle.dr_log.specs.State.{LogState};
ghost use Rattle.dr_program.specs.{Form.IsRunningMember, Running.{after_step, next_deed, next_step, settled, took_letter}};
ghost use Rattle.dr_program.specs.{Program.{Program, has_ended}, declared.deed.Deed.TheVariants.{Give, Take}};
ghost use Rattle.dr_member.specs.Deeds.{is_append, table_size};
ghost use Rattle.dr_turn.specs.Work.{deeds_left};
ghost use Rattle.dr_entry.specs.declared.entry.Entry.{Entry};
ghost use Rattle.dr_history.specs.History.{up_to_view};
ghost use Rattle.dr_sim.specs.{Deeds.{IsTaken, SeesWell, own_letter}, Lists.{FindsLists, HasSpare}};
ghost use Rattle.dr_sim.specs.{Places.{HasServedAt, IsReadyAt}, Sound.{IsAmong, IsSomewhere, TookTurn, with_member}};
ghost use Rattle.dr_sim.specs.{Sweeps.{HasGoneOn, PersistsTo}, Watched.WasTold};
ghost use Rattle.dr_served.specs.Served.{AppendsWell, entries_due};
ghost use Rattle.dr_play.specs.Persisted.{HasPersisted, words_persisted};
ghost use Rattle.dr_entry.specs.Spelling.{IsValidEntry};
ghost use Rattle.dr_machine.specs.declared.step.Step.TheVariants.{Append};

use crate::watcher::Watcher;
use dr_disk::Disk;
use dr_log::Log;
use dr_member::{Deed, LogWhy, Member};
use dr_play::{Together, append_due, append_together};
use dr_served::why_of;
use dr_world::Posts;

/// The member, which has not ended, takes its next deed, over the words of the table and the letters. The
/// watcher is told of it first. Only an append asks what stands at the place of the member's log. Answers
/// whether the member has ended, which a look or a push leaves as it is.
#[inline(always)]
pub fn take<D: Disk, W: Watcher>(
    member: &mut Member,
    table: &mut [u64],
    posts: &mut Posts,
    place: &mut Option<Log<D>>,
    watcher: &mut W,
) -> bool
    requires going { member.old.replica.end ≡ None }
    requires size { table_size member.old ≤ length table.old }
    requires form { IsRunningMember member.old }
    requires sight { SeesWell table.old member.old }
    requires appends { AppendsWell member.old }
    requires ready { IsReadyAt place.old member.old }
    requires lists { FindsLists posts.old member.old }
    ensures taken { IsTaken table.old posts.old.letters member.old table.new posts.new.letters member.new }
    ensures lists { HasSpare posts.old member.old → HasSpare posts.new member.new }
    ensures same { posts.new.room ≡ posts.old.room }
    ensures ended { result ≡ is_some member.new.replica.end }
    ensures falls { deeds_left member.new < deeds_left member.old }
    ensures ready { IsReadyAt place.new member.new }
    ensures served { (base : LogState D) → HasServedAt D.told D.faults base place.old member.old
        → HasServedAt D.told D.faults base place.new member.new }
    ensures told { W.sees watcher.old member.old table.old watcher.new }
{
    watcher.see(member, table);
    match member.due_deed() {
        Deed::Look(index) => {
            member.looked(table[index]);
            false
        }
        Deed::Push(index, word) => {
            table[index] = word;
            member.pushed();
            false
        }
        Deed::Act(index, word) => {
            table[index] = word;
            member.acted();
            member.end().is_some()
        }
        Deed::Append(_) => {
            append(member, place);
            member.end().is_some()
        }
        Deed::Give { late } => {
            give(member, late, posts);
            member.end().is_some()
        }
        Deed::Take => {
            take_letter(member, posts);
            member.end().is_some()
        }
        Deed::Rest(_) => true,
    }
}

/// The member, whose next deed is an append, does it, to the log at this place. Out of line, it leaves the other
/// deeds a small loop.
#[inline(never)]
fn append<D: Disk>(member: &mut Member, place: &mut Option<Log<D>>)
    requires due { is_append (next_deed member.old) ≡ true }
    requires going { member.old.replica.end ≡ None }
    requires form { IsRunningMember member.old }
    requires appends { AppendsWell member.old }
    requires ready { IsReadyAt place.old member.old }
    ensures taken { (table : List ℕ) → (posts : List (Option (List Entry)))
        → IsTaken table posts member.old table posts member.new }
    ensures falls { deeds_left member.new < deeds_left member.old }
    ensures ready { IsReadyAt place.new member.new }
    ensures served { (base : LogState D) → HasServedAt D.told D.faults base place.old member.old
        → HasServedAt D.told D.faults base place.new member.new }
{
    let Some(log) = place else { unreachable!() };
    match append_due(log, member) {
        Ok(()) => member.appended(),
        Err(fault) => member.append_failed(&why_of(fault)),
    }
}

/// The member, whose next deed is an append, does it. Where all entries that are due go to its log together, it does
/// with it those behind it, and the acts between them.
#[inline(never)]
fn append_alone<D: Disk>(member: &mut Member, table: &mut [u64], place: &mut Option<Log<D>>)
    requires due { is_append (next_deed member.old) ≡ true }
    requires going { member.old.replica.end ≡ None }
    requires form { IsRunningMember member.old }
    requires appends { AppendsWell member.old }
    requires valid { All IsValidEntry member.old.replica.history }
    requires size { table_size member.old ≤ length table.old }
    requires ready { IsReadyAt place.old member.old }
    ensures goes { (posts : List (Option (List Entry)))
        → IsTaken table.old posts member.old table.new posts member.new
        ⊎ PersistsTo table.old member.old table.new member.new }
    ensures falls { deeds_left member.new < deeds_left member.old }
    ensures ready { IsReadyAt place.new member.new }
    ensures served { (base : LogState D) → HasServedAt D.told D.faults base place.old member.old
        → HasServedAt D.told D.faults base place.new member.new }
{
    let Some(log) = place else { unreachable!() };
    match append_together(log, member) {
        Together::Appended => persist(member, table),
        Together::Failed => member.append_failed(&LogWhy::DiskFault),
        Together::Apart => append(member, place),
    }
}

/// The member takes note of all entries that are due, which are on its log, and publishes each.
fn persist(member: &mut Member, table: &mut [u64])
    requires going { member.old.replica.end ≡ None }
    requires form { IsRunningMember member.old }
    requires due { next_step member.old ≡ Append }
    requires size { table_size member.old ≤ length table.old }
    ensures persisted { HasPersisted (length (entries_due member.old.replica)) member.old member.new }
    ensures words { table.new ≡ words_persisted (length (entries_due member.old.replica)) table.old member.old }
    ensures falls { deeds_left member.new < deeds_left member.old }
{
    for _ in 0..member.entries_due().len() {
        member.appended();
        let Deed::Act(index, word) = member.due_deed() else {
            unreachable!()
        };
        table[index] = word;
        member.acted();
    }
}

/// The member, whose next deed gives a late member its letter, does it: the letter is written into one of the
/// lists that are left.
#[inline(never)]
fn give(member: &mut Member, late: u8, posts: &mut Posts)
    requires due { next_deed member.old ≡ Give late }
    requires lists { FindsLists posts.old member.old }
    ensures after { (seen : ℕ) → member.new ≡ after_step seen member.old }
    ensures posts { posts.new ≡ record posts.old {
      letters = slice_set posts.old.letters late (Some (up_to_view member.old.replica.history));
      left = posts.old.left - 1;
    } }
    ensures falls { deeds_left member.new < deeds_left member.old }
{
    let mut letter = posts.take_list();
    member.letter(&mut letter);
    posts.put(late, letter);
    member.given();
}

/// The member, whose next deed takes its letter, does it, where one is there for it.
#[inline(never)]
fn take_letter(member: &mut Member, posts: &Posts)
    requires due { next_deed member.old ≡ Take }
    requires lists { FindsLists posts.now member.old }
    ensures after { member.new ≡ settled (took_letter (own_letter posts.now.letters member.old) member.old) }
    ensures falls { deeds_left member.new < deeds_left member.old }
{
    let letter = posts.letter(member.me());
    member.taken(letter);
}

/// The member, which has not ended, takes its next deed, told to the watcher first. Where the watcher takes
/// note of none, it takes with a look or a push those of the same kind behind it in the row, and with an append those
/// that go to its log together.
#[inline(always)]
fn take_on<D: Disk, W: Watcher>(
    member: &mut Member,
    table: &mut Vec<u64>,
    posts: &mut Posts,
    place: &mut Option<Log<D>>,
    watcher: &mut W,
)
    requires somewhere { IsSomewhere member.old table.old.items posts.old.letters }
    requires lists { HasSpare posts.old member.old }
    requires going { is_some member.old.replica.end ≡ false }
    requires ready { IsReadyAt place.old member.old }
    ensures goes { HasGoneOn W.sees watcher.old watcher.new table.old.items posts.old.letters member.old
        table.new.items posts.new.letters member.new }
    ensures lists { HasSpare posts.new member.new }
    ensures same { posts.new.room ≡ posts.old.room }
    ensures falls { deeds_left member.new < deeds_left member.old }
    ensures ready { IsReadyAt place.new member.new }
    ensures served { (base : LogState D) → HasServedAt D.told D.faults base place.old member.old
        → HasServedAt D.told D.faults base place.new member.new }
{
    let noted = watcher.takes_note();
    match member.due_deed() {
        Deed::Look(_) if !noted => member.look_alone(table.as_slice()),
        Deed::Push(_, _) if !noted => member.push_alone(table.as_mut_slice()),
        Deed::Append(_) if !noted => append_alone(member, table.as_mut_slice(), place),
        _ => {
            take(member, table.as_mut_slice(), posts, place, watcher);
        }
    }
}

/// The member, which has not ended, takes a whole turn: its deeds up to the first after which it has
/// ended or stands before a turn.
pub fn take_turn<D: Disk, W: Watcher>(
    member: &mut Member,
    table: &mut Vec<u64>,
    posts: &mut Posts,
    place: &mut Option<Log<D>>,
    watcher: &mut W,
)
    requires somewhere { IsSomewhere member.old table.old.items posts.old.letters }
    requires lists { HasSpare posts.old member.old }
    requires going { is_some member.old.replica.end ≡ false }
    requires ready { IsReadyAt place.old member.old }
    ensures lists { HasSpare posts.new member.new }
    ensures same { posts.new.room ≡ posts.old.room }
    ensures turn { (g : Group) → (p : Program) → (m : ℕ)
        → IsAmong g p m member.old table.old.items posts.old.letters
        → (took : TookTurn g p m (with_member p m member.new table.new.items posts.new.letters))
        × WasTold W.sees p took.moves watcher.old watcher.new }
    ensures ready { IsReadyAt place.new member.new }
    ensures served { (base : LogState D) → HasServedAt D.told D.faults base place.old member.old
        → HasServedAt D.told D.faults base place.new member.new }
{
    loop {
        take_on(member, table, posts, place, watcher);
        if member.is_between_turns() {
            return;
        }
    }
}

/// Whether whoever stands at a place has ended; an empty one is that of a member that is absent.
pub fn has_ended(place: &Option<Member>) -> bool
    ensures { result ≡ has_ended place.now }
{
    match place {
        Some(member) => member.end().is_some(),
        None => true,
    }
}

/// Whether all these members have ended.
pub fn all_ended(members: &[Option<Member>]) -> bool
    ensures { IsTrue result ↔ All (λ place. IsTrue (has_ended place)) members.now }
{
    members.iter().all(|place| has_ended(place))
}
