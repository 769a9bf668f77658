//! What an event does at the replica of its member, in the table, and among the letters.
ghost use Rattle.std.specs.Prelude.{◌≡◌, ℕ, ◌<◌, ◌≤◌, IfSome, None, false, true, length, option_map};
ghost use Rattle.dr_form.specs.Letters.{IsFitting};
ghost use Rattle.dr_machine.specs.{Events.step_of, declared.step.Step.TheVariants.{Join, Look, Welcome}};
ghost use Rattle.dr_program.specs.{Form.HasForm, Reading.letters_of, Replica.{is_inside, me}};
ghost use Rattle.dr_program.specs.Steps.{index_in, is_free, may_take, stored};
ghost use Rattle.dr_words.specs.{Columns.columns_of, Layout.words_of};
ghost use Rattle.dr_world.specs.Steps.{IsReadyFor, IsSight, finds_letter, joined_by, may_come, posts_after, stepped_with};

use crate::posts::Posts;
use dr_entry::Entry;
use dr_machine::{Act, Event, Step};
use dr_replica::Replica;
use dr_words::BEAT_COLUMN;

/// Whether the event may come, by what stands at the place of its member and the letter that is there for it. None
/// may come of an absent one, and a join needs a letter.
pub(crate) fn may_come(place: &Option<Replica>, letter: Option<&[Entry]>, event: &Event) -> bool
    ensures { result ≡ may_come place.now (option_map (λ list. list.now) letter.entry) (step_of event.now) }
{
    match place {
        Some(replica) => may_take(replica, event) && finds_letter(letter, event),
        None => false,
    }
}

/// Whether a letter is there where the event needs one.
fn finds_letter(letter: Option<&[Entry]>, event: &Event) -> bool
    ensures { result ≡ finds_letter (option_map (λ list. list.now) letter.entry) (step_of event.now) }
{
    match event.step() {
        Step::Join => letter.is_some(),
        Step::Do(_)
        | Step::Look { .. }
        | Step::Push { .. }
        | Step::Append
        | Step::LogVote { .. }
        | Step::Welcome { .. } => true,
    }
}

/// Whether the event may come, by the replica of its member.
fn may_take(replica: &Replica, event: &Event) -> bool
    ensures { result ≡ may_take replica.now (step_of event.now) }
{
    let step = event.step();
    replica.end().is_none() && is_free(replica, step) && replica.allows(step)
}

/// Whether no vote of the replica waits, or the step is one that it may take where one does.
fn is_free(replica: &Replica, step: Step) -> bool
    ensures { result ≡ is_free replica.now step }
{
    match step {
        Step::Do(Act::Propose | Act::Accept | Act::Crash { .. }) => true,
        Step::Do(
            Act::Beat
            | Act::Receive { .. }
            | Act::Send
            | Act::Null
            | Act::Deliver
            | Act::Publish
            | Act::Report
            | Act::Mark
            | Act::Suspect { .. }
            | Act::Commit
            | Act::Finish
            | Act::Halt { .. },
        )
        | Step::Look { .. }
        | Step::Push { .. }
        | Step::Append
        | Step::LogVote { .. }
        | Step::Welcome { .. }
        | Step::Join => !replica.waits(),
    }
}

/// The index of a word of the table, in the bank of the replica's view.
fn index_in(replica: &Replica, copy: u8, row: u8, column: usize) -> usize
    requires copy { copy < replica.now.roster }
    requires row { row < replica.now.roster }
    requires column { column < columns_of replica.now.roster replica.now.window }
    ensures index { result ≡ index_in replica.now copy row column }
    ensures within { result < words_of replica.now.roster replica.now.window replica.now.banks }
{
    replica
        .shape()
        .word_index(replica.view(), copy, row, column)
}

/// The event comes at the replica of its member, in the table, and among the letters.
pub(crate) fn carry_out(replica: &mut Replica, table: &mut [u64], posts: &mut Posts, event: &Event)
    requires { IsReadyFor replica.old table.old posts.old (step_of event.now) }
    ensures replica { replica.new ≡ stepped_with (letters_of posts.old.letters (me replica.old)) table.old
        replica.old (step_of event.now) }
    ensures table { table.new ≡ stored table.old replica.old (step_of event.now) }
    ensures posts { posts.new ≡ posts_after posts.old replica.old (step_of event.now) }
    ensures form { HasForm replica.new }
{
    let me = replica.me();
    store(replica, table, event);
    give(replica, posts, event);
    take(replica, table, posts.letter(me), event);
}

/// Stores in the table what the event shows there, before its replica takes it: an act its beat word,
/// a push its word.
fn store(replica: &Replica, table: &mut [u64], event: &Event)
    requires may { may_take replica.now (step_of event.now) ≡ true }
    requires table { length table.old ≡ words_of replica.now.roster replica.now.window replica.now.banks }
    ensures { table.new ≡ stored table.old replica.now (step_of event.now) }
{
    let me = replica.me();
    match event.step() {
        Step::Do(_) => table[index_in(replica, me, me, BEAT_COLUMN)] = replica.acts_after(),
        Step::Push { to, column } => table[index_in(replica, to, me, column)] = replica.own(column),
        Step::Look { .. }
        | Step::Append
        | Step::LogVote { .. }
        | Step::Welcome { .. }
        | Step::Join => {}
    }
}

/// Writes the letter that the event gives, before its replica takes it.
fn give(replica: &Replica, posts: &mut Posts, event: &Event)
    requires may { may_take replica.now (step_of event.now) ≡ true }
    requires posts { length posts.old.letters ≡ replica.now.roster }
    requires list { (j : ℕ) → step_of event.now ≡ Welcome j → 0 < posts.old.left }
    requires room { replica.now.room ≤ posts.old.room }
    ensures { posts.new ≡ posts_after posts.old replica.now (step_of event.now) }
{
    if let Step::Welcome { late } = event.step() {
        posts.give(replica, late);
    }
}

/// The replica of its member takes the event. A look finds its word in the table, and a join this letter.
fn take(replica: &mut Replica, table: &[u64], letter: Option<&[Entry]>, event: &Event)
    requires may { may_take replica.old (step_of event.now) ≡ true }
    requires table { length table.now ≡ words_of replica.old.roster replica.old.window replica.old.banks }
    requires sight { (i c : ℕ) → step_of event.now ≡ Look i c → IsSight table.now replica.old i c }
    requires fitting { step_of event.now ≡ Join
        → IfSome (option_map (λ list. list.now) letter) (IsFitting replica.old) }
    ensures taken { replica.new ≡ stepped_with (option_map (λ list. list.now) letter.entry) table.now replica.old
        (step_of event.now) }
    ensures form { HasForm replica.new }
{
    let me = replica.me();
    match event.step() {
        Step::Do(act) => replica.take(act),
        Step::Look { row, column } => {
            replica.look(row, column, table[index_in(replica, me, row, column)])
        }
        Step::Push { to, column } => replica.push(to, column),
        Step::Append => replica.append(),
        Step::LogVote { value } => replica.vote(value),
        Step::Welcome { late } => replica.give(late),
        Step::Join => join(replica, letter),
    }
}

/// A late member takes its letter, where one is there.
fn join(replica: &mut Replica, letter: Option<&[Entry]>)
    requires form { HasForm replica.old }
    requires outside { is_inside replica.old ≡ false }
    requires free { replica.old.pending ≡ None }
    requires fitting { IfSome (option_map (λ list. list.now) letter) (IsFitting replica.old) }
    ensures after { replica.new ≡ joined_by (option_map (λ list. list.now) letter.entry) replica.old }
    ensures form { HasForm replica.new }
{
    if let Some(letter) = letter {
        replica.join(letter);
    }
}
