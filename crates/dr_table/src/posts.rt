//! The steps by which a letter is given and taken.
//!
//! A letter is a list, which no step on a word could carry; so it goes through a slot, one for each late
//! member, and behind the banks is a word for each of the roster, so that none is found by a rank. The
//! welcomer alone stores its first two numbers, the late member the last two: whoever has stored an odd one
//! has the slot to itself, and nobody waits for it. The list lies there from the deal on, with room for the
//! longest history, so to give one takes no memory. To take the slot, and to see that a letter is there, are
//! no deeds; the deed is the store that puts the slot back.
//!
//! A welcomer that ends before it gives leaves the slot as it was dealt: no deed ends half way. The late
//! member finds nothing for the rest of its turns, and joins no other view: the others have it in theirs, and
//! suspect it or wait. A second welcomer would give the same letter, but two might give one at once.
ghost use Rattle.std.specs.Prelude.{◌≡◌, ◌+◌, ◌<◌, ℕ, ◌∷◌, ◌==◌, true, IfSome, None, Some, [], option_map};
ghost use Rattle.dr_form.specs.Letters.{IsFitting};
ghost use Rattle.dr_history.specs.History.{up_to_view};
ghost use Rattle.dr_member.specs.Deeds.{is_take, table_size};
ghost use Rattle.dr_turn.specs.Work.{deeds_left};
ghost use Rattle.dr_program.specs.{Replica.me, Running.{Running, after_step, next_deed, settled, took_letter}};
ghost use Rattle.dr_table.specs.{Cards.board_size, Slots.{IsBlankList, IsDueFor}};
ghost use Rattle.dr_table.specs.Steps.{HasFetched, IsAhead, IsLetterAt, IsReachedMember, MayTake, Peeked, Returned, alone, busy};

use crate::board::Board;
use crate::rule::{Fetches, Homes, Opens, Peeks, Posting, Returns, Slot, View};
use atomic_table::Seat;
use dr_entry::Entry;
use dr_member::Member;

/// The member of a seat, which may have made appends since the seat's last step, gives a late member its letter.
pub(crate) fn give_at<J: Posting>(
    board: &Board,
    seat: &mut Seat<Slot, View>,
    member: &Member,
    late: u8,
)
    requires errand { (J.errand.late ≡ late) × (J.errand.word ≡ 1) }
    requires now { J.now ≡ member.now }
    requires table { seat.old.table_id ≡ board.now.table.id }
    requires alone { (r : Running) × (seat.old.me ≡ alone r) × IsAhead r J.now }
    requires reached { IsReachedMember J.now }
    requires size { board_size J.now ≡ board.now.table.id.words }
    requires due { IsDueFor J.now J.errand }
    ensures table { seat.new.table_id ≡ seat.old.table_id }
    ensures given { seat.new.me ≡ alone (after_step 0 J.now) }
{
    let word = member.table_words() + usize::from(late);
    let slot = usize::from(member.late().rank_of(late));
    let mut letter = open_at::<J>(board, seat, word, slot);
    member.letter(&mut letter);
    home_at::<J>(board, seat, word, slot, letter);
}

/// The late member of a seat, which may have made appends since the seat's last step, takes its letter, where one is
/// there.
pub(crate) fn take_at<J: Posting>(
    board: &Board,
    seat: &mut Seat<Slot, View>,
    member: &Member,
) -> Slot
    requires errand { (J.errand.late ≡ me member.now.replica) × (J.errand.word ≡ 2) }
    requires now { J.now ≡ member.now }
    requires table { seat.old.table_id ≡ board.now.table.id }
    requires alone { (r : Running) × (seat.old.me ≡ alone r) × IsAhead r J.now }
    requires reached { IsReachedMember J.now }
    requires size { board_size J.now ≡ board.now.table.id.words }
    requires due { IsDueFor J.now J.errand }
    ensures table { seat.new.table_id ≡ seat.old.table_id }
    ensures may { MayTake J.now (option_map (λ list. list.items) result) }
    ensures taken { seat.new.me ≡ alone (settled (took_letter (option_map (λ list. list.items) result) J.now)) }
{
    let word = member.table_words() + usize::from(member.me());
    if !peek_at::<J>(board, seat, word) {
        return None;
    }
    let slot = usize::from(member.late().rank_of(member.me()));
    let letter = fetch_at::<J>(board, seat, word, slot);
    return_at::<J>(board, seat, word);
    Some(letter)
}

/// The member takes this letter, or finds none, which is its next deed.
pub(crate) fn take_letter(member: &mut Member, letter: &Slot)
    requires due { is_take (next_deed member.old) ≡ true }
    requires fitting { IfSome letter.now (λ list. IsFitting member.old.replica list.items) }
    ensures after { member.new ≡ settled (took_letter (option_map (λ list. list.items) letter.now) member.old) }
    ensures falls { deeds_left member.new < deeds_left member.old }
{
    match letter {
        Some(list) => member.taken(Some(list.as_slice())),
        None => member.taken(None),
    }
}

/// The member takes the slot of the late member, and has the list that is in it.
fn open_at<J: Posting>(
    board: &Board,
    seat: &mut Seat<Slot, View>,
    word: usize,
    slot: usize,
) -> Vec<Entry>
    requires first { J.errand.word ≡ 1 }
    requires due { IsDueFor J.now J.errand }
    requires table { seat.old.table_id ≡ board.now.table.id }
    requires alone { (r : Running) × (seat.old.me ≡ alone r) × IsAhead r J.now }
    requires at { IsLetterAt board.now.table.id.words J.errand J.now word slot }
    ensures table { seat.new.table_id ≡ seat.old.table_id }
    ensures blank { IsBlankList J.now.replica.room result }
    ensures opened { seat.new.me ≡ busy J.now J.errand ((slot, None) ∷ []) }
{
    board.table.shared.store::<Opens<J>>(seat, word, 1);
    let Some(list) = board.table.shared.exchange(seat, slot, None) else {
        unreachable!()
    };
    list
}

/// It puts the slot back with this letter, which gives it.
fn home_at<J: Posting>(
    board: &Board,
    seat: &mut Seat<Slot, View>,
    word: usize,
    slot: usize,
    letter: Vec<Entry>,
)
    requires first { J.errand.word ≡ 1 }
    requires due { IsDueFor J.now J.errand }
    requires table { seat.old.table_id ≡ board.now.table.id }
    requires opened { seat.old.me ≡ busy J.now J.errand ((slot, None) ∷ []) }
    requires at { IsLetterAt board.now.table.id.words J.errand J.now word slot }
    requires letter { letter.items ≡ up_to_view J.now.replica.history }
    ensures table { seat.new.table_id ≡ seat.old.table_id }
    ensures given { seat.new.me ≡ alone (after_step 0 J.now) }
{
    let _none = board.table.shared.exchange(seat, slot, Some(letter));
    board.table.shared.store::<Homes<J>>(seat, word, 2);
}

/// The late member looks whether its letter is there: where it isn't, that was its take.
fn peek_at<J: Posting>(board: &Board, seat: &mut Seat<Slot, View>, word: usize) -> bool
    requires second { J.errand.word ≡ 2 }
    requires due { IsDueFor J.now J.errand }
    requires table { seat.old.table_id ≡ board.now.table.id }
    requires alone { (r : Running) × (seat.old.me ≡ alone r) × IsAhead r J.now }
    requires word { word ≡ table_size J.now + J.errand.late }
    requires within { word < board.now.table.id.words }
    ensures table { seat.new.table_id ≡ seat.old.table_id }
    ensures peeked { (found : ℕ) × (result ≡ (found == 2)) × Peeked J.errand J.now found seat.new.me }
{
    board.table.shared.load::<Peeks<J>>(seat, word) == 2
}

/// It takes its slot, and has its letter.
fn fetch_at<J: Posting>(
    board: &Board,
    seat: &mut Seat<Slot, View>,
    word: usize,
    slot: usize,
) -> Vec<Entry>
    requires second { J.errand.word ≡ 2 }
    requires due { IsDueFor J.now J.errand }
    requires table { seat.old.table_id ≡ board.now.table.id }
    requires seen { seat.old.me ≡ busy J.now J.errand [] }
    requires at { IsLetterAt board.now.table.id.words J.errand J.now word slot }
    ensures table { seat.new.table_id ≡ seat.old.table_id }
    ensures may { MayTake J.now (Some result.items) }
    ensures fetched { seat.new.me
        ≡ busy J.now (record J.errand { word = 3; letter = result.items }) ((slot, None) ∷ []) }
{
    board.table.shared.store::<Fetches<J>>(seat, word, 3);
    let Some(letter) = board.table.shared.exchange(seat, slot, None) else {
        unreachable!()
    };
    letter
}

/// It puts the slot back, empty, which takes its letter.
fn return_at<J: Posting>(board: &Board, seat: &mut Seat<Slot, View>, word: usize)
    requires second { J.errand.word ≡ 2 }
    requires due { IsDueFor J.now J.errand }
    requires table { seat.old.table_id ≡ board.now.table.id }
    requires fetched { HasFetched J.errand J.now seat.old.me }
    requires word { word ≡ table_size J.now + J.errand.late }
    requires within { word < board.now.table.id.words }
    ensures table { seat.new.table_id ≡ seat.old.table_id }
    ensures taken { Returned J.now seat.old.me seat.new.me }
{
    board.table.shared.store::<Returns<J>>(seat, word, 4);
}
