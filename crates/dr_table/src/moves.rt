//! The steps on the table, one for each kind.
ghost use Rattle.std.specs.Prelude.{◌≡◌, ◌<◌, ◌≤◌, drop, length, take};
ghost use Rattle.dr_member.specs.Deeds.{table_size};
ghost use Rattle.dr_program.specs.{Running.{Running, next_deed}, declared.deed.Deed.TheVariants.Look};
ghost use Rattle.dr_table.specs.{Deeds.IsStore, Steps.{IsAhead, Looked, Stored, alone, idle}};

use crate::board::Board;
use crate::rule::{Counts, Cuts, Looks, Mover, Slot, Stores, View, WordPlace};
use atomic_table::Seat;
use dr_member::Standing;

/// The member of a seat, which may have made appends since the seat's last step, looks at a word.
#[inline(always)]
pub(crate) fn look_at<J: Mover>(
    board: &Board,
    seat: &mut Seat<Slot, View>,
    member: &Standing<'_>,
    word: usize,
) -> u64
    requires now { member.now ≡ J.now }
    requires table { seat.old.table_id ≡ board.now.table.id }
    requires alone { (r : Running) × (seat.old.me ≡ alone r) × IsAhead r member.now }
    requires word { word < board.now.table.id.words }
    requires within { word < table_size member.now }
    requires deed { next_deed member.now ≡ Look word }
    ensures table { seat.new.table_id ≡ seat.old.table_id }
    ensures looked { Looked member.now result seat.new.me }
{
    board.table.shared.load::<Looks<J>>(seat, word)
}

/// The same for a deed that stores a word.
#[inline(always)]
pub(crate) fn store_at<J: Mover>(
    board: &Board,
    seat: &mut Seat<Slot, View>,
    member: &Standing<'_>,
    word: usize,
    new: u64,
)
    requires now { member.now ≡ J.now }
    requires table { seat.old.table_id ≡ board.now.table.id }
    requires alone { (r : Running) × (seat.old.me ≡ alone r) × IsAhead r member.now }
    requires word { word < board.now.table.id.words }
    requires within { word < table_size member.now }
    requires deed { IsStore word new (next_deed member.now) }
    ensures table { seat.new.table_id ≡ seat.old.table_id }
    ensures stored { Stored member.now seat.new.me }
{
    board.table.shared.store::<Stores<J>>(seat, word, new);
}

/// Cuts the hand of a seat at a place. The new seat has what stands from there on.
pub(crate) fn cut_at<J: WordPlace>(
    board: &Board,
    seat: &mut Seat<Slot, View>,
    at: usize,
) -> Seat<Slot, View>
    requires at { at ≡ J.at }
    requires table { seat.old.table_id ≡ board.now.table.id }
    requires idle { seat.old.me ≡ idle seat.old.me.0.members }
    requires words { 0 < board.now.table.id.words }
    ensures seat { (seat.new.table_id ≡ board.now.table.id) × (seat.new.me ≡ idle (take at seat.old.me.0.members)) }
    ensures other { (result.table_id ≡ board.now.table.id) × (result.me ≡ idle (drop at seat.old.me.0.members)) }
{
    board.table.shared.split_seat::<Cuts<J>>(seat)
}

/// The hand of a seat has no more places than were dealt.
pub(crate) fn count_at<J: WordPlace>(board: &Board, seat: &mut Seat<Slot, View>)
    requires at { length board.now.members ≡ J.at }
    requires table { seat.old.table_id ≡ board.now.table.id }
    requires words { 0 < board.now.table.id.words }
    ensures seat { (seat.new.table_id ≡ seat.old.table_id) × (seat.new.me ≡ seat.old.me) }
    ensures few { length seat.old.me.0.members ≤ length board.now.members }
{
    board.table.shared.load::<Counts<J>>(seat, 0);
}
