//! What an act makes of a member.
ghost use Rattle.std.specs.Prelude.{◌≡◌, ◌≢◌, ◌/◌, ℕ, IfSome, None, false, option_map, true};
ghost use Rattle.dr_machine.specs.declared.{event.Act.TheVariants.{Beat, Finish, Receive}, step.Step.TheVariants.Do};
ghost use Rattle.dr_form.specs.Letters.{IsFitting};
ghost use Rattle.dr_program.specs.{Acts.taken, Form.HasForm, Replica.is_inside, Running.took_letter};
ghost use Rattle.dr_program.specs.{Steps.{NoWordFell, allows, is_free}, Turn.turn_ends, declared.place.Place.Place};
ghost use Rattle.dr_member.specs.{Bases.AreBases, Fate.{IsTimely, is_of_view, renewed, turned}, Search.standing};

use crate::bases::Bases;
use crate::fate::Fate;
use dr_entry::Entry;
use dr_machine::Act;
use dr_replica::Replica;

/// Does an act of a member, which may begin a turn, or a view, whose words stand elsewhere; behind an item
/// that it receives the next ones move up. One test of the act serves all of it.
#[inline(always)]
pub(crate) fn take_act(
    act: Act,
    replica: &mut Replica,
    fate: &mut Fate,
    bases: &mut Bases,
    ready: &mut u16,
)
    requires may { allows replica.old (Do act) ≡ true }
    requires free { is_free replica.old (Do act) ≡ true }
    ensures after { replica.new ≡ taken replica.old act }
    ensures grown { replica.new.view ≡ replica.old.view → NoWordFell replica.old replica.new }
    ensures form { HasForm replica.new }
    ensures turn { act ≡ Beat → fate.new ≡ turned fate.old replica.new.turns }
    ensures view { act ≡ Finish → fate.new ≡ renewed fate.old }
    ensures fate { act ≢ Beat → act ≢ Finish → fate.new ≡ fate.old }
    ensures bases { AreBases bases.old replica.old → AreBases bases.new replica.new }
    ensures ready { (s : ℕ) → act ≡ Receive s → ready.new ≡ ready.old / 2 }
{
    match act {
        Act::Beat => {
            replica.take(act);
            fate.begin_turn(replica.turns());
        }
        Act::Finish => {
            replica.take(act);
            fate.begin_view();
            *bases = Bases::of(replica);
        }
        Act::Receive { .. } => {
            replica.take(act);
            *ready >>= 1;
        }
        _ => replica.take(act),
    }
}

/// Whether the member is in its view after this act: of acts that only such a member does, and that leave it
/// there, that is known.
#[inline(always)]
pub(crate) fn is_inside_after(replica: &Replica, act: Act) -> bool
    requires { is_of_view act ≡ true → is_inside replica.now ≡ true }
    ensures { result ≡ is_inside replica.now }
{
    match act {
        Act::Receive { .. } | Act::Send | Act::Null | Act::Deliver | Act::Publish | Act::Report =>
            true,
        _ => replica.is_inside(),
    }
}

/// Takes the letter of a late member, if there is one: it comes into the view that the letter ends with, whose words
/// stand elsewhere, and waits anew.
pub(crate) fn take_letter(
    letter: Option<&[Entry]>,
    replica: &mut Replica,
    fate: &mut Fate,
    bases: &mut Bases,
)
    requires outside { is_inside replica.old ≡ false }
    requires free { replica.old.pending ≡ None }
    requires fitting { IfSome letter (λ list. IsFitting replica.old list.now) }
    requires form { HasForm replica.old }
    ensures after { (place : Place) → standing replica.new fate.new turn_ends
        ≡ took_letter (option_map (λ list. list.now) letter.entry) (standing replica.old fate.old place) }
    ensures form { HasForm replica.new }
    ensures timely { IsTimely fate.old replica.old.turns → IsTimely fate.new replica.new.turns }
    ensures bases { AreBases bases.old replica.old → AreBases bases.new replica.new }
{
    if let Some(letter) = letter {
        replica.join(letter);
        fate.begin_view();
        *bases = Bases::of(replica);
    }
}
