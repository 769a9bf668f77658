//! The rule of the table, and what each kind of step tells.

use atomic_table::{Join, Play, Split, TableRule};
use dr_entry::Entry;
use dr_member::Member;
use std::collections::LinkedList;
use std::marker::{Brand, PhantomData};

/// What a slot has at home: a list for the letter of its late member, and nothing once that one has taken it.
pub type Slot = Option<Vec<Entry>>;

/// What a seat knows: the members of its hand, each at its place, and the letter that it is about, if it is about
/// one, for which it has one member alone. No value of it is made.
pub struct View {
    pub members: LinkedList<Option<Member>>,
    pub errand: Option<Errand>,
}

/// What a seat is about with a letter. No value of it is made.
pub struct Errand {
    /// The late member whose letter it is.
    pub late: u8,
    /// The number to which the seat has brought that one's word, or which it saw there.
    pub word: u64,
    /// The letter, once the seat has taken it.
    pub letter: LinkedList<Entry>,
}

/// The words, with the members of all seats and the letters, are a program that the dealt members have come to.
pub struct Ruled;

impl TableRule<Slot, View, Vec<Option<Member>>> for Ruled {
    ghost use Rattle.std.specs.Prelude.{None};
    ghost use Rattle.dr_table.specs.Rule.{HasSuchProgram};

    ghost holds = { λ dealt s. HasSuchProgram dealt.items s.words s.homes s.views };

    ghost first = { λ dealt. record { members = dealt.items; errand = None } };
}

/// A place of a hand, or behind it. A cut and a count pick it.
pub trait WordPlace {
    ghost use Rattle.std.specs.Prelude.{ℕ};

    ghost at: { ℕ };
}

impl WordPlace for Brand {
    ghost at = { 0 };
}

/// The member of a seat as it is. Each step on a word picks it.
pub trait Mover {
    ghost use Rattle.dr_program.specs.Running.{Running};

    ghost now: { Running };
}

impl Mover for Brand {
    ghost use Rattle.dr_table.specs.Steps.{nobody};

    ghost now = { nobody };
}

/// What a seat is about with a letter, and the member that gives or takes it. Each step with a slot picks it.
pub trait Posting {
    ghost use Rattle.dr_program.specs.Running.{Running};
    ghost use Rattle.dr_table.specs.declared.rule.Errand.{Errand};

    ghost errand: { Errand };

    ghost now: { Running };
}

impl Posting for Brand {
    ghost use Rattle.dr_table.specs.Steps.{no_errand, nobody};

    ghost errand = { no_errand };

    ghost now = { nobody };
}

/// A member looks at a word.
pub struct Looks<J> {
    mover: PhantomData<J>,
}

impl<J: Mover> Play<Slot, View> for Looks<J> {
    ghost use Rattle.dr_table.specs.Steps.{Looked};

    ghost then = { λ _ _ found after. Looked J.now found after };
}

/// A member stores a word: for a push, or for an act.
pub struct Stores<J> {
    mover: PhantomData<J>,
}

impl<J: Mover> Play<Slot, View> for Stores<J> {
    ghost use Rattle.dr_table.specs.Steps.{Stored};

    ghost then = { λ _ _ _ after. Stored J.now after };
}

/// A hand is cut at a place.
pub struct Cuts<J> {
    at: PhantomData<J>,
}

impl<J: WordPlace> Split<View> for Cuts<J> {
    ghost use Rattle.std.specs.Prelude.{None, take, drop};

    ghost left = { λ v. record { members = take J.at v.members; errand = None } };

    ghost right = { λ v. record { members = drop J.at v.members; errand = None } };
}

/// A hand takes the members of another one.
pub struct Gathers;

impl Join<View> for Gathers {
    ghost use Rattle.std.specs.Prelude.{◌++◌, [], None};

    ghost both = { λ v w. record { members = v.members ++ w.members; errand = None } };

    ghost spent = { record { members = []; errand = None } };
}

/// A hand learns that it has no more places than were dealt.
pub struct Counts<J> {
    at: PhantomData<J>,
}

impl<J: WordPlace> Play<Slot, View> for Counts<J> {
    ghost use Rattle.std.specs.Prelude.{◌≡◌, ◌≤◌, length};

    ghost then = { λ _ me _ after. (after ≡ me) × (length me.0.members ≤ J.at) };
}

/// A member takes the slot of a late member, to which it gives a letter.
pub struct Opens<J> {
    about: PhantomData<J>,
}

impl<J: Posting> Play<Slot, View> for Opens<J> {
    ghost use Rattle.dr_table.specs.Steps.{Opened};

    ghost then = { λ _ _ _ after. Opened J.errand J.now after };
}

/// It puts the slot back, with the letter.
pub struct Homes<J> {
    about: PhantomData<J>,
}

impl<J: Posting> Play<Slot, View> for Homes<J> {
    ghost use Rattle.dr_table.specs.Steps.{Stored};

    ghost then = { λ _ _ _ after. Stored J.now after };
}

/// A late member looks whether a letter is there for it.
pub struct Peeks<J> {
    about: PhantomData<J>,
}

impl<J: Posting> Play<Slot, View> for Peeks<J> {
    ghost use Rattle.dr_table.specs.Steps.{Peeked};

    ghost then = { λ _ _ found after. Peeked J.errand J.now found after };
}

/// It takes its slot, with the letter.
pub struct Fetches<J> {
    about: PhantomData<J>,
}

impl<J: Posting> Play<Slot, View> for Fetches<J> {
    ghost use Rattle.dr_table.specs.Steps.{Fetched};

    ghost then = { λ _ _ _ after. Fetched J.errand J.now after };
}

/// It puts the slot back, empty.
pub struct Returns<J> {
    about: PhantomData<J>,
}

impl<J: Posting> Play<Slot, View> for Returns<J> {
    ghost use Rattle.dr_table.specs.Steps.{Returned};

    ghost then = { λ _ me _ after. Returned J.now me after };
}
