ghost use Rattle.std.specs.List.{list_any};
ghost use Rattle.std.specs.Prelude.{◌≡◌, ℕ, ◌<◌, ◌≤◌, IfOk, length, map, nat_lt, replicate, slice_index, slice_index_or, true};
ghost use Rattle.dr_history.specs.{Members.{has, members_of}, Places.{AllHeldBelow, front_of, is_held}};
ghost use Rattle.dr_program.specs.Replica.{greatest};
ghost use Rattle.dr_replica.specs.Spots.{IsSpot};
ghost use Rattle.dr_words.specs.Masks.{IsInRoster};
ghost use Rattle.dr_entry.specs.declared.entry.Item.TheVariants.{Null};

use crate::spot::Spot;
use arrayvec::ArrayVec;
use dr_entry::{Item, MAX_MEMBERS};
use dr_history::members_of;
use dr_order::null_due;
use dr_words::Mask;
use std::alloc::{AllocError, Global};
use std::marker::Model;

/// The items that a member has in its view, with the front of their numbers.
#[derive(Drop)]
pub(crate) struct Items {
    members: ArrayVec<u8, MAX_MEMBERS>,
    roster: u8,
    most: u32,
    counts: Vec<u32>,
    items: Vec<Item>,
    front: Spot,
}

impl Model for Items {
    ghost use Rattle.dr_replica.specs.Items.{Held};

    ghost Value = { Held };

    ghost use Rattle.dr_replica.specs.Inside.{AreItems, held_of};

    ghost view = { held_of };

    ghost invariant = { AreItems };
}

impl Items {
    ghost use Rattle.dr_replica.specs.Items.{IsHeld, counts_of, front, item_held_at, none_held, sender_held_at, taken};

    /// No items of the members of a view, of each of whom there will be up to `most`. No later call
    /// takes memory.
    pub(crate) fn begin(
        alloc: Global,
        view: Mask,
        roster: u8,
        most: u32,
    ) -> Result<Items, AllocError>
        requires roster { roster ≤ 16 }
        requires members { IsInRoster roster view }
        requires some { 0 < length (members_of view) }
        requires most { most ≤ 4096 }
        ensures begun { IfOk result (λ held. held ≡ none_held view roster most) }
    {
        let places = most as usize * usize::from(roster);
        Ok(Items {
            members: members_of(view.bits()),
            roster,
            most,
            counts: vec![in alloc; 0; usize::from(roster)]?,
            items: nulls(alloc, places)?,
            front: Spot::first(),
        })
    }

    /// No items of the members of another view.
    pub(crate) fn renew(&mut self, view: Mask)
        requires members { IsInRoster self.old.roster view }
        requires some { 0 < length (members_of view) }
        ensures { self.new ≡ none_held view self.old.roster self.old.most }
    {
        let used = self.used();
        self.members = members_of(view.bits());
        self.counts.fill(0);
        for place in 0..used {
            self.items[place] = Item::Null;
        }
        self.front = Spot::first();
    }

    /// How many places there are up to the last that may hold an item: all others hold a null.
    fn used(&self) -> usize
        ensures within { result ≤ length self.now.items }
        ensures nulls { (k : ℕ) → result ≤ k → slice_index_or self.now.items k Null ≡ Null }
    {
        greatest(self.counts.as_slice()) as usize * usize::from(self.roster)
    }

    /// The members of the view, ascending.
    pub(crate) fn members(&self) -> &[u8]
        ensures members { result.now ≡ self.now.members }
        ensures form { IsHeld self.now }
    {
        self.members.as_slice()
    }

    /// How many items of a member there are.
    #[inline]
    pub(crate) fn count(&self, member: u8) -> u32
        requires { member < self.now.roster }
        ensures count { result ≡ slice_index self.now.counts member }
        ensures bounded { result ≤ 4096 }
    {
        self.counts[usize::from(member)]
    }

    /// How many items of each member there are.
    pub(crate) fn counts(&self) -> &[u32]
        ensures counts { result.now ≡ self.now.counts }
        ensures form { IsHeld self.now }
    {
        self.counts.as_slice()
    }

    /// Whether there are more items of some member than of this one.
    #[inline]
    pub(crate) fn is_behind(&self, member: u8) -> bool
        requires { member < self.now.roster }
        ensures { result ≡ list_any (nat_lt (slice_index self.now.counts member)) self.now.counts }
    {
        null_due(self.counts.as_slice(), member)
    }

    /// Whether there is room for one item more of a member.
    #[inline]
    pub(crate) fn has_room(&self, member: u8) -> bool
        requires { member < self.now.roster }
        ensures { result ≡ nat_lt (slice_index self.now.counts member) self.now.most }
    {
        self.count(member) < self.most
    }

    /// The front of the numbers of items: the first place whose item isn't there.
    #[inline]
    pub(crate) fn front(&self) -> u64
        ensures { result ≡ front self.now }
    {
        self.front.place
    }

    /// Takes the next item of a member.
    pub(crate) fn take(&mut self, member: u8, item: Item)
        requires member { member < self.old.roster }
        requires room { slice_index self.old.counts member < self.old.most }
        ensures { self.new ≡ taken self.old member item }
    {
        let count = self.counts[usize::from(member)];
        let place = count as usize * usize::from(self.roster) + usize::from(member);
        self.items[place] = item;
        self.counts[usize::from(member)] = count + 1;
        self.front = front_from(self.members.as_slice(), self.counts.as_slice(), self.front);
    }

    /// The member whose item stands at a place.
    #[tactic(auto, using(crate::proofs::Spots::spot_rank))]
    pub(crate) fn sender_at(&self, spot: Spot) -> u8
        requires { IsSpot (length self.now.members) spot }
        ensures sender { result ≡ sender_held_at self.now spot.place }
        ensures member { result < self.now.roster }
    {
        self.members[spot.rank]
    }

    /// The item at a place that holds one.
    pub(crate) fn item_at(&self, spot: Spot) -> &Item
        requires spot { IsSpot (length self.now.members) spot }
        requires held { is_held (counts_of self.now) spot.place ≡ true }
        ensures { result.now ≡ item_held_at self.now spot.place }
    {
        let sender = self.sender_at(spot);
        &self.items[spot.number as usize * usize::from(self.roster) + usize::from(sender)]
    }
}

/// The greatest of these numbers of messages or of items.
pub(crate) fn greatest(numbers: &[u32]) -> u32
    ensures { result ≡ greatest numbers.now }
{
    numbers.iter().fold(0, |most, number| most.max(*number))
}

/// So many nulls.
fn nulls(alloc: Global, count: usize) -> Result<Vec<Item>, AllocError>
    ensures { IfOk result (λ items. items.items ≡ replicate count Item.Null) }
{
    let mut items = Vec::with_capacity(alloc, count)?;
    for _ in 0..count {
        items.push(Item::Null).unwrap();
    }
    Ok(items)
}

/// The front of the members' counts, by their ranks, where all places before `from` hold an item.
fn front_from(members: &[u8], counts: &[u32], from: Spot) -> Spot
    requires some { 0 < length members.now }
    requires few { length members.now ≤ 16 }
    requires members { (i : ℕ) → i < length members.now
        → slice_index members.now i < length counts.now }
    requires spot { IsSpot (length members.now) from }
    requires held { AllHeldBelow (map (slice_index counts.now) members.now) from.place }
    ensures front { result.place ≡ front_of (map (slice_index counts.now) members.now) }
    ensures spot { IsSpot (length members.now) result }
{
    let mut spot = from;
    while is_held(members, counts, spot) {
        spot.step(members.len());
    }
    spot
}

/// Whether a place holds an item, by the members' counts.
fn is_held(members: &[u8], counts: &[u32], spot: Spot) -> bool
    requires members { (i : ℕ) → i < length members.now
        → slice_index members.now i < length counts.now }
    requires spot { IsSpot (length members.now) spot }
    ensures { result ≡ is_held (map (slice_index counts.now) members.now) spot.place }
{
    let member = members[spot.rank];
    spot.number < u64::from(counts[usize::from(member)])
}
