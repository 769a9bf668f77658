ghost use Rattle.std.specs.Prelude.{◌≡◌, ℕ, ◌+◌, ◌-◌, ◌/◌, ◌%◌, count_ones, ◌*◌, ◌^◌, ◌<◌, ◌≤◌, ◌==◌, ◌&&◌, ◌||◌, ◌↔◌, if◌then◌else◌, not, nat_lt, true, false, length, slice_get, IsTrue, MatchOption};
ghost use Rattle.dr_history.specs.Members.{has, members_below, members_of};
ghost use Rattle.dr_words.specs.Masks.{IsPartOf, IsLeastOf, IsMajorityOf, next_members, with_member, without};

use dr_entry::MAX_MEMBERS;
use std::marker::Model;

/// Members of a group by number: member `n` belongs to the mask exactly where bit `n` is set.
///
/// Contracts see a mask as the number that its 16 bits spell.
#[derive(Clone, Copy, Debug, PartialEq, Eq)]
pub struct Mask(u16);

impl Model for Mask {
    ghost use Rattle.std.specs.Prelude.{ℕ};

    ghost Value = { ℕ };

    ghost view = { λ m. m.0 };

    ghost inverse = { λ n. record { 0 = n } };
}

impl Mask {
    /// The mask of these bits.
    #[inline]
    pub const fn of(bits: u16) -> Mask
        ensures { result ≡ bits }
    {
        Mask(bits)
    }

    /// The bits, as a word of the table holds them.
    #[inline]
    pub const fn bits(&self) -> u16
        ensures { result ≡ self.now }
    {
        self.0
    }

    /// The mask of nobody.
    #[inline]
    pub const fn empty() -> Mask
        ensures none { (n : ℕ) → has result n ≡ false }
        ensures bits { result ≡ 0 }
    {
        Mask(0)
    }

    /// The mask of all members of a roster of so many.
    #[inline]
    pub const fn all(members: u8) -> Mask
        requires some { 1 ≤ members }
        requires most { members ≤ MAX_MEMBERS }
        ensures members { (n : ℕ) → has result n ≡ nat_lt n members }
        ensures bits { result ≡ 2 ^ members - 1 }
    {
        Mask(u16::MAX >> (16 - members))
    }

    /// Whether the member is in the mask.
    #[inline]
    pub const fn has(&self, n: u8) -> bool
        requires { n < MAX_MEMBERS }
        ensures { result ≡ has self.now n }
    {
        (self.0 >> n) & 1 == 1
    }

    /// The mask with this member too.
    #[inline]
    pub const fn with(&self, n: u8) -> Mask
        requires { n < MAX_MEMBERS }
        ensures members { (i : ℕ) → has result i ≡ (i == n || has self.now i) }
        ensures grows { self.now ≤ result }
        ensures value { result ≡ with_member self.now n }
    {
        Mask(self.0 | (1 << n))
    }

    /// The mask without the members of the other.
    #[inline]
    pub const fn without(&self, other: Mask) -> Mask
        ensures members { (i : ℕ) → has result i ≡ (has self.now i && not (has other i)) }
        ensures value { result ≡ without self.now other }
    {
        Mask(self.0 & !other.0)
    }

    /// The members that come of these by a mask of names: those that it doesn't name, and those that it names
    /// and these lack.
    #[inline]
    pub const fn next(&self, names: Mask) -> Mask
        ensures members { (i : ℕ) → has result i ≡ (if has names i then not (has self.now i) else has self.now i) }
        ensures value { result ≡ next_members self.now names }
    {
        Mask(self.0 ^ names.0)
    }

    /// The number of members in the mask.
    #[inline]
    pub const fn count(&self) -> u8
        ensures value { result ≡ length (members_of self.now) }
        ensures most { result ≤ MAX_MEMBERS }
    {
        self.0.count_ones() as u8
    }

    /// The member with the lowest number; `None` exactly where the mask is empty.
    #[inline]
    pub const fn least(&self) -> Option<u8>
        ensures first { result ≡ slice_get (members_of self.now) 0 }
        ensures least { MatchOption result ((i : ℕ) → has self.now i ≡ false) (IsLeastOf self.now) }
    {
        if self.0 == 0 {
            None
        } else {
            Some(self.0.trailing_zeros() as u8)
        }
    }

    /// The member's rank: the number of members of the mask with a lower number.
    #[inline]
    pub const fn rank_of(&self, n: u8) -> u8
        requires number { n < MAX_MEMBERS }
        requires member { has self.now n ≡ true }
        ensures rank { result ≡ length (members_below self.now n) }
        ensures below { result < length (members_of self.now) }
        ensures found { slice_get (members_of self.now) result ≡ Some n }
    {
        (self.0 & ((1 << n) - 1)).count_ones() as u8
    }

    /// The member of this rank, counted from 0 in ascending order of number.
    #[inline]
    pub const fn at_rank(&self, r: u8) -> u8
        requires { r < length (members_of self.now) }
        ensures found { slice_get (members_of self.now) r ≡ Some result }
        ensures member { has self.now result ≡ true }
        ensures number { result < MAX_MEMBERS }
        ensures rank { length (members_below self.now result) ≡ r }
    {
        let (number, rank) = narrow(self.0, 0, r, 8);
        let (number, rank) = narrow(self.0, number, rank, 4);
        let (number, rank) = narrow(self.0, number, rank, 2);
        let (number, _) = narrow(self.0, number, rank, 1);
        number
    }

    /// Whether these are more than half of the members of `all`.
    #[inline]
    pub const fn is_majority_of(&self, all: Mask) -> bool
        requires { IsPartOf self.now all }
        ensures { IsTrue result ↔ IsMajorityOf self.now all }
    {
        2 * self.count() > all.count()
    }
}

// Of the `2 * half` bits from `from` on, the half in which the set bit of this rank stands: where
// that half begins, and the rank within it.
#[inline]
const fn narrow(bits: u16, from: u8, rank: u8, half: u8) -> (u8, u8)
    requires some { 0 < half }
    requires span { from + 2 * half ≤ 16 }
    requires rank { rank < count_ones (bits / 2 ^ from % 2 ^ (2 * half)) }
    ensures span { result.0 + half ≤ 16 }
    ensures rank { result.1 < count_ones (bits / 2 ^ result.0 % 2 ^ half) }
    ensures same { count_ones (bits % 2 ^ result.0) + result.1 ≡ count_ones (bits % 2 ^ from) + rank }
{
    let low = ((bits >> from) & ((1 << half) - 1)).count_ones() as u8;
    if rank < low {
        (from, rank)
    } else {
        (from + half, rank - low)
    }
}

/// Two majorities of one mask share a member.
pub fn majorities_meet()
    ensures { (all one other : ℕ) → IsPartOf one all → IsPartOf other all
        → IsMajorityOf one all → IsMajorityOf other all
        → (n : ℕ) × (n < MAX_MEMBERS) × (has all n ≡ true) × (has one n ≡ true)
        × (has other n ≡ true) }
{}
