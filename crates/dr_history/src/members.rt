ghost use Rattle.std.specs.Prelude.{◌≡◌, ◌<◌};
ghost use Rattle.dr_history.specs.Members.{has, members_of};

use arrayvec::ArrayVec;
use dr_entry::MAX_MEMBERS;

/// Whether member `n` is in the mask. A member's number is below [`MAX_MEMBERS`].
pub fn has(mask: u16, n: u8) -> bool
    requires { n < MAX_MEMBERS }
    ensures { result ≡ has mask n }
{
    mask >> n & 1 == 1
}

/// The members of the mask, ascending.
#[tactic(auto, using(crate::proofs::MemberLemmas::members_below_more, crate::proofs::MemberLemmas::length_members_below), unfolding(crate::specs::Members::members_of, crate::specs::Members::members_below))]
pub fn members_of(mask: u16) -> ArrayVec<u8, MAX_MEMBERS>
    ensures { result.items ≡ members_of mask }
{
    let mut members = ArrayVec::new();
    for n in 0..MAX_MEMBERS as u8 {
        if has(mask, n) {
            members.push(n);
        }
    }
    members
}
