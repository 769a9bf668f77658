ghost use Rattle.std.specs.Prelude.{◌≡◌, ◌<◌, length};
ghost use Rattle.dr_history.specs.Members.{members_of};
ghost use Rattle.dr_order.specs.Merge.{IsNextHeld};
ghost use Rattle.dr_trim.specs.Trims.{trims_by_rank};

use arrayvec::ArrayVec;
use dr_entry::MAX_MEMBERS;
use dr_order::merge_next;
use dr_words::Mask;

/// The least place at or after `from` that holds an item, where each member of a view has sent as many items
/// as its trim; `None` exactly where no such place holds one. The view has members.
pub fn next_rest(members: Mask, trim: &[u32; MAX_MEMBERS], from: u64) -> Option<u64>
    requires { 0 < length (members_of members) }
    ensures { IsNextHeld (trims_by_rank members trim.now) from result }
{
    let trims = trims_by_rank(members, trim);
    merge_next(trims.as_slice(), from)
}

/// The trims of the members of a view, by rank.
#[tactic(auto, using(dr_history::proofs::MemberLemmas::members_below_more, dr_history::proofs::MemberLemmas::length_members_below), unfolding(dr_history::specs::Members::members_of, dr_history::specs::Members::members_below))]
pub fn trims_by_rank(members: Mask, trim: &[u32; MAX_MEMBERS]) -> ArrayVec<u32, MAX_MEMBERS>
    ensures { result.items ≡ trims_by_rank members trim.now }
{
    let mut trims = ArrayVec::new();
    for member in 0..MAX_MEMBERS as u8 {
        if members.has(member) {
            trims.push(trim[usize::from(member)]);
        }
    }
    trims
}
