//! The numbers by which a member finds words of the table.
//!
//! One list for looks and one for pushes, made where the view begins: a multiplication at each look and push
//! cost a twenty-fifth of a seeded run.
ghost use Rattle.dr_member.specs.Bases.{AreBases};

use dr_entry::MAX_MEMBERS;
use dr_replica::Replica;

/// Where a member finds words of the table. While it is in its view, these numbers stay as they are.
#[derive(Clone, Copy)]
pub(crate) struct Bases {
    /// The columns of a row.
    pub columns: usize,
    /// By member, the index of the first word of its row in the member's own copy.
    pub looks: [usize; MAX_MEMBERS],
    /// By member, the index of the first word of the member's own row in its copy.
    pub pushes: [usize; MAX_MEMBERS],
}

impl Bases {
    /// The numbers of a member in its view.
    pub(crate) fn of(replica: &Replica) -> Bases
        ensures { AreBases result replica.now }
    {
        let me = replica.me();
        let view = replica.view();
        let shape = replica.shape();
        let mut looks = [0; MAX_MEMBERS];
        let mut pushes = [0; MAX_MEMBERS];
        for other in 0..shape.members {
            looks[usize::from(other)] = shape.word_index(view, me, other, 0);
            pushes[usize::from(other)] = shape.word_index(view, other, me, 0);
        }
        Bases {
            columns: shape.columns(),
            looks,
            pushes,
        }
    }
}
