//! Laws of votes.
ghost use Rattle.std.specs.Prelude.{◌≡◌, ◌≤◌, ℕ, List, [], ◌∷◌, Some};
ghost use Rattle.dr_entry.specs.{declared.end.End.TheVariants.Excluded, declared.record.{Value.Value, Vote.Vote}};
ghost use Rattle.dr_machine.specs.{Acts.{Guard, effect}, Group.{Group, IsGroup}, Guards.IsExcluded};
ghost use Rattle.dr_machine.specs.{Run.{HaveArrived, IsReached, PastGrew, with_table}, declared.event.Event.Event};
ghost use Rattle.dr_machine.specs.{Votes.{HasLogged, IsOf, MajorityHas}, World.{Table, World, opening_world}};
ghost use Rattle.dr_faithful.specs.{Faithful.{AllGoOn, Faithful}, Tells.Views};
ghost use Rattle.dr_vote_laws.specs.{Late.VotesBacked, Moments.AcceptsOfMoments, Voting.{IsChosen, IsCut, Voting}};

/// What is true of votes is so as the age opens, and each event keeps it, where the members are faithful and
/// who ends its view goes on as it should.
pub fn votes_stay_true()
    ensures begins { (g : Group) (V : Views) → Voting g V (opening_world g) }
    ensures keeps { (g : Group) (V : Views) (w : World) (e : Event) → IsGroup g → AllGoOn g V w
        → Guard g w e → Faithful g V w → Voting g V w → Voting g V (effect g w e) }
{}

/// Votes that are told late are true still: accept words that are on their way tell what is true of votes as the
/// age opens, and after each event, and so they do once they arrive.
pub fn late_votes_do_no_harm()
    ensures begins { (g : Group) (V : Views) → VotesBacked g V [] (opening_world g) }
    ensures keeps { (g : Group) (V : Views) (before : List World) (w : World) (e : Event) → IsGroup g
        → AllGoOn g V w → Guard g w e → Faithful g V w → Voting g V w → VotesBacked g V before w
        → VotesBacked g V (w ∷ before) (effect g w e) }
    ensures arrive { (g : Group) (V : Views) (before : List World) (w : World) (table : Table)
        → HaveArrived (w ∷ before) w table → VotesBacked g V before w → Voting g V w
        → Voting g V (with_table w table) × VotesBacked g V (w ∷ before) (with_table w table) }
{}

/// Then the votes of a view agree on one value: votes of one ballot are equal; once more than half of the
/// view has votes of a ballot, each vote of this ballot or a higher one has the same value; a value that a
/// member commits has such a majority; and so values that are committed in one view are equal, whoever
/// commits them, and at whatever moments.
pub fn votes_are_one()
    ensures ballot { (g : Group) (V : Views) (w : World) (i j : ℕ) (x y : Vote) → Voting g V w
        → HasLogged w.past.votes i x → HasLogged w.past.votes j y
        → IsOf y x.view x.ballot → x ≡ y }
    ensures majority { (g : Group) (V : Views) (w : World) (i j : ℕ) (x y : Vote) → Voting g V w
        → HasLogged w.past.votes i x → HasLogged w.past.votes j y
        → MajorityHas w.past.votes (V x.view) (λ z. IsOf z x.view x.ballot)
        → y.view ≡ x.view → x.ballot ≤ y.ballot → y.value ≡ x.value }
    ensures committed { (g : Group) (V : Views) (w : World) (m : ℕ) (v : Value) → Voting g V w
        → w.committed m ≡ Some v
        → (ballot : ℕ) × IsChosen V w.past.votes (w.past.view m) ballot v }
    ensures one { (g : Group) (V : Views) (early late : World) (m k : ℕ) (u v : Value) → Voting g V early
        → Voting g V late → PastGrew early.past late.past
        → early.committed m ≡ Some u → late.committed k ≡ Some v
        → early.past.view m ≡ late.past.view k → u ≡ v }
{}

/// Each value that somebody has voted for names somebody: it lets a minority of its view leave, and takes in late
/// members that are in no view so far. The counts of those that stay are final, and of each member as many items
/// are delivered as all of these have received.
pub fn votes_are_cuts()
    ensures { (g : Group) (V : Views) (w : World) (i : ℕ) (x : Vote) → Voting g V w
        → HasLogged w.past.votes i x → IsCut g.opening V w.past.own x.view x.value }
{}

/// A member is excluded only by the value that it has committed, which names it, and by the next view.
pub fn exclusion_ends_members()
    ensures { (g : Group) (w : World) (m view : ℕ) → IsReached g w → w.end m ≡ Some (Excluded view)
        → IsExcluded w m view }
{}

/// Each accept word of the table, each that was seen, and each that is on its way, is 0 or was its owner's own
/// word at a moment at which the owner was in that view and had the promise, the tag and the value that the
/// word says. It is so as the age opens, and each event and each arrival keeps it, where the members are
/// faithful.
pub fn accepts_are_of_moments()
    ensures begins { (g : Group) (V : Views) → AcceptsOfMoments g V [] (opening_world g) }
    ensures keeps { (g : Group) (V : Views) (before : List World) (w : World) (e : Event) → Faithful g V w
        → AcceptsOfMoments g V before w → AcceptsOfMoments g V (w ∷ before) (effect g w e) }
    ensures arrive { (g : Group) (V : Views) (before : List World) (w : World) (table : Table)
        → HaveArrived (w ∷ before) w table → Faithful g V w → AcceptsOfMoments g V before w
        → AcceptsOfMoments g V (w ∷ before) (with_table w table) }
{}
