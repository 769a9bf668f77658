//! The laws of a group: whatever its members do, and in whatever order, their histories agree, and what a
//! member that is done has delivered is everything.
//!
//! The machine is that of `dr_machine`. That its words tell the truth comes from `dr_faithful`, that votes
//! are for one value from `dr_vote_laws`, and what holds of histories laid out by places from
//! `dr_history_laws`; this crate ties them together.
//! `docs/PROOFS.md` shows how.
//!
//! The values of views are a prophecy: one list of values for a whole run, named from outside, so the members
//! of each view are one function in all invariants. Which they are is found by the induction, and changed
//! where a value is first committed. What is said of votes and trims are laws of worlds, and no calls that
//! take a script and events: a law says it of every reached world at once, and there is nothing that a call
//! could compute.
#![tactic(auto)]

ghost use Rattle.std.specs.Prelude.{◌≡◌, ◌≢◌, ◌⊎◌, ℕ, ◌*◌, ◌+◌, ◌<◌, ◌≤◌, true, false, List, [], ◌∷◌, ◌++◌, All, Contains, length, None, Some};
ghost use Rattle.dr_entry.specs.{Spelling.IsValidEntry, declared.end.End.TheVariants.{Done, Suspected, NoMajority}};
ghost use Rattle.dr_entry.specs.{declared.entry.Entry.{Entry, TheVariants.View}, declared.record.Value.Value};
ghost use Rattle.dr_entry.specs.declared.record.Vote.{Vote};
ghost use Rattle.dr_faithful.specs.{Chosen.Values, Faithful.Faithful, Tells.{SuspicionsTold, Views, WordsTell}};
ghost use Rattle.dr_history.specs.{History.{IsPrefixOf, messages_of}, Members.has};
ghost use Rattle.dr_history.specs.{Order.{IsLateIn, first_entries, messages_from}, Places.front_of};
ghost use Rattle.dr_history.specs.{Soundness.{IsNobodyLate, Sound}, declared.opening.Opening.Opening};
ghost use Rattle.dr_machine.specs.{Effects.counts_by, World.{World, opening_world}, declared.event.Event.Event};
ghost use Rattle.dr_machine.specs.{Group.{Group, IsGroup, banks, roster}, Votes.{HasLogged, IsOf, MajorityHas}};
ghost use Rattle.dr_machine.specs.Guards.{CanFinish, CanWelcome, HoldsAll, MayChoose, unsuspected_of};
ghost use Rattle.dr_machine.specs.Run.{ComesNext, Run, IsReached, IsReachedWhere, Way, NoLaterItem, PastGrew, WordsGrew, WorldAgreed};
ghost use Rattle.dr_words.specs.Masks.{IsLeastOf, next_members};
ghost use Rattle.dr_vote_laws.specs.{Moments.AcceptsOfMoments, Tells.VotesTold, Voting.{HaveVotedFor, IsCut}};
ghost use Rattle.dr_history_laws.specs.Remaining.{remaining};
ghost use Rattle.dr_world_laws.specs.Ends.{IsLeftWith, IsSuspectedBack, NobodySuspects};
ghost use Rattle.dr_world_laws.specs.{Historic.{AreLaid, HoldsMessages, IsMerged}, Letters.IsHeadFor};
ghost use Rattle.dr_world_laws.specs.Views.{AreViews, HasView, IsCovered};

/// In every world that a group reaches its members agree: on their histories, on their logs, and on what
/// is durable, however late the words come that they push. So they do after every list of events, over any
/// number of views.
pub fn agreement()
    ensures reached { (g : Group) (w : World) → IsGroup g → IsReached g w → WorldAgreed g w }
    ensures events { (g : Group) (events : List Event) (w : World)
        → IsGroup g → Run g (opening_world g) events w → WorldAgreed g w }
{}

/// In every world that a group reaches the histories tell the members of each view that somebody has come
/// to: the View of a number has the same members wherever it stands, and the View of a member's own
/// view in some. A member that was in the view before its own has kept that one's members as those that it
/// came from. A view is followed by another as more than half of its members have voted for one value by
/// one ballot, and the next view has the members that come of it: those of the view that the value doesn't
/// name, and those that it names and the view lacks.
pub fn views_end_by_votes()
    ensures once { (g : Group) (w : World) (v one other : ℕ) → IsGroup g → IsReached g w
        → HasView g w v one → HasView g w v other → one ≡ other }
    ensures come { (g : Group) (w : World) (m v : ℕ) → IsGroup g → IsReached g w → v ≤ w.past.view m
        → (members : ℕ) × HasView g w v members }
    ensures present { (g : Group) (w : World) (m : ℕ) → IsGroup g → IsReached g w
        → HasView g w (w.past.view m) (w.members m) }
    ensures came { (g : Group) (w : World) (m v members : ℕ) → IsGroup g → IsReached g w
        → w.past.view m ≡ v + 1 → HasView g w v members → has members m ≡ true
        → w.came_from m ≡ members }
    ensures before { (g : Group) (w : World) (m : ℕ) → IsGroup g → IsReached g w
        → has (w.came_from m) m ≡ true → (v : ℕ) × (w.past.view m ≡ v + 1)
        × Contains (w.past.history m) (View g.opening.age v (w.came_from m)) }
    ensures ended { (g : Group) (w : World) (v members next : ℕ) → IsGroup g → IsReached g w
        → HasView g w v members → HasView g w (v + 1) next
        → (b : ℕ) × (x : Value) × HaveVotedFor w.past.votes members v b x
        × (next ≡ next_members members x.leavers) }
{}

/// In every world that a group reaches a letter for a late member is a front part of what its giver has
/// delivered, up to and with the first View that names the late one, and it goes on from what this one has.
/// The giver is the least of those that are in this view and were in the one before. The letter is given
/// once: whoever may give it finds that there is none yet. It is there exactly where it was given: who has
/// given one in its view finds it there, and the giver of one that is there has it as given until it leaves
/// the view.
pub fn letters_are_given_once()
    ensures heads { (g : Group) (w : World) (j : ℕ) (letter : List Entry) → IsGroup g → IsReached g w
        → w.letter j ≡ Some letter → IsHeadFor g w j letter }
    ensures goes_on { (g : Group) (w : World) (j : ℕ) (letter : List Entry) → IsGroup g → IsReached g w
        → j < roster g → w.letter j ≡ Some letter → has (w.members j) j ≡ false
        → IsPrefixOf (w.past.history j) letter }
    ensures once { (g : Group) (w : World) (m j : ℕ) → IsGroup g → IsReached g w → CanWelcome g w m j
        → w.letter j ≡ None }
    ensures stays { (g : Group) (w : World) (m j : ℕ) → IsGroup g → IsReached g w
        → has (w.given m) j ≡ true → (letter : List Entry) × (w.letter j ≡ Some letter) }
{}

/// In every world that a group reaches the votes of a view agree on one value: votes of one ballot are equal;
/// once more than half of a view has votes of a ballot, each vote of this ballot or a higher one has the same
/// value; a value that a member commits has such a majority; and so values that are committed in one view are
/// equal, whoever commits them, and at whatever moments.
pub fn one_value()
    ensures ballot { (g : Group) (w : World) (i j : ℕ) (x y : Vote) → IsGroup g → IsReached g w
        → HasLogged w.past.votes i x → HasLogged w.past.votes j y
        → IsOf y x.view x.ballot → x ≡ y }
    ensures majority { (g : Group) (w : World) (i j members : ℕ) (x y : Vote) → IsGroup g → IsReached g w
        → HasView g w x.view members → HasLogged w.past.votes i x → HasLogged w.past.votes j y
        → MajorityHas w.past.votes members (λ z. IsOf z x.view x.ballot)
        → y.view ≡ x.view → x.ballot ≤ y.ballot → y.value ≡ x.value }
    ensures committed { (g : Group) (w : World) (m : ℕ) (v : Value) → IsGroup g → IsReached g w
        → w.committed m ≡ Some v
        → (ballot : ℕ) × HaveVotedFor w.past.votes (w.members m) (w.past.view m) ballot v }
    ensures one { (g : Group) (before : List World) (early late : World) (m k : ℕ) (u v : Value)
        → IsGroup g → Way g before late → Contains (late ∷ before) early
        → early.committed m ≡ Some u → late.committed k ≡ Some v
        → early.past.view m ≡ late.past.view k → u ≡ v }
    ensures events { (g : Group) (early late : World) (es : List Event) (m k : ℕ) (u v : Value) → IsGroup g
        → IsReached g early → Run g early es late
        → early.committed m ≡ Some u → late.committed k ≡ Some v
        → early.past.view m ≡ late.past.view k → u ≡ v }
{}

/// Each value that somebody has voted for lets a minority of its view leave, and late members come that are in
/// no view so far, and it names somebody. The counts of those that stay are final, and of each member as many
/// items are delivered as all of these have received.
pub fn values_are_cuts()
    ensures { (g : Group) (w : World) (i : ℕ) (x : Vote) → IsGroup g → IsReached g w
        → HasLogged w.past.votes i x
        → (V : Views) × AreViews g w V × HasView g w x.view (V x.view)
        × IsCut g.opening V w.past.own x.view x.value }
{}

/// In every world that a group reaches each word tells the truth of its owner: of what it has received,
/// logged and sent, of whom it suspects, and, where it is an accept word, of what it has promised and
/// voted. Each accept word of the table, each that was seen, and each that is on its way, is 0 or was its
/// owner's own word at a moment before, at which the owner was in that view and had the promise, the tag and
/// the value that the word says.
pub fn words_tell_the_truth()
    ensures faithful { (g : Group) (w : World) → IsGroup g → IsReached g w
        → (V : Views) × AreViews g w V × Faithful g V w }
    ensures words { (g : Group) (V : Views) (w : World) → IsGroup g → IsReached g w → AreViews g w V
        → WordsTell g V w }
    ensures suspicions { (g : Group) (w : World) → IsGroup g → IsReached g w → SuspicionsTold g w }
    ensures promise { (g : Group) (w : World) (m : ℕ) → IsGroup g → IsReached g w → m < roster g
        → w.suspects m ≢ 0 → IsLeastOf (unsuspected_of w m) (w.promise m) }
    ensures votes { (g : Group) (V : Views) (w : World) → IsGroup g → IsReached g w → AreViews g w V
        → VotesTold g V w }
    ensures moments { (g : Group) (V : Views) (before : List World) (w : World) → IsGroup g → Way g before w
        → AreViews g w V → AcceptsOfMoments g V before w }
    ensures later { (g : Group) (w : World) → IsGroup g → IsReached g w → NoLaterItem g w }
{}

/// No event undoes what was done, or makes a word fall, while its member stays in its view. Nor does a word
/// that arrives late. So each world on the way to another is reached, and the other has done all that it has.
pub fn nothing_is_undone()
    ensures words { (g : Group) (before : List World) (w after : World) → IsGroup g → Way g before w
        → ComesNext g before w after → WordsGrew g w after }
    ensures past { (g : Group) (before : List World) (w after : World) → IsGroup g → Way g before w
        → ComesNext g before w after → PastGrew w.past after.past }
    ensures since { (g : Group) (before : List World) (early late : World) → IsGroup g → Way g before late
        → Contains (late ∷ before) early → PastGrew early.past late.past × IsReached g early }
{}

/// Each history goes up to the View that its member is in, and then has the messages of the places that the
/// member has delivered in it. Each view that somebody has left ended with the value that was chosen for it.
pub fn histories_are_laid()
    ensures { (g : Group) (w : World) → IsGroup g → IsReached g w
        → (values : Values) × AreLaid g values w }
{}

/// The trim of a value that more than half of a view has voted for by one ballot covers what anybody has
/// delivered in the view: who is in it has delivered a front part of the merge of what the value takes, who
/// has left it all of this, and who doesn't leave has received it. So nobody has delivered a place that a
/// committed value cuts off.
pub fn trim_covers()
    ensures covered { (g : Group) (w : World) (v b members : ℕ) (x : Value) → IsGroup g → IsReached g w
        → HasView g w v members → HaveVotedFor w.past.votes members v b x → IsCovered g w v members x }
    ensures committed { (g : Group) (w : World) (m k : ℕ) (x : Value) → IsGroup g → IsReached g w
        → m < roster g → w.committed k ≡ Some x → w.past.view m ≡ w.past.view k
        → w.next m ≤ front_of (counts_by w k x) }
{}

/// Whoever has committed a value may end its view with it, unless it leaves by the value: the table has a
/// bank for the next view, and all items that the value takes are there. No age has more views than the table
/// has banks.
pub fn committed_members_may_finish()
    ensures { (g : Group) (w : World) (m : ℕ) (x : Value) → IsGroup g → IsReached g w → MayChoose g w m
        → w.committed m ≡ Some x → has x.leavers m ≡ false → CanFinish g w m }
{}

/// The table has a bank for each view that a member comes to. Each history has no more than the first
/// entries, a View for each view that its member has left, and the messages that the script gives the roster.
pub fn histories_are_short()
    ensures view { (g : Group) (w : World) (m : ℕ) → IsGroup g → IsReached g w → m < roster g
        → w.past.view m < banks g }
    ensures history { (g : Group) (w : World) (m most : ℕ) → IsGroup g → IsReached g w → m < roster g
        → ((s : ℕ) → length (messages_of g.opening s) ≤ most)
        → length (w.past.history m) ≤ length (first_entries g.opening) + w.past.view m + roster g * most }
{}

/// Behind its first entries each history holds Views of the age and messages of the script, and nothing
/// else. Each entry of a history, from the start on, is a valid record.
pub fn histories_hold_messages()
    ensures messages { (g : Group) (w : World) (m : ℕ) → IsGroup g → IsReached g w
        → m < roster g → HoldsMessages g (w.past.history m) }
    ensures valid { (g : Group) (w : World) (m : ℕ) → IsGroup g → IsReached g w
        → m < roster g → All IsValidEntry (w.past.history m) }
{}

/// A member that has ended as done has delivered all messages that the script gives the members of its view,
/// and knows its whole history to be durable. Nobody has a message that it lacks, but for those of late
/// members that aren't in its view, which may come into a later one. Behind the View that it is in lies the
/// merge of all that was sent in this view. Members that are done in the same view have the same history.
pub fn done_members_hold_all()
    ensures whole { (g : Group) (w : World) (m : ℕ) → IsGroup g → IsReached g w
        → m < roster g → w.end m ≡ Some Done → HoldsAll g w m }
    ensures durable { (g : Group) (w : World) (m : ℕ) → IsGroup g → IsReached g w
        → m < roster g → w.end m ≡ Some Done → w.past.durable m ≡ length (w.past.history m) }
    ensures lacks_none { (g : Group) (w : World) (m k s : ℕ) → IsGroup g → IsReached g w
        → (¬ IsLateIn g.opening s) ⊎ (has (w.members m) s ≡ true)
        → m < roster g → w.end m ≡ Some Done → k < roster g
        → IsPrefixOf (messages_from s (w.past.history k)) (messages_from s (w.past.history m)) }
    ensures merged { (g : Group) (w : World) (m : ℕ) → IsGroup g → IsReached g w
        → m < roster g → w.end m ≡ Some Done → (values : Values) × IsMerged g values w m }
    ensures same { (g : Group) (w : World) (m k : ℕ) → IsGroup g → IsReached g w
        → m < roster g → w.end m ≡ Some Done → k < roster g → w.end k ≡ Some Done
        → w.past.view m ≡ w.past.view k → w.past.history m ≡ w.past.history k }
{}

/// A member that holds all messages in the first view has one history, which the script and the start alone
/// determine: the start, View 0, and the merge of the messages that the start leaves.
pub fn whole_histories_are_one()
    ensures { (g : Group) (w : World) (m : ℕ) → IsGroup g → IsReached g w
        → m < roster g → w.past.view m ≡ 0 → HoldsAll g w m
        → w.past.history m ≡ first_entries g.opening ++ remaining g.opening }
{}

/// An age that starts with such a history of another, by the same script and with the same members, leaves no
/// message to be delivered.
pub fn whole_histories_leave_nothing()
    ensures { (o next : Opening) → Sound o → next.members ≡ o.members → o.messages ≡ next.messages
        → next.start ≡ first_entries o ++ remaining o → remaining next ≡ [] }
{}

/// A member of a reached world that was ended by suspicion was so by another member of its view, which it
/// does not suspect and which suspects it there, or is left with the members of its view that it doesn't
/// suspect, itself among them, and these are no majority.
pub fn suspicion_ends_members()
    ensures suspected { (g : Group) (w : World) (m by : ℕ) → IsGroup g → IsReached g w
        → m < roster g → w.end m ≡ Some (Suspected by) → IsSuspectedBack w m by }
    ensures minority { (g : Group) (w : World) (m mask : ℕ) → IsGroup g → IsReached g w
        → m < roster g → w.end m ≡ Some (NoMajority mask) → IsLeftWith w m mask }
{}

/// While nobody suspects anybody, nobody commits a value, and everybody stays in the first view.
pub fn trusting_members_stay_in_their_view()
    ensures { (g : Group) (w : World) (m : ℕ) → IsGroup g → IsReachedWhere g NobodySuspects w
        → (w.past.view m ≡ 0) × (w.committed m ≡ None) }
{}
