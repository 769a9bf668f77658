//! Laws of order and agreement.
ghost use Rattle.std.specs.List.{range_with_len};
ghost use Rattle.std.specs.Prelude.{◌≡◌, ◌*◌, ◌+◌, Contains, ◌<◌, ◌≤◌, ◌⊎◌, ◌++◌, ◌∷◌, ◌^◌, [], ℕ, true, List, fold, length, map, option_to_list, Some};
ghost use Rattle.dr_entry.specs.declared.{end.SentItem.TheVariants.Index, entry.Entry.{Entry, TheVariants.View}};
ghost use Rattle.dr_history.specs.{Agreement.SamePast, Order.{InOrder, IsSucceededBy, first_entries, messages_from}};
ghost use Rattle.dr_history.specs.History.{IsPrefixOf, GroupView, Sent, item_at, merge, messages_of, view_of};
ghost use Rattle.dr_history.specs.{Members.members_of, Soundness.{Sound, whole_roster}};
ghost use Rattle.dr_history.specs.{Places.{front_of, is_held, rest_places}, declared.opening.Opening.Opening};
ghost use Rattle.dr_history_laws.specs.Courses.{ViewEnds, ViewHasEnded, IsUncut, MayCome, MayReach, course, view_in};
ghost use Rattle.dr_history_laws.specs.Laid.{entry_at, laid, HeldBelow, EndsWithView, GoesOn, SentMore, first_view};

/// A history in order that ends with a View, and from which the messages sent in the view go on,
/// stays in order while places are laid behind it that all hold items. The message at the next
/// place is the next one of its sender. A history in order stays so when more is sent.
pub fn order_laws()
    ensures laid { (o : Opening) (sent : Sent) (before : List Entry) (v : GroupView) (p : ℕ)
        → InOrder o sent before → EndsWithView before v
        → GoesOn o sent before v → HeldBelow sent v p
        → InOrder o sent (before ++ laid o sent v p) }
    ensures next_index { (o : Opening) (sent : Sent) (before : List Entry) (v : GroupView)
        → (p s i : ℕ)
        → EndsWithView before v → GoesOn o sent before v
        → item_at sent v p ≡ Some (s, Index i)
        → i ≡ length (messages_from s (before ++ laid o sent v p)) }
    ensures steady { (o : Opening) (sent now : Sent) (h : List Entry)
        → SentMore sent now → InOrder o sent h → InOrder o now h }
{}

/// A view may end with so many of the first items of each member. Their merge behind the View, and
/// then a View by which the view may be succeeded, bring the history in order again. What was laid
/// before is a prefix of it, as far as the places of these items have no gap.
pub fn view_laws()
    ensures order { (o : Opening) (sent : Sent) (before : List Entry) (v : GroupView)
        → (taken : ℕ → ℕ) (age number mask : ℕ)
        → InOrder o sent before → EndsWithView before v → GoesOn o sent before v
        → IsSucceededBy o (before ++ merge o sent v (map taken v.members)) v age number mask
        → InOrder o sent
        ((before ++ merge o sent v (map taken v.members)) ++ View age number mask ∷ []) }
    ensures prefix { (o : Opening) (sent : Sent) (before : List Entry) (v : GroupView)
        → (taken : ℕ → ℕ) (p : ℕ) → p ≤ front_of (map taken v.members)
        → IsPrefixOf (before ++ laid o sent v p)
        (before ++ merge o sent v (map taken v.members)) }
{}

/// Where an age starts soundly, a history that has come to a place of a view is in that view and in
/// order. Of two such histories, of which the one in an earlier view has passed no place that is cut
/// off there, one is a prefix of the other, and both have the same past at each View. Such a history
/// stays when more is sent. It is no longer than the first entries, one View for each later view, and
/// the messages of the script.
pub fn course_laws()
    ensures order { (o : Opening) (sent : Sent) (endings : ViewEnds) (v p : ℕ)
        → Sound o → MayReach o sent endings v p → InOrder o sent (course o sent endings v p) }
    ensures view { (o : Opening) (sent : Sent) (endings : ViewEnds) (v p : ℕ)
        → Sound o → MayCome o sent endings v
        → view_of (course o sent endings v p) ≡ Some (view_in o endings v) }
    ensures either { (o : Opening) (sent : Sent) (endings : ViewEnds) (v p u q : ℕ)
        → IsUncut o endings v p u → IsUncut o endings u q v
        → IsPrefixOf (course o sent endings v p) (course o sent endings u q)
        ⊎ IsPrefixOf (course o sent endings u q) (course o sent endings v p) }
    ensures past { (o : Opening) (sent : Sent) (endings : ViewEnds) (v p u q : ℕ)
        → Sound o → MayReach o sent endings v p → MayReach o sent endings u q
        → IsUncut o endings v p u → IsUncut o endings u q v
        → SamePast (course o sent endings v p) (course o sent endings u q) }
    ensures short { (o : Opening) (sent : Sent) (endings : ViewEnds) (v p n most : ℕ)
        → Sound o → MayReach o sent endings v p
        → ((u s : ℕ) → u ≤ v → Contains (view_in o endings u).members s → s < n)
        → ((s : ℕ) → length (messages_of o s) ≤ most)
        → length (course o sent endings v p) ≤ length (first_entries o) + v + n * most }
    ensures steady { (o : Opening) (sent now : Sent) (endings : ViewEnds) (v p : ℕ)
        → SentMore sent now → ((u : ℕ) → u < v → ViewHasEnded o sent endings u)
        → HeldBelow sent (view_in o endings v) p
        → course o now endings v p ≡ course o sent endings v p }
{}

/// A history that has come to a place of a view, none that is cut off before it, comes to the whole merge
/// of what is taken of the view by the rest of the merge's places, where each adds its entry, as far as
/// its message is the next one of its sender.
pub fn rest_law()
    ensures { (o : Opening) (sent : Sent) (head : List Entry) (v : GroupView) (taken : ℕ → ℕ)
        → (p : ℕ) (add : List Entry → ℕ → List Entry)
        → EndsWithView head v → GoesOn o sent head v → p ≤ front_of (map taken v.members)
        → ((q : ℕ) (h : List Entry) → is_held (map taken v.members) q ≡ true
        → ((s i : ℕ) → item_at sent v q ≡ Some (s, Index i) → i ≡ length (messages_from s h))
        → add h q ≡ h ++ option_to_list (entry_at o sent v q))
        → fold add (head ++ laid o sent v p) (rest_places (map taken v.members) p)
        ≡ head ++ merge o sent v (map taken v.members) }
{}

/// Where an age starts soundly, what every history of it begins with is in order, whatever is sent.
/// It ends with View 0, whose members are all of the roster where nobody is missing and nobody is late. And the start
/// is short: an age has at most 256 views, and a member at most 4096 messages.
pub fn opening_laws()
    ensures order { (o : Opening) (sent : Sent) → Sound o → InOrder o sent (first_entries o) }
    ensures view { (o : Opening) → EndsWithView (first_entries o) (first_view o) }
    ensures members { (o : Opening) → o.members ≡ whole_roster o → length o.messages ≤ 16
        → members_of o.members ≡ range_with_len 0 (length o.messages) }
    ensures short { (o : Opening) → Sound o → o.age < 2 ^ 16
        → 1 ≤ length o.messages → length o.messages ≤ 16
        → ((s : ℕ) → length (messages_of o s) ≤ 4096) → length o.start < 2 ^ 31 }
{}

/// Where an age starts soundly, two histories in order, one of them a prefix of the other, have the
/// same past at each View that both hold.
pub fn agreement_law()
    ensures { (o : Opening) (sent : Sent) (g h : List Entry)
        → Sound o → InOrder o sent g → InOrder o sent h
        → IsPrefixOf g h ⊎ IsPrefixOf h g → SamePast g h }
{}
