//! Laws of what is laid.
ghost use Rattle.std.specs.Prelude.{◌≡◌, ◌≤◌, ◌+◌, ◌++◌, ℕ, List, option_to_list};
ghost use Rattle.dr_entry.specs.declared.entry.Entry.{Entry};
ghost use Rattle.dr_history.specs.{History.{IsPrefixOf, GroupView, Sent, merge}, declared.opening.Opening.Opening};
ghost use Rattle.dr_history_laws.specs.Laid.{entry_at, laid, HeldBelow, EndsWithView, GoesOn, SentMoreIn, HoldsAll, counts_sent};

/// One place more adds its entry, if it has one. So of two histories that have come to different
/// places of a view one is a prefix of the other. What was laid stays when more is sent, and so do
/// places that all hold items.
pub fn laying_laws()
    ensures next { (o : Opening) (sent : Sent) (v : GroupView) (p : ℕ)
        → laid o sent v (p + 1) ≡ laid o sent v p ++ option_to_list (entry_at o sent v p) }
    ensures prefix { (o : Opening) (sent : Sent) (before : List Entry) (v : GroupView) (p q : ℕ)
        → p ≤ q → IsPrefixOf (before ++ laid o sent v p) (before ++ laid o sent v q) }
    ensures steady { (o : Opening) (sent now : Sent) (v : GroupView) (p : ℕ)
        → SentMoreIn v sent now → HeldBelow sent v p → laid o now v p ≡ laid o sent v p }
    ensures held { (sent now : Sent) (v : GroupView) (p : ℕ)
        → SentMoreIn v sent now → HeldBelow sent v p → HeldBelow now v p }
{}

/// The merge of all that the members of a view have sent in it is what is laid below some place. It
/// is what is laid so far, where the history has as many messages of each member as the script.
pub fn merge_laws()
    ensures all { (o : Opening) (sent : Sent) (v : GroupView)
        → (p : ℕ) × (merge o sent v (counts_sent sent v) ≡ laid o sent v p) }
    ensures whole { (o : Opening) (sent : Sent) (before : List Entry) (v : GroupView) (p : ℕ)
        → EndsWithView before v → GoesOn o sent before v
        → HoldsAll o v (before ++ laid o sent v p)
        → laid o sent v p ≡ merge o sent v (counts_sent sent v) }
{}
