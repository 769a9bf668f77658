//! Laws of what is sent.
ghost use Rattle.std.specs.Prelude.{◌≡◌, ◌≤◌, ℕ, List, [], length, map, Contains};
ghost use Rattle.dr_entry.specs.declared.{end.SentItem.SentItem, entry.Entry.Entry};
ghost use Rattle.dr_history.specs.{History.{GroupView, Sent}, Places.front_of, declared.opening.Opening.Opening};
ghost use Rattle.dr_history_laws.specs.Laid.{HeldBelow, GoesOn, MayBeNext, SendsNext};

/// The messages of a view in which nothing is sent yet go on from every history, and they do so
/// still when a member sends a null or its next message. Where no more items of each member were
/// received than it sent, the places below the front of those received hold items.
pub fn sending_laws()
    ensures none { (o : Opening) (sent : Sent) (h : List Entry) (v : GroupView)
        → ((s : ℕ) → Contains v.members s → sent s v.number ≡ []) → GoesOn o sent h v }
    ensures next { (o : Opening) (sent now : Sent) (h : List Entry) (v : GroupView) (s : ℕ)
        → (item : SentItem)
        → GoesOn o sent h v → SendsNext v s item sent now → MayBeNext o sent h v s item
        → GoesOn o now h v }
    ensures held { (sent : Sent) (v : GroupView) (received : ℕ → ℕ) (p : ℕ)
        → ((s : ℕ) → Contains v.members s → received s ≤ length (sent s v.number))
        → p ≤ front_of (map received v.members) → HeldBelow sent v p }
{}
