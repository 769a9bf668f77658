//! Laws of ages that follow one another.
ghost use Rattle.std.specs.Prelude.{◌≡◌, ◌<◌, ◌≤◌, ◌+◌, ◌*◌, ℕ, List, length, take};
ghost use Rattle.dr_entry.specs.declared.entry.Entry.{Entry};
ghost use Rattle.dr_history.specs.{Agreement.{Accounts, Agreed}, History.{IsPrefixOf, Sent, messages_of, view_of}};
ghost use Rattle.dr_history.specs.Order.{InOrder, first_entries};
ghost use Rattle.dr_history.specs.Restarting.{AllStand, AreAllAlong, AreLeftBy, AreSound, IsLongest, Kept, next_age};
ghost use Rattle.dr_history.specs.{Soundness.{IsPresentIn, Sound}, declared.opening.Opening.Opening};
ghost use Rattle.dr_history_laws.specs.Parts.{AreFirstParts};

/// A later age that starts with the longest of the logs that the members of an age leave keeps what
/// that age has delivered durably. An age whose sound start holds what another began with is a later
/// one. And what an age has kept stays in every age that starts with more.
pub fn restarting_laws()
    ensures kept { (o next : Opening) (accounts : Accounts) (lists : List (List Entry))
        → Agreed o accounts → AreLeftBy o accounts lists → IsLongest lists next.start
        → o.age < next.age → Kept o accounts next }
    ensures later { (o next : Opening) → Sound next → IsPrefixOf (first_entries o) next.start
        → o.age < next.age }
    ensures stays { (o next last : Opening) (accounts : Accounts) (i : ℕ) → Kept o accounts next
        → IsPrefixOf next.start last.start → IsPresentIn o i
        → IsPrefixOf (take (accounts i).durable (accounts i).history) last.start }
{}

/// Each entry of a history in order may stand behind those before it, where the age starts soundly. So lists
/// that hold first parts of the histories of an age are good for each age of the same script: no entry of
/// them is foreign, and of any two one is a prefix of the other. The logs that the members leave are such
/// lists. Entries that may stand are few: an age has at most 256 views, and a member at most 4096 messages
/// over all ages.
pub fn standing_laws()
    ensures stand { (o : Opening) (sent : Sent) (h : List Entry) → Sound o → InOrder o sent h
        → AllStand o h }
    ensures sound { (o next : Opening) (accounts : Accounts) (lists : List (List Entry)) → Sound o
        → Agreed o accounts → AreFirstParts o accounts lists → o.messages ≡ next.messages
        → AreSound next lists }
    ensures along { (o : Opening) (accounts : Accounts) (lists : List (List Entry))
        → Agreed o accounts → AreFirstParts o accounts lists → AreAllAlong lists }
    ensures left { (o : Opening) (accounts : Accounts) (lists : List (List Entry))
        → Agreed o accounts → AreLeftBy o accounts lists → AreFirstParts o accounts lists }
    ensures short { (o : Opening) (es : List Entry) → AllStand o es → 1 ≤ length o.messages
        → length o.messages ≤ 16 → ((s : ℕ) → length (messages_of o s) ≤ 4096)
        → length es ≤ 256 * next_age (view_of es) + 16 * 4096 }
{}
