//! Laws of the turn.
ghost use Rattle.std.specs.Prelude.{◌≡◌, ℕ, ◌^◌, ◌<◌, ◌≤◌, List, Option, None, is_some, false, true};
ghost use Rattle.dr_entry.specs.declared.entry.Entry.{Entry};
ghost use Rattle.dr_program.specs.Form.{HasForm, IsRunningMember};
ghost use Rattle.dr_program.specs.Running.{Running, after_step, applies, broken_off, next_step, settled, took, took_letter, AsksForLetter};
ghost use Rattle.dr_program.specs.{Steps.{AtLook, IsAppend}, declared.outcome.LogWhy.LogWhy};
ghost use Rattle.dr_rows.specs.Words.{is_frozen};
ghost use Rattle.dr_turn.specs.{Search.{IsUnderway, Passed}, Work.{HasGrownTo, IsAfterDeed, LeadsOn, deeds_left}};

/// The search leads to the first place of the turn, from where the member stands, at which there is
/// something to do. It changes nothing else, and leaves no more deeds to do. A member that has ended
/// stays where it is.
pub fn the_search_goes_to_the_next_place()
    ensures first { (r : Running) → Passed r r.place (settled r).place }
    ensures due { (r : Running) → IsUnderway r → r.replica.end ≡ None
        → applies (settled r) (settled r).place ≡ true }
    ensures rests { (r : Running) → is_some r.replica.end ≡ true → settled r ≡ r }
    ensures form { (r : Running) → IsUnderway r → IsRunningMember (settled r) }
    ensures only { (r : Running) → settled r ≡ record r { place = (settled r).place } }
    ensures less { (r : Running) → IsUnderway r → deeds_left (settled r) ≤ deeds_left r }
{}

/// A running member stays one over each of its deeds, where its replica keeps its form. Where also no
/// word falls and its turns are 32 bits, it then has fewer deeds to do. An append that fails is such a
/// deed too. So is a take, by which a member joins where it finds a letter.
pub fn deeds_keep_members()
    ensures form { (word : ℕ) (r : Running) → IsRunningMember r → r.replica.end ≡ None
        → HasForm (took word r (next_step r)).replica → IsRunningMember (after_step word r) }
    ensures done { (word : ℕ) (r : Running) → IsRunningMember r → r.limit < 2 ^ 32 → r.replica.end
        ≡ None
        → HasForm (took word r (next_step r)).replica → HasGrownTo r (took word r (next_step r))
        → IsAfterDeed r (after_step word r) }
    ensures took_form { (letter : Option (List Entry)) (r : Running) → IsRunningMember r → AsksForLetter r
        → HasForm (took_letter letter r).replica
        → IsRunningMember (settled (took_letter letter r)) }
    ensures took_done { (letter : Option (List Entry)) (r : Running) → IsRunningMember r → AsksForLetter r
        → HasForm (took_letter letter r).replica → LeadsOn letter
        → IsAfterDeed r (settled (took_letter letter r)) }
    ensures failed_form { (why : LogWhy) (r : Running) → IsRunningMember r → r.replica.end ≡ None
        → IsAppend (next_step r) → IsRunningMember (broken_off why r) }
    ensures failed_done { (why : LogWhy) (r : Running) → IsRunningMember r → r.replica.end ≡ None
        → IsAppend (next_step r) → IsAfterDeed r (broken_off why r) }
{}

/// No member's next deed is a look at a row that is frozen for it.
pub fn frozen_rows_are_not_read()
    ensures { (r : Running) → IsRunningMember r → r.replica.end ≡ None
        → AtLook (next_step r) (λ i c. is_frozen r.replica.rows i ≡ false) }
{}
