//! What keeps a replica's form: each step that a member may take keeps it, and lets no word fall.
//!
//! The form stands in `dr_program`, with the steps. The laws are of these definitions alone, so they serve
//! the code of a replica and the laws of programs alike.
#![tactic(auto)]

ghost use Rattle.std.specs.Prelude.{◌≡◌, ℕ, true, false, List, None};
ghost use Rattle.dr_entry.specs.declared.entry.Entry.{Entry};
ghost use Rattle.dr_machine.specs.declared.step.Step.{Step};
ghost use Rattle.dr_program.specs.{Form.HasForm, Replica.{Replica, is_inside, joined}};
ghost use Rattle.dr_program.specs.Steps.{AtLook, NoWordFell, may_take, stepped};
ghost use Rattle.dr_form.specs.Letters.{IsFitting};
ghost use Rattle.dr_rows.specs.Words.{seen};
ghost use Rattle.dr_words.specs.{Form.IsInForm, Grown.HasGrown};

/// A step that a member may take keeps the form of its replica, where a look finds a word in form. No word
/// falls by a step with which the member stays in its view, where a look finds a word that has grown. A member that
/// hasn't joined keeps its form as it joins by a letter that fits it.
pub fn steps_keep_the_form()
    ensures form { (word : ℕ) (r : Replica) (s : Step) → HasForm r → may_take r s ≡ true
        → AtLook s (λ i c. IsInForm r.roster c word) → HasForm (stepped word r s) }
    ensures grown { (word : ℕ) (r : Replica) (s : Step) → HasForm r → may_take r s ≡ true
        → AtLook s (λ i c. HasGrown r.roster c (seen r.rows i c) word)
        → (stepped word r s).view ≡ r.view → NoWordFell r (stepped word r s) }
    ensures joins { (r : Replica) (letter : List Entry) → HasForm r → is_inside r ≡ false → r.pending ≡ None
        → IsFitting r letter → HasForm (joined r letter) }
{}
