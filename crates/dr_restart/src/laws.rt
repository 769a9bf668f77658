//! Laws of setups.
ghost use Rattle.std.specs.Prelude.{◌≡◌, ℕ, ◌+◌, List, [], ◌∷◌, ◌++◌, length, None, Option, Some};
ghost use Rattle.dr_machine.specs.Group.{IsPresent};
ghost use Rattle.dr_script.specs.declared.script.Script.{Script};
ghost use Rattle.dr_program.specs.{Program.AreSetups, declared.setup.Setup.Setup};
ghost use Rattle.dr_restart.specs.{Groups.group_of, Setups.{AreFirstSetupsOf, AreSetupsOf, IsSetupOf}};
ghost use Rattle.dr_restart.specs.declared.start.Start.{Start};

/// Setups come one by one, with an empty place for a member that is absent; and a script, a start and the
/// number of an age leave no choice of them. Those of the whole roster are the group's, for as many turns as the script allows, where it has a list of messages
/// for each member.
pub fn setups_are_of_the_group()
    ensures none { (script : Script) (start : Start) (nth : ℕ) → AreFirstSetupsOf script start nth 0 [] }
    ensures more { (script : Script) (start : Start) (nth n : ℕ) (setups : List (Option Setup)) (s : Setup)
        → AreFirstSetupsOf script start nth n setups → IsSetupOf script start nth n s
        → AreFirstSetupsOf script start nth (n + 1) (setups ++ Some s ∷ []) }
    ensures absent { (script : Script) (start : Start) (nth n : ℕ) (setups : List (Option Setup))
        → AreFirstSetupsOf script start nth n setups → ¬ IsPresent (group_of script start) n
        → AreFirstSetupsOf script start nth (n + 1) (setups ++ None ∷ []) }
    ensures one { (script : Script) (start : Start) (nth : ℕ) (setups others : List (Option Setup))
        → AreSetupsOf script start nth setups → AreSetupsOf script start nth others → setups
        ≡ others }
    ensures all { (script : Script) (start : Start) (nth : ℕ) (setups : List (Option Setup))
        → length script.messages ≡ script.members
        → AreSetupsOf script start nth setups → AreSetups (group_of script start) script.turns setups }
{}
