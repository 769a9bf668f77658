//! Laws of groups that lose nothing.
ghost use Rattle.std.specs.Prelude.{◌≡◌, ℕ, ◌+◌, ◌*◌, ◌^◌, ◌<◌, ◌≤◌, ◌++◌, List, [], length, map, slice_get, Some, Option};
ghost use Rattle.dr_complete.specs.{Reached.{AllShowDone, RingsKeep, SeesSlot}, Time.{AllLenient, HasTime}};
ghost use Rattle.dr_entry.specs.declared.{end.{End.TheVariants.Done, MemberEnd.MemberEnd}, entry.Entry.Entry};
ghost use Rattle.dr_history.specs.{Agreement.accounts_of, Order.first_entries, Restarting.{AreLeftBy, IsLongest}};
ghost use Rattle.dr_history.specs.{Soundness.IsNobodyLate, declared.opening.Opening.Opening};
ghost use Rattle.dr_history_laws.specs.Remaining.{messages_left, remaining};
ghost use Rattle.dr_machine.specs.{Group.{AllPresent, Group, IsGroup, roster}, Guards.{IsInView, IsOther, seen_slot}};
ghost use Rattle.dr_machine.specs.{Run.IsReached, World.{World, items_received}};
ghost use Rattle.dr_program.specs.{Presence.present_at, Schedule.IsLockstep, declared.setup.Setup.Setup};
ghost use Rattle.dr_program.specs.Program.{AllOk, AreSetups, Move, Program, begun_program, end_at};
ghost use Rattle.dr_program_laws.specs.Ended.{AreComplete, IsComplete};
ghost use Rattle.dr_restart.specs.{Groups.group_of, Setups.IsBegun, declared.start.Start.Start};
ghost use Rattle.dr_script.specs.{Ranges.HasRanges, declared.script.Script.Script};
ghost use Rattle.dr_ring.specs.Slots.{IsReady};

/// In every world that is reached the ring of each member has the pieces of every item that it has put,
/// or of later ones in their place.
pub fn rings_keep_their_items()
    ensures { (g : Group) (w : World) → IsGroup g → IsReached g w → RingsKeep g w.past }
{}

/// In every world that is reached a member that is in its view and has seen the slot of a sender's next item as it
/// stands, and finds no item ready there, has all that the sender has put.
pub fn nothing_ready_is_overlooked()
    ensures { (g : Group) (w : World) (m s : ℕ) → IsGroup g → IsReached g w
        → IsInView w m → IsOther w m s → SeesSlot g w m s
        → ¬ IsReady (items_received w m s) (seen_slot g w m s (items_received w m s))
        → items_received w m s ≡ w.past.count s (w.past.view m) s }
{}

/// In every world that is reached in which some member has ended as done, all members of its view show done
/// in it.
pub fn all_show_done_where_one_has_ended()
    ensures { (g : Group) (w : World) (m : ℕ) → IsGroup g → IsReached g w
        → w.end m ≡ Some Done → AllShowDone w (w.past.view m) (w.members m) }
{}

/// In lockstep, with every patience that lasts for three turns, where all of the roster are there, nobody is late,
/// no member is to crash or to suspect anybody by its setup and all appends go well, no member has more than `most`
/// messages left, and each may take three turns for each of these and three more, every member ends as done. Its
/// history is the start, View 0, and the merge of all that the start leaves, and all of it is logged and durable.
pub fn lockstep_completes()
    ensures { (g : Group) (limit most : ℕ) (setups : List (Option Setup)) (es : List Move) (p : Program)
        → IsGroup g → AllPresent g → IsNobodyLate g.opening → AreSetups g limit setups
        → ((m : ℕ) (s : Setup) → present_at setups m ≡ Some s → s.crashes ≡ []) → AllLenient setups
        → ((s : ℕ) → messages_left g.opening s ≤ most) → 3 * most + 3 ≤ limit → limit < 2 ^ 32
        → AllOk es → IsLockstep (begun_program g setups) es p → (m : ℕ) (e : MemberEnd)
        → slice_get (map end_at p.members) m ≡ Some e → IsComplete g.opening e }
{}

/// So do the members of a script that gives them time enough, from every sound start of the whole roster of which
/// nobody is late, where all appends go well.
pub fn scripts_complete()
    ensures { (script : Script) (start : Start) (nth : ℕ) (begun p : Program) (es : List Move)
        → IsGroup (group_of script start) → AllPresent (group_of script start)
        → IsNobodyLate (group_of script start).opening
        → HasRanges script → HasTime script → IsBegun script start nth begun → AllOk es → IsLockstep begun es p
        → AreComplete (group_of script start).opening (map end_at p.members) }
{}

/// Where all members of an age are complete, whatever they leave of their logs makes the next age start with
/// their whole history, and leaves no message to it, if it has the same members. So a member that is complete
/// there has the start and View 0, and nothing else.
pub fn complete_ages_leave_nothing()
    ensures start { (g : Group) (next : Opening) (ends : List MemberEnd) (lists : List (List Entry))
        → IsGroup g → length ends ≡ roster g → AreComplete g.opening ends
        → AreLeftBy g.opening (accounts_of ends) lists → IsLongest lists next.start
        → next.start ≡ first_entries g.opening ++ remaining g.opening }
    ensures nothing { (g : Group) (next : Opening) (ends : List MemberEnd) (lists : List (List Entry))
        → IsGroup g → length ends ≡ roster g → AreComplete g.opening ends
        → AreLeftBy g.opening (accounts_of ends) lists → IsLongest lists next.start
        → next.members ≡ g.opening.members → g.opening.messages ≡ next.messages → remaining next ≡ [] }
{}
