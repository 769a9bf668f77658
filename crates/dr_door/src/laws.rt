//! The laws of the doors of a group.
ghost use Rattle.std.specs.Prelude.{◌≡◌, ◌≢◌, ℕ, ◌<◌, ◌≤◌, Contains, List, length, map, None, slice_index, Some, true};
ghost use Rattle.dr_door.specs.Apart.{Apart, ApartStep, AreCopies, HaveBegunApart, HaveOpenedApart, IsRanApart, members_of_doors, with_door};
ghost use Rattle.dr_door.specs.{Coming.{copy_of, refusal}, Letters.Suits, Lone.{Leads, Lone, done_alone}};
ghost use Rattle.dr_door.specs.Sending.{last_sent_by};
ghost use Rattle.dr_entry.specs.declared.entry.Entry.{Entry};
ghost use Rattle.dr_history.specs.{Agreement.EndsAgreed, History.IsPrefixOf};
ghost use Rattle.dr_machine.specs.Group.{IsGroup};
ghost use Rattle.dr_member.specs.Deeds.{is_before_turn};
ghost use Rattle.dr_program.specs.declared.deed.Deed.TheVariants as deeds;
ghost use Rattle.dr_program.specs.{Presence.present_at, Program.{Program, end_at}, Running.next_deed};
ghost use Rattle.dr_program.specs.declared.packet.Packet.{Packet};
ghost use Rattle.dr_program_laws.specs.Carried.{IsCarried};
ghost use Rattle.dr_restart.specs.{Groups.{first_group_of, first_start_of, group_of}, declared.start.Start.Start};
ghost use Rattle.dr_script.specs.declared.script.Script.{Script};

/// The doors of a group, one for each member, open as an age does. Each does its deeds, at any time; what one pushes
/// is sent; packets that were sent come to doors, in any order, at any time, more than once, or never, and to
/// whomever; and a letter that was given comes to the member that it is for, or is lost. Then their members are at
/// each moment those of a program whose words are carried: it is in a world that is reached, what each door has of the
/// words is what this program's table has, and the histories agree. And no packet that was sent is refused by the door
/// of the member that it was sent to, nor a letter by the one that it was given for, which asks for it.
pub fn doors_keep_programs()
    ensures agree { (script : Script) (start : Start) (nth : ℕ) (begun a : Apart)
        → IsGroup (group_of script start) → length script.messages ≡ script.members → 1 ≤ script.turns
        → HaveBegunApart script start nth begun → IsRanApart begun a
        → EndsAgreed (group_of script start).opening (map end_at (members_of_doors a.doors)) }
    ensures carried { (script : Script) (start : Start) (nth : ℕ) (begun a : Apart)
        → IsGroup (group_of script start) → length script.messages ≡ script.members → 1 ≤ script.turns
        → HaveBegunApart script start nth begun → IsRanApart begun a
        → (p : Program) × IsCarried (group_of script start) p a.sent
        × (p.members ≡ members_of_doors a.doors) × AreCopies (group_of script start) a.doors p.table }
    ensures welcome { (script : Script) (start : Start) (nth : ℕ) (begun a : Apart)
        → IsGroup (group_of script start) → length script.messages ≡ script.members → 1 ≤ script.turns
        → HaveBegunApart script start nth begun → IsRanApart begun a
        → (m : ℕ) (d : Lone) (packet : Packet) → present_at a.doors m ≡ Some d → Contains a.sent packet
        → copy_of script.members script.window packet.index ≡ m → refusal d packet.index packet.word ≡ None }
    ensures invited { (script : Script) (start : Start) (nth : ℕ) (begun a : Apart)
        → IsGroup (group_of script start) → length script.messages ≡ script.members → 1 ≤ script.turns
        → HaveBegunApart script start nth begun → IsRanApart begun a
        → (m : ℕ) (d : Lone) (entries : List Entry) → present_at a.doors m ≡ Some d
        → next_deed d.member ≡ deeds.Take → Contains a.letters (record { to = m; entries = entries })
        → Suits d.member.replica entries }
{}

/// What a door has in the room for the copies of others is what it has sent them last: so what `Door::again` tells was
/// sent, and is all that is worth sending once more.
pub fn doors_keep_what_they_send()
    ensures { (script : Script) (start : Start) (nth : ℕ) (begun a : Apart)
        → IsGroup (group_of script start) → length script.messages ≡ script.members → 1 ≤ script.turns
        → HaveBegunApart script start nth begun → IsRanApart begun a
        → (m : ℕ) (d : Lone) (index : ℕ) → present_at a.doors m ≡ Some d → index < length d.words
        → copy_of script.members script.window index ≢ m
        → slice_index d.words index ≡ last_sent_by script.members script.window m a.sent index }
{}

/// Doors that were opened one by one over the same bytes, one for each member of the script that they are, are such
/// doors of its new group, as its first age opens.
pub fn opened_doors_have_begun()
    ensures { (bytes : List ℕ) (script : Script) (a : Apart) → HaveOpenedApart bytes script a
        → IsGroup (first_group_of script) × (length script.messages ≡ script.members) × (1 ≤ script.turns)
        × HaveBegunApart script (first_start_of script) 0 a }
{}

/// What `Door::go` does, and the beginning of a turn, are such steps. Each other call of a door is one, or none.
pub fn doors_go_by_steps()
    ensures led { (a : Apart) (m : ℕ) (d e : Lone) → present_at a.doors m ≡ Some d → Leads d e
        → IsRanApart a (with_door a m e) }
    ensures turn { (a : Apart) (m : ℕ) (d : Lone) → present_at a.doors m ≡ Some d
        → is_before_turn d.member ≡ true → ApartStep a (with_door a m (done_alone d)) }
{}

/// No door takes anything back: its history at one moment is a front part of its history at each later one, or all of
/// it, and it reports no fewer entries durable then.
pub fn doors_never_take_back()
    ensures { (script : Script) (start : Start) (nth : ℕ) (begun a later : Apart)
        → IsGroup (group_of script start) → length script.messages ≡ script.members → 1 ≤ script.turns
        → HaveBegunApart script start nth begun → IsRanApart begun a → IsRanApart a later
        → (m : ℕ) (d e : Lone) → present_at a.doors m ≡ Some d → present_at later.doors m ≡ Some e
        → IsPrefixOf d.member.replica.history e.member.replica.history
        × (d.member.replica.durable ≤ e.member.replica.durable) }
{}
