//! Laws of the worlds whose members are faithful.
ghost use Rattle.std.specs.Prelude.{◌≡◌, ◌≢◌, ◌<◌, true, ℕ, List, [], ◌∷◌};
ghost use Rattle.dr_history.specs.Members.{has};
ghost use Rattle.dr_machine.specs.{Acts.{Guard, effect}, Group.{Group, IsGroup, roster}, Guards.unsuspected_of};
ghost use Rattle.dr_machine.specs.Run.{HaveArrived, NoLaterItem, PastGrew, WordsGrew, with_table};
ghost use Rattle.dr_machine.specs.{World.{Table, World, opening_world}, declared.event.Event.Event};
ghost use Rattle.dr_faithful.specs.{Faithful.{AllGoOn, Faithful, HasNoOutsiders}, Late.AreBacked};
ghost use Rattle.dr_faithful.specs.Tells.{SuspicionsTold, Views};
ghost use Rattle.dr_words.specs.Masks.{IsLeastOf};

/// The members are faithful as the age opens, and each event keeps them so, as far as a member that
/// ends its view goes on as it should: what a member has of another, and what a word says of its
/// owner, is true.
pub fn members_are_faithful()
    ensures begins { (g : Group) (V : Views) → IsGroup g → V 0 ≡ g.opening.members
        → ((v m : ℕ) → has (V v) m ≡ true → m < roster g) → Faithful g V (opening_world g) }
    ensures keeps { (g : Group) (V : Views) (w : World) (e : Event) → IsGroup g → AllGoOn g V w
        → Guard g w e → Faithful g V w → Faithful g V (effect g w e) }
{}

/// Words that arrive late do no harm. What is true of the words on their way is so as the age opens, and each
/// event keeps it, where the members are faithful; then the arrival of any of them keeps both.
pub fn late_words_do_no_harm()
    ensures begins { (g : Group) (V : Views) → AreBacked g V [] (opening_world g) }
    ensures keeps { (g : Group) (V : Views) (before : List World) (w : World) (e : Event) → IsGroup g
        → AllGoOn g V w → Guard g w e → Faithful g V w → AreBacked g V before w
        → AreBacked g V (w ∷ before) (effect g w e) }
    ensures arrive { (g : Group) (V : Views) (before : List World) (w : World) (table : Table)
        → Faithful g V w → HaveArrived (w ∷ before) w table → AreBacked g V before w
        → Faithful g V (with_table w table) × AreBacked g V (w ∷ before) (with_table w table)
        × WordsGrew g w (with_table w table) }
{}

/// No event brings a word of a member that is none of the view to another copy than its own. (A word that arrives
/// late may be any that its owner had, also one that it brought to nobody: so this is said of events alone.)
pub fn outsiders_stay_home()
    ensures begins { (g : Group) (V : Views) → HasNoOutsiders V (opening_world g).table }
    ensures keeps { (g : Group) (V : Views) (w : World) (e : Event) → Guard g w e → Faithful g V w
        → HasNoOutsiders V w.table → HasNoOutsiders V (effect g w e).table }
{}

/// Where the members are faithful each word tells truly whom its owner suspects, which of its counts are
/// final, and for whose proposal it waits. A member that suspects somebody waits for the least member of
/// its view that it doesn't suspect.
pub fn suspicions_are_told()
    ensures words { (g : Group) (V : Views) (w : World) → Faithful g V w → SuspicionsTold g w }
    ensures promise { (g : Group) (V : Views) (w : World) (m : ℕ) → IsGroup g → Faithful g V w
        → w.suspects m ≢ 0 → IsLeastOf (unsuspected_of w m) (w.promise m) }
{}

/// No event makes a word fall: own words, those in the table and those that were seen only grow, while
/// their member stays in its view.
pub fn words_grow()
    ensures { (g : Group) (V : Views) (w : World) (e : Event) → IsGroup g → AllGoOn g V w
        → Guard g w e → Faithful g V w → WordsGrew g w (effect g w e) }
{}

/// Nothing that was done is undone: counts of items, what was put, histories, logs, votes, durable counts
/// and numbers of acts only grow.
pub fn pasts_grow()
    ensures { (g : Group) (V : Views) (w : World) (e : Event) → IsGroup g → AllGoOn g V w
        → Guard g w e → Faithful g V w → PastGrew w.past (effect g w e).past }
{}

/// A member that waits for an item never finds a later one in its slot.
pub fn no_later_item()
    ensures { (g : Group) (V : Views) (w : World) → IsGroup g → Faithful g V w → NoLaterItem g w }
{}
