//! What is to become of a member: by its script, and by its log.
ghost use Rattle.std.specs.Prelude.{◌≡◌, ◌^◌, ◌<◌, None};
ghost use Rattle.dr_program.specs.{Running.{crashes_in_turn, crashes_now, end_by}, declared.place.Place.Place};
ghost use Rattle.dr_member.specs.Fate.{IsTimely, first_push, is_push_now, renewed, turned, with_point};
ghost use Rattle.dr_member.specs.Search.{standing};

use dr_entry::{End, Seq};
use dr_program::{CrashPoint, LogWhy, Suspicion};
use dr_replica::Replica;
use dr_suspect::Patience;

/// What the script has in store for a member, how far it has come in this turn, and whether its log has
/// failed.
#[derive(Drop)]
pub(crate) struct Fate {
    /// The turns after which it ends.
    pub limit: u32,
    /// How long it has waited for news of the other members, and how long it does before it suspects one.
    pub waits: Patience,
    /// The points at which it crashes.
    pub crashes: Seq<CrashPoint>,
    /// Whom it suspects, and in which turns.
    pub suspicions: Seq<Suspicion>,
    /// The pushes that it has done in this turn.
    pub pushes: u32,
    /// The least push of this turn at which it crashes, if at any.
    pub crash: Option<u32>,
    /// Why an append to its log failed, if one did.
    pub failed: Option<LogWhy>,
}

impl Fate {
    /// What a script has in store for a member, before its first turn.
    pub(crate) fn begin(
        limit: u32,
        waits: Patience,
        crashes: Seq<CrashPoint>,
        suspicions: Seq<Suspicion>,
    ) -> Fate
        ensures begun { result ≡ record {
          limit = limit;
          waits = waits;
          crashes = crashes;
          suspicions = suspicions;
          pushes = 0;
          crash = first_push 0 crashes;
          failed = None;
        } }
        ensures small { result.limit < 2 ^ 32 }
    {
        let crash = first_push(crashes.as_slice(), 0);
        Fate {
            limit,
            waits,
            crashes,
            suspicions,
            pushes: 0,
            crash,
            failed: None,
        }
    }

    /// Whether the member crashes just before its next push.
    #[inline]
    pub(crate) fn crashes_now(&self) -> bool
        ensures { (replica : Replica) → (place : Place) → IsTimely self.now replica.turns
            → result ≡ crashes_now (standing replica self.now place) }
    {
        is_push_now(self.pushes, self.crash)
    }

    /// Whether the member crashes in this turn.
    pub(crate) fn crashes_in_turn(&self) -> bool
        ensures { (replica : Replica) → (place : Place) → IsTimely self.now replica.turns
            → result ≡ crashes_in_turn (standing replica self.now place) }
    {
        self.crash.is_some()
    }

    /// A turn begins. The script's points of that turn are sought among all of them.
    pub(crate) fn begin_turn(&mut self, turn: u32)
        ensures { self.new ≡ turned self.old turn }
    {
        self.pushes = 0;
        self.crash = first_push(self.crashes.as_slice(), turn);
    }

    /// A view begins, in which it waits anew.
    pub(crate) fn begin_view(&mut self)
        ensures { self.new ≡ renewed self.old }
    {
        self.waits.reset();
    }
}

/// Whether a push, if there is one, is this one.
fn is_push_now(now: u32, push: Option<u32>) -> bool
    ensures { result ≡ is_push_now now push }
{
    matches!(push, Some(push) if push == now)
}

/// The least push of a turn that one of these points names, if any does.
fn first_push(points: &[CrashPoint], turn: u32) -> Option<u32>
    ensures { result ≡ first_push turn points.now }
{
    points
        .iter()
        .fold(None, |first, point| with_point(first, *point, turn))
}

/// The least push of a turn, with one point more.
fn with_point(first: Option<u32>, point: CrashPoint, turn: u32) -> Option<u32>
    ensures { result ≡ with_point turn first point }
{
    match first {
        _ if point.turn != turn => first,
        Some(push) if push <= point.push => first,
        _ => Some(point.push),
    }
}

/// The end of a member whose log failed so.
pub(crate) fn end_by(why: LogWhy) -> End
    ensures { result ≡ end_by why }
{
    match why {
        LogWhy::DiskFault => End::DiskFault,
        LogWhy::LogFull { len } => End::LogFull { len },
    }
}
