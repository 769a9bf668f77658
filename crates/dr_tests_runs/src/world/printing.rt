//! Worlds as lines.
ghost use Rattle.std.specs.Prelude.{◌<◌};
ghost use Rattle.dr_machine.specs.Group.{roster};
ghost use Rattle.dr_world.specs.Held.{its_group};

use dr_agree::{agree, kept};
use dr_entry::SentItem;
use dr_text::push_entry;
use dr_world::World;
use std::alloc::AllocError;
use std::fmt::Write;

/// Appends what each member of a world has, whether they agree, and whether the age keeps what it has itself.
pub(crate) fn push_world(out: &mut String, world: &World) -> Result<(), AllocError> {
    out.push_str("\n")?;
    for m in 0..world.members() {
        push_member(out, world, m)?;
    }
    let agree = agree(world);
    let kept = kept(world, world);
    write!(out, "agreed: {agree}, kept: {kept}")
}

/// Appends how far a member is, what it has put in its view, and its history.
fn push_member(out: &mut String, world: &World, m: u8) -> Result<(), AllocError>
    requires { m < roster (its_group world.now) }
{
    let logged = world.log(m).len();
    let durable = world.durable(m);
    write!(out, "member {m}: logged {logged}, durable {durable}, has")?;
    for sender in 0..world.members() {
        let count = world.received(m, sender);
        write!(out, " {count}")?;
    }
    out.push_str(", put")?;
    for item in world.sent(m) {
        match item {
            SentItem::Null => out.push_str(" -")?,
            SentItem::Index(index) => write!(out, " {index}")?,
        }
    }
    out.push_str("\n")?;
    for entry in world.history(m) {
        push_entry(out, entry)?;
    }
    Ok(())
}
