//! What the accept words of a row say.
ghost use Rattle.std.specs.Prelude.{◌≡◌, ◌<◌, ◌↔◌, IsTrue};
ghost use Rattle.dr_words.specs.{Masks.IsInRoster, Packing.accept_value};
ghost use Rattle.dr_pred.specs.Group.{IsOfShape};
ghost use Rattle.dr_lead.specs.Accepts.{AllPromise, AllTag, RowShows, promise_of, tag_of, trim_word};

use dr_entry::{MAX_MEMBERS, Value};
use dr_rows::Rows;
use dr_words::{Mask, Shape, unpack_accept};

// The promise of a row.
pub(crate) fn promise(rows: &Rows, shape: &Shape, row: u8) -> u8
    requires row { row < rows.now.members }
    requires shape { IsOfShape shape.now rows.now }
    ensures value { result ≡ promise_of rows.now row }
    ensures member { result < rows.now.members }
{
    unpack_accept(rows.seen(row, shape.leavers_column())).0
}

// The tag of a row.
pub(crate) fn tag(rows: &Rows, shape: &Shape, row: u8) -> u8
    requires row { row < rows.now.members }
    requires shape { IsOfShape shape.now rows.now }
    ensures { result ≡ tag_of rows.now row }
{
    unpack_accept(rows.seen(row, shape.leavers_column())).1
}

// Whether all accept words of a view have this promise in the row.
pub(crate) fn all_promise(rows: &Rows, shape: &Shape, members: Mask, row: u8, promised: u8) -> bool
    requires row { row < rows.now.members }
    requires shape { IsOfShape shape.now rows.now }
    requires members { IsInRoster rows.now.members members }
    ensures { IsTrue result ↔ AllPromise rows.now members row promised }
{
    for sender in 0..MAX_MEMBERS as u8 {
        if members.has(sender)
            && unpack_accept(rows.seen(row, shape.trim_column(sender))).0 != promised
        {
            return false;
        }
    }
    promise(rows, shape, row) == promised
}

// Whether all accept words of a view have this tag in the row.
pub(crate) fn all_tag(rows: &Rows, shape: &Shape, members: Mask, row: u8, tagged: u8) -> bool
    requires row { row < rows.now.members }
    requires shape { IsOfShape shape.now rows.now }
    requires members { IsInRoster rows.now.members members }
    ensures { IsTrue result ↔ AllTag rows.now members row tagged }
{
    for sender in 0..MAX_MEMBERS as u8 {
        if members.has(sender)
            && unpack_accept(rows.seen(row, shape.trim_column(sender))).1 != tagged
        {
            return false;
        }
    }
    tag(rows, shape, row) == tagged
}

// The value that a row shows.
pub(crate) fn shown(rows: &Rows, shape: &Shape, members: Mask, row: u8) -> Value
    requires row { row < rows.now.members }
    requires shape { IsOfShape shape.now rows.now }
    requires members { IsInRoster rows.now.members members }
    ensures { RowShows rows.now members row result }
{
    let mut trim = [0; MAX_MEMBERS];
    for sender in 0..MAX_MEMBERS as u8 {
        if members.has(sender) {
            trim[usize::from(sender)] = trim_shown(rows, shape, row, sender);
        }
    }
    let leavers = unpack_accept(rows.seen(row, shape.leavers_column())).2;
    Value {
        leavers: leavers as u16,
        trim,
    }
}

// The trim of a sender that a row shows.
fn trim_shown(rows: &Rows, shape: &Shape, row: u8, sender: u8) -> u32
    requires row { row < rows.now.members }
    requires shape { IsOfShape shape.now rows.now }
    requires sender { sender < rows.now.members }
    ensures { result ≡ accept_value (trim_word rows.now row sender) }
{
    unpack_accept(rows.seen(row, shape.trim_column(sender))).2 as u32
}
