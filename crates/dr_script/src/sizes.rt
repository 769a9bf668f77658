ghost use Rattle.std.specs.Prelude.{◌≡◌, Some, None, IfOk, IfErr, OnOk};
ghost use Rattle.serde_json.specs.View.{view};
ghost use Rattle.dr_script.specs.Rules.{members_of, window_of, turns_of, patience_of, ages_of, sizes_of, size_rules, first_broken};

use crate::json::number_at;
use crate::passage::{Broken, Passage};
use dr_entry::MAX_MEMBERS;
use serde_json::Value;

/// The five numbers of a script.
#[derive(Clone, Copy)]
pub(crate) struct Sizes {
    pub(crate) members: u8,
    pub(crate) window: u8,
    pub(crate) turns: u32,
    pub(crate) patience: u32,
    pub(crate) ages: u8,
}

/// The numbers of a script, by the rules 3 to 7.
pub(crate) fn sizes_of(value: &Value) -> Result<Sizes, Broken>
    ensures kept { OnOk result (first_broken size_rules (view value.now) ≡ None) }
    ensures sizes { IfOk result (λ sizes. sizes ≡ sizes_of (view value.now)) }
    ensures broken { IfErr result
        (λ broken. first_broken size_rules (view value.now) ≡ Some broken) }
{
    Ok(Sizes {
        members: members_of(value).ok_or(Broken {
            rule: 3,
            place: Passage::Members,
        })?,
        window: window_of(value).ok_or(Broken {
            rule: 4,
            place: Passage::Window,
        })?,
        turns: turns_of(value).ok_or(Broken {
            rule: 5,
            place: Passage::Turns,
        })?,
        patience: patience_of(value).ok_or(Broken {
            rule: 6,
            place: Passage::Patience,
        })?,
        ages: ages_of(value).ok_or(Broken {
            rule: 7,
            place: Passage::Ages,
        })?,
    })
}

fn members_of(value: &Value) -> Option<u8>
    ensures { result ≡ members_of (view value.now) }
{
    let members = number_at(value, "members", 1, MAX_MEMBERS as u32)?;
    Some(members as u8)
}

fn window_of(value: &Value) -> Option<u8>
    ensures { result ≡ window_of (view value.now) }
{
    let window = number_at(value, "window", 1, 8)?;
    Some(window as u8)
}

fn turns_of(value: &Value) -> Option<u32>
    ensures { result ≡ turns_of (view value.now) }
{
    number_at(value, "turns", 1, 1_000_000)
}

fn patience_of(value: &Value) -> Option<u32>
    ensures { result ≡ patience_of (view value.now) }
{
    match number_at(value, "patience", 0, 1_000_000) {
        Some(turns) if turns == 0 || turns >= 3 => Some(turns),
        _ => None,
    }
}

fn ages_of(value: &Value) -> Option<u8>
    ensures { result ≡ ages_of (view value.now) }
{
    let ages = number_at(value, "ages", 1, 16)?;
    Some(ages as u8)
}
