ghost use Rattle.std.specs.{Fmt.decimal, List.join_by, Prelude.{◌≡◌, ◌≢◌, ◌++◌, IfOk, OnOk, codes, string_bytes}};
ghost use Rattle.dr_shards.specs.Layout.{is_of_shard, shard_members};
ghost use Rattle.dr_text.specs.Report.{age_text};
ghost use Rattle.dr_commands.specs.ShardsLines.{shard_line, shards_text};

use dr_entry::AgeEnd;
use dr_text::{LongText, push_number};
use std::alloc::{AllocError, Global};
use std::fmt::Write;

/// What becomes of the shards of so many members, ascending: the line of each, and its age.
pub(crate) fn shards_text(
    alloc: Global,
    shards: u8,
    members: u8,
    ages: &[AgeEnd],
) -> Result<LongText, AllocError>
    requires { shards ≢ 0 }
    ensures { IfOk result (λ text. text ≡ shards_text shards members ages.now) }
{
    let mut text = LongText::new(alloc);
    for (k, age) in ages.iter().enumerate() {
        push_shard(&mut text, alloc, shards, k, members, age)?;
    }
    Ok(text)
}

/// Appends what becomes of shard `k`.
fn push_shard(
    out: &mut LongText,
    alloc: Global,
    shards: u8,
    k: usize,
    members: u8,
    age: &AgeEnd,
) -> Result<(), AllocError>
    requires { shards ≢ 0 }
    ensures { OnOk result (out.new ≡ out.old ++ (shard_line shards members k ++ age_text age.now)) }
{
    out.push_string(alloc, line_of(alloc, shards, k, members)?)?;
    out.push_age_text(alloc, age)
}

/// The line of shard `k`.
fn line_of(alloc: Global, shards: u8, k: usize, members: u8) -> Result<String, AllocError>
    requires { shards ≢ 0 }
    ensures { IfOk result (λ line. string_bytes line ≡ shard_line shards members k) }
{
    let mut line = String::new(alloc);
    write!(line, "shard {k} of {shards} members ")?;
    push_members(&mut line, shards, k, members)?;
    line.push_str("\n")?;
    Ok(line)
}

/// Appends the numbers of the members of shard `k`, ascending, with commas between them.
fn push_members(out: &mut String, shards: u8, k: usize, members: u8) -> Result<(), AllocError>
    requires { shards ≢ 0 }
    ensures { OnOk result (string_bytes out.new
        ≡ string_bytes out.old ++ join_by decimal (codes ",") (shard_members shards k members)) }
{
    let mut first = true;
    for member in 0..members {
        if is_of_shard(shards, k, member) {
            push_number(out, first, member)?;
            first = false;
        }
    }
    Ok(())
}

/// Whether a member is in shard `k`.
fn is_of_shard(shards: u8, k: usize, member: u8) -> bool
    requires { shards ≢ 0 }
    ensures { result ≡ is_of_shard shards k member }
{
    usize::from(member % shards) == k
}
