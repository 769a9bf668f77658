//! The paths of a folder's files.

ghost use Rattle.std.specs.{Path.{slash, with_separator}, Prelude.{◌≡◌, IfSome, if◌then◌else◌, ◌++◌, ◌∷◌, []}};
ghost use Rattle.dr_yard.specs.Files.{path_in};

use arrayvec::ArrayString;
use std::fmt::Write;

/// How many bytes the path of a file may have. The system opens none whose path has more.
const MAX_PATH: usize = 4096;

/// The path of the log of a member, unless it is too long.
pub fn path_of(folder: &str, member: u8) -> Option<ArrayString<MAX_PATH>>
    ensures { IfSome result (λ path. path.bytes ≡ path_in folder.now member) }
{
    let mut path = before_name(folder)?;
    match write!(path, "member-{member}.log") {
        Ok(()) => Some(path),
        Err(_) => None,
    }
}

/// The path of a file of this name, unless it is too long.
pub(crate) fn path_to(folder: &str, name: &str) -> Option<ArrayString<MAX_PATH>>
    ensures { IfSome result (λ path. path.bytes ≡ with_separator folder.now ++ name.now) }
{
    let mut path = before_name(folder)?;
    path.try_push_str(name).ok()?;
    Some(path)
}

/// The name by which a folder itself is opened.
pub(crate) fn in_folder(folder: &str) -> &str {
    if folder.is_empty() { "." } else { folder }
}

/// A folder, with a slash behind it where a name needs one, unless that is too long.
fn before_name(folder: &str) -> Option<ArrayString<MAX_PATH>>
    ensures { IfSome result (λ path. path.bytes ≡ with_separator folder.now) }
{
    let mut path = ArrayString::from(folder).ok()?;
    if !takes_name(folder.as_bytes()) {
        path.try_push_str("/").ok()?;
    }
    Some(path)
}

/// Whether a name may stand right behind a folder: behind none, or behind a slash.
fn takes_name(folder: &[u8]) -> bool
    ensures { with_separator folder.now ≡ (if result then folder.now else folder.now ++ slash ∷ []) }
{
    folder.is_empty() || folder[folder.len() - 1] == b'/'
}
