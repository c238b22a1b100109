// The file name of a path, and its parent.
ghost use Rattle.std.specs.Prelude.{◌≡◌, ℕ, List, [], IfSome, MatchOption};
ghost use Rattle.unix_path.specs.Paths.{pieces, joined_path, Alike, FileName, Parent};

use crate::piece::last_piece;
use crate::root::is_rooted;

/// The last piece of `path`, or none where it has none or its last piece is `.` or `..`.
pub fn file_name(path: &[u8]) -> Option<&[u8]>
    ensures cases { MatchOption result ((name : List ℕ) → FileName path.now name → ⊥) (λ name. FileName path.now name.now) }
{
    let name = &path[last_piece(path)?];
    if name == b".".as_slice() || name == b"..".as_slice() {
        return None;
    }
    Some(name)
}

/// The shortest front of `path` that is read as all its pieces but the last, under the same root.
/// None where `path` has no piece.
pub fn parent(path: &[u8]) -> Option<&[u8]>
    ensures cases { MatchOption result (pieces path.now ≡ []) (λ p. Parent path.now p.now) }
    ensures reopens { IfSome result (λ p. (name : List ℕ) → FileName path.now name → Alike (joined_path p.now name) path.now) }
{
    let start = last_piece(path)?.start;
    let len = match last_piece(&path[..start]) {
        Some(before) => before.end,
        None => usize::from(is_rooted(path)),
    };
    Some(&path[..len])
}
