// The last piece of a path, by its place.
ghost use Rattle.std.specs.Prelude.{◌≡◌, [], MatchOption};
ghost use Rattle.unix_path.specs.Paths.{later, pieces};
ghost use Rattle.unix_path.specs.LastPieces.{LastPiece};

use byte_parts::find::find_last_byte;
use std::ops::Range;

// Whether a piece behind a slash counts: it is neither empty nor `.`.
fn is_kept(piece: &[u8]) -> bool
    ensures value { result ≡ later piece.now }
{
    !piece.is_empty() && piece != b".".as_slice()
}

// Where the last piece of `path` stands, or none where it has none.
pub(crate) fn last_piece(path: &[u8]) -> Option<Range<usize>>
    ensures cases { MatchOption result (pieces path.now ≡ []) (λ p. LastPiece path.now p.start p.end) }
{
    let mut end = path.len();
    // A loop over places: `rsplit` gives the pieces without the places that a parent is cut at.
    while let Some(slash) = find_last_byte(&path[..end], b'/') {
        if is_kept(&path[slash + 1..end]) {
            return Some(slash + 1..end);
        }
        end = slash;
    }
    if end == 0 {
        return None;
    }
    Some(0..end)
}
