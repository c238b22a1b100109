// Where a byte stands in a slice.
ghost use Rattle.std.specs.Prelude.{◌≡◌, length, MatchOption};
ghost use Rattle.byte_parts.specs.Places.{Lacks, First, Last};
ghost use Rattle.byte_parts.specs.Spans.{stands};

use crate::span::{Span, part};

/// The first place of `b` in `bytes`, or none where it does not stand there.
pub fn find_byte(bytes: &[u8], b: u8) -> Option<usize>
    ensures cases { MatchOption result (Lacks b bytes.now (length bytes.now)) (First b bytes.now) }
{
    bytes.iter().position(|x| *x == b)
}

// A function for each direction: std has them as two methods.
/// The last place of `b` in `bytes`, or none where it does not stand there.
pub fn find_last_byte(bytes: &[u8], b: u8) -> Option<usize>
    ensures cases { MatchOption result (Lacks b bytes.now (length bytes.now)) (Last b bytes.now) }
{
    bytes.iter().rposition(|x| *x == b)
}

/// Whether `text` stands in `bytes` from `place` on.
pub fn stands_at(bytes: &[u8], place: usize, text: &[u8]) -> bool
    ensures value { result ≡ stands bytes.now place text.now }
{
    let len = text.len();
    part(bytes, Span { place, len }).is_some_and(|there| there == text)
}
