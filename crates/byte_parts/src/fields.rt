// Fields of a table in memory: little-endian numbers and zero-terminated strings.
ghost use Rattle.std.specs.Prelude.{◌≡◌, ℕ, ◌+◌, ◌<◌, ◌≤◌, List, length, Some, IsTrue, ◌↔◌, MatchOption, slice_index};
ghost use Rattle.std.specs.Option.{option_map};
ghost use Rattle.byte_parts.specs.Fields.{bytes_in, little_endian, StringAt, StringsEnd, string_in, strings_end};

use crate::find::{find_byte, find_last_byte, stands_at};

/// How many bytes an address takes.
#[derive(Clone, Copy)]
pub enum Width {
    /// Four bytes.
    Four,
    /// Eight bytes.
    Eight,
}

// The bytes from `place` on, each 0 past the end. Bytes and a place stay two parameters: each reading
// takes other bytes.
fn bytes_at<const N: usize>(bytes: &[u8], place: u8) -> [u8; N]
    ensures each { (k : ℕ) → k < N → slice_index result k ≡ slice_index bytes.now (place + k) }
{
    let from = &bytes[bytes.len().min(place as usize)..];
    let len = from.len().min(N);
    let mut field = [0; N];
    field[..len].copy_from_slice(&from[..len]);
    field
}

/// A number in a table, its least significant byte first.
pub trait Field {
    // how many bytes it takes
    ghost size: { ℕ };

    // the number that it is
    ghost number: { Self → ℕ };

    /// The number in the bytes from `place` on, where bytes past the end count as 0.
    fn field_at(bytes: &[u8], place: u8) -> Self
        ensures value { number result ≡ little_endian size bytes.now place };
}

// An `impl` for each type: std reads each by a function of its own, and no macro may write an `impl` here.
impl Field for u16 {
    ghost size = { 2 };

    ghost number = { λ n. n };

    fn field_at(bytes: &[u8], place: u8) -> u16 {
        u16::from_le_bytes(bytes_at(bytes, place))
    }
}

impl Field for u32 {
    ghost size = { 4 };

    ghost number = { λ n. n };

    fn field_at(bytes: &[u8], place: u8) -> u32 {
        u32::from_le_bytes(bytes_at(bytes, place))
    }
}

impl Field for u64 {
    ghost size = { 8 };

    ghost number = { λ n. n };

    fn field_at(bytes: &[u8], place: u8) -> u64 {
        u64::from_le_bytes(bytes_at(bytes, place))
    }
}

/// The little-endian number of this width from `place` on, where bytes past the end count as 0.
pub fn number_at(bytes: &[u8], place: u8, width: Width) -> u64
    ensures value { result ≡ little_endian (bytes_in width) bytes.now place }
{
    match width {
        Width::Four => u64::from(u32::field_at(bytes, place)),
        Width::Eight => u64::field_at(bytes, place),
    }
}

/// The first place from which on no zero byte follows: a string stands at each place before it, and
/// at none from it on.
pub fn strings_end(bytes: &[u8]) -> usize
    ensures value { result ≡ strings_end bytes.now }
    ensures ends { StringsEnd bytes.now result }
{
    // A `match`: of `map_or` the proof did not close.
    match find_last_byte(bytes, 0) {
        Some(last) => last + 1,
        None => 0,
    }
}

/// The little-endian number in the four bytes from `place` on, or none where they are not all there.
pub fn read_u32(bytes: &[u8], place: usize) -> Option<u32>
    ensures cases { MatchOption result (length bytes.now < place + 4) (λ n. (place + 4 ≤ length bytes.now) × (n ≡ little_endian 4 bytes.now place)) }
{
    let field = bytes.get(place..)?.first_chunk::<4>()?;
    Some(u32::from_le_bytes(*field))
}

/// The bytes from `place` to the next zero byte, or none where no zero byte follows.
pub fn string_at(bytes: &[u8], place: usize) -> Option<&[u8]>
    ensures cases { MatchOption result ((s : List ℕ) → StringAt bytes.now place s → ⊥) (λ s. StringAt bytes.now place s.now) }
    ensures value { option_map (λ x. x.now) result ≡ string_in bytes.now place }
{
    let from = bytes.get(place..)?;
    let len = find_byte(from, 0)?;
    Some(&from[..len])
}

// Guards one by one: the proof of all of them joined by `&&` did not close.
/// Whether the string at `place` is there and is `text`. It looks at the byte after it first, so
/// that most other strings are told apart by one read.
pub fn string_is(bytes: &[u8], place: usize, text: &[u8]) -> bool
    ensures value { IsTrue result ↔ (string_in bytes.now place ≡ Some text.now) }
{
    let len = text.len();
    if place >= bytes.len() {
        return false;
    }
    if len >= bytes.len() - place {
        return false;
    }
    if bytes[place + len] != 0 {
        return false;
    }
    if !stands_at(bytes, place, text) {
        return false;
    }
    find_byte(text, 0).is_none()
}
