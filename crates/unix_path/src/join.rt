// A name joined to a base path.
ghost use Rattle.std.specs.Prelude.{◌≡◌, ◌<◌, true, false, [], ◌++◌, length, drop, if◌then◌else◌, filter, MatchOption, ◌≢◌};
ghost use Rattle.byte_parts.specs.Cut.{cut};
ghost use Rattle.unix_path.specs.Paths.{slash, later, pieces, rooted, open_ended, joined_path};

use crate::root::is_rooted;

// Whether a name can follow `base` with no slash between them: it is empty, or ends with a slash.
fn is_open_ended(base: &[u8]) -> bool
    ensures value { result ≡ open_ended base.now }
{
    base.is_empty() || base.ends_with(b"/")
}

// What of `base` stands in front of `name`: nothing where `name` starts at the root.
fn front_of<'a>(base: &'a [u8], name: &[u8]) -> &'a [u8]
    ensures value { result.now ≡ (if rooted name.now then [] else base.now) }
{
    if is_rooted(name) { &[] } else { base }
}

// A buffer and a length: no library uses the heap.
/// Writes `name` under `base` at the start of `out`, and answers how many bytes it wrote. A `name` at the root stands alone;
/// any other follows `base`, and a slash between them unless `base` is empty or ends with one.
/// None where `out` is too short, and then it stays as it was.
pub fn join(base: &[u8], name: &[u8], out: &mut [u8]) -> Option<usize>
    ensures cases { MatchOption result ((length out.old < length (joined_path base.now name.now)) × (out.new ≡ out.old)) (λ n. (n ≡ length (joined_path base.now name.now)) × (out.new ≡ joined_path base.now name.now ++ drop n out.old)) }
    ensures opens { (rooted name.now ≡ false → (base.now ≢ []) → pieces (joined_path base.now name.now) ≡ pieces base.now ++ filter later (cut slash name.now)) × (rooted name.now ≡ true → joined_path base.now name.now ≡ name.now) }
{
    let front = front_of(base, name);
    let start = front.len() + usize::from(!is_open_ended(front));
    if out.len() < start || out.len() - start < name.len() {
        return None;
    }
    let end = start + name.len();
    out[..front.len()].copy_from_slice(front);
    if front.len() < start {
        out[front.len()] = b'/';
    }
    out[start..end].copy_from_slice(name);
    Some(end)
}
