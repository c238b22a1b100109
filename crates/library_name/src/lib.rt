// Which file names and which cache keys a target's name stands for.
#![tactic(auto)]

ghost use Rattle.std.specs.Prelude.{◌≡◌, ℕ, ◌⊎◌, List, [], IsTrue, ◌↔◌, MatchOption};
ghost use Rattle.library_name.specs.Names.{dash, dot_so, AfterStem, NamesFile, NamesKey, Starts, Stem};

/// The stem of `name`: without the `.so` at its end, or all of it where it does not end so.
pub fn stem(name: &[u8]) -> &[u8]
    ensures value { Stem name.now result.now }
{
    name.strip_suffix(b".so").unwrap_or(name)
}

// What follows the stem of `target` in `name`, or none where `name` does not start with it.
fn after_stem<'a>(target: &[u8], name: &'a [u8]) -> Option<&'a [u8]>
    ensures cases { MatchOption result ((rest : List ℕ) → AfterStem target.now name.now rest → ⊥) (λ rest. AfterStem target.now name.now rest.now) }
{
    name.strip_prefix(stem(target))
}

// Whether a file's name may end so behind the stem: with nothing, or with something that starts with `.so` or with `-`.
fn ends_file(rest: &[u8]) -> bool
    ensures value { IsTrue result ↔ ((rest.now ≡ []) ⊎ (Starts dot_so rest.now ⊎ Starts dash rest.now)) }
{
    rest.is_empty() || rest.starts_with(b".so") || rest.starts_with(b"-")
}

/// Whether the target's name stands for a mapped file of this name: after the target's stem
/// comes nothing, or something that starts with `.so` or with `-`.
pub fn names_file(target: &[u8], file: &[u8]) -> bool
    ensures value { IsTrue result ↔ (NamesFile target.now file.now) }
{
    after_stem(target, file).is_some_and(ends_file)
}

/// Whether the target's name stands for this key of a cache: the key is the target, or starts with
/// the target's stem and `.so`.
pub fn names_key(target: &[u8], key: &[u8]) -> bool
    ensures value { IsTrue result ↔ (NamesKey target.now key.now) }
{
    key == target || after_stem(target, key).is_some_and(|rest| rest.starts_with(b".so"))
}
