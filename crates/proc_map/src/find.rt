// A library's path in maps, by the library's name.
ghost use Rattle.std.specs.Prelude.{◌≡◌, ℕ, ◌+◌, ◌^◌, ◌<◌, List, IfSome, IfOk, MatchOption};
ghost use Rattle.byte_parts.specs.Parts.{PartOf};
ghost use Rattle.proc_map.specs.Entry.{mapping};
ghost use Rattle.proc_map.specs.Maps.{map_lines};
ghost use Rattle.proc_map.specs.Search.{found, LooksUp, LooksUpOnce, NamesPath};

use crate::entry::ProcMapEntry;
use crate::fault::LineFault;
use crate::lines::Lines;
use byte_parts::part::Part;
use library_name::names_file;
use unix_path::name::file_name;

/// The path of the first mapped file that stands for the library `target`, with its place in the
/// maps, or none where no line names one. A file stands for the target where its file name is the
/// target's without one trailing `.so`, and then nothing, or something that starts with `.so` or `-`.
///
/// Refuses with 3 a line before it that is no line of maps.
pub fn find_library_path_by_name<'a>(
    maps: &'a [u8],
    target: &[u8],
) -> Result<Option<Part<'a>>, LineFault>
    ensures answer { LooksUp target.now (map_lines maps.now) (found result) }
    ensures once { LooksUpOnce }
    ensures part { IfOk result (λ o. IfSome o (λ p. PartOf maps.now p.place p.bytes.now)) }
{
    for line in Lines::new(maps) {
        let entry = ProcMapEntry::parse(line)?;
        if let Some(path) = named_path(entry, target) {
            return Ok(Some(path_in_maps(line, entry, path)));
        }
    }
    Ok(None)
}

// The path of a line's entry, by its place in the maps.
fn path_in_maps<'a>(line: Part<'_>, entry: ProcMapEntry<'_>, path: &'a [u8]) -> Part<'a>
    requires { line.place + entry.path_place < 2 ^ 64 }
    ensures place { result.place ≡ line.entry.place + entry.entry.path_place }
    ensures bytes { result.bytes.now ≡ path.now }
{
    Part {
        place: line.place + entry.path_place,
        bytes: path,
    }
}

// The path of a mapping, where its file name stands for the target.
fn named_path<'a>(entry: ProcMapEntry<'a>, target: &[u8]) -> Option<&'a [u8]>
    ensures cases { MatchOption result ((path : List ℕ) → NamesPath target.now (mapping entry.entry) path → ⊥) (λ path. NamesPath target.now (mapping entry.entry) path.now) }
{
    let path = entry.path?;
    let file = file_name(path)?;
    names_file(target, file).then_some(path)
}
