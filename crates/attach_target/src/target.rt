// The look-up of a target: as given, in a process's maps, in the loader's cache.
ghost use Rattle.std.specs.Prelude.{IfSome, IfOk, IsTrue, ◌↔◌};
ghost use Rattle.std.specs.Option.{option_map};
ghost use Rattle.attach_target.specs.Scopes.{uses_maps};
ghost use Rattle.attach_target.specs.Targets.{answer, cache_found, maps_found, Bare, CacheSays, PartOfSome, Resolves, ResolvesOnce, Stands, Tells};

use crate::fault::TargetFault;
use crate::scope::UProbeScope;
use byte_parts::part::Part;
use ld_so_cache::cache::LdSoCache;
use proc_map::find::find_library_path_by_name;
use unix_path::name::file_name;

/// Where the path of a target was found: a part of what was given, and its place there.
#[derive(Clone, Copy)]
pub enum Target<'a> {
    /// The target is a path: all of it.
    Given(Part<'a>),
    /// A process has the file mapped: a part of its maps.
    Mapped(Part<'a>),
    /// The loader's cache lists the file: a part of the cache.
    Cached(Part<'a>),
}

/// Whether the target is a bare name: one that is its own file name.
pub fn is_basename_only(target: &[u8]) -> bool
    ensures { IsTrue result ↔ (Bare target.now) }
{
    file_name(target).is_some_and(|name| name == target)
}

/// The path of the file that `target` stands for. A target that is no bare name is its own path.
/// A bare name is looked up in the maps, unless the scope is all processes, and then in the
/// loader's cache. `maps` and `cache` are none where they cannot be read.
///
/// Refuses in this order: 7 the maps are needed and unreadable; 3 a bad line of the maps before a
/// match; 8 the cache is needed and unreadable; 4, 5 or 6 the cache is damaged; 9 no match.
pub fn resolve_attach_target<'a>(
    target: &'a [u8],
    scope: UProbeScope,
    maps: Option<&'a [u8]>,
    cache: Option<&'a [u8]>,
) -> Result<Target<'a>, TargetFault>
    ensures answer { Resolves target.now (uses_maps scope) (option_map (λ x. x.now) maps.entry) (option_map (λ x. x.now) cache.entry) (answer result) }
    ensures once { ResolvesOnce }
    ensures part { IfOk result (Stands target.now (option_map (λ x. x.now) maps.entry) (option_map (λ x. x.now) cache.entry)) }
{
    if !is_basename_only(target) {
        return Ok(Target::Given(Part {
            place: 0,
            bytes: target,
        }));
    }
    if scope.uses_maps() {
        if let Some(path) = find_in_maps(target, maps)? {
            return Ok(Target::Mapped(path));
        }
    }
    let path = find_in_cache(target, cache)?;
    Ok(Target::Cached(path))
}

// The path of a mapped file that the target stands for.
fn find_in_maps<'a>(target: &[u8], maps: Option<&'a [u8]>) -> Result<Option<Part<'a>>, TargetFault>
    ensures answer { Tells target.now (option_map (λ x. x.now) maps.entry) (maps_found result) }
    ensures part { IfOk result (λ o. IfSome o (λ p. PartOfSome (option_map (λ x. x.now) maps.entry) p.place p.bytes.now)) }
{
    let maps = maps.ok_or(TargetFault::MapsUnreadable)?;
    Ok(find_library_path_by_name(maps, target)?)
}

// The path of a file of the cache that the target stands for.
fn find_in_cache<'a>(target: &[u8], cache: Option<&'a [u8]>) -> Result<Part<'a>, TargetFault>
    ensures answer { CacheSays target.now (option_map (λ x. x.now) cache.entry) (cache_found result) }
    ensures part { IfOk result (λ p. PartOfSome (option_map (λ x. x.now) cache.entry) p.place p.bytes.now) }
{
    let cache = cache.ok_or(TargetFault::CacheUnreadable)?;
    LdSoCache::parse(cache)?
        .resolve(target)
        .ok_or(TargetFault::InvalidTarget)
}
