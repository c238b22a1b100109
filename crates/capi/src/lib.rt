// C-callable functions over the library, on numbers and byte slices. A slice is passed as a pointer and then a length.
#![tactic(auto)]

ghost use Rattle.std.specs.Prelude.{◌≡◌, ℕ, not, MatchResult, ◌==◌};
ghost use Rattle.location.specs.Translation.{translated};
ghost use Rattle.std.specs.Option.{option_map, unwrap_or};
ghost use Rattle.attach_target.specs.Faults.{target_refusal};
ghost use Rattle.attach_target.specs.Scopes.{uses_maps};
ghost use Rattle.attach_target.specs.Targets.{Answer, Resolves};
ghost use Rattle.ld_so_cache.specs.Faults.{cache_refusal};
ghost use Rattle.capi.specs.Calls.{CacheTold, Carried, Told, carried, found_part, given_bytes, source_number};

use attach_target::fault::TargetFault;
use attach_target::scope::UProbeScope;
use attach_target::target::{Target, resolve_attach_target};
use byte_parts::part::Part;
use byte_parts::refusal::Fault;
use ld_so_cache::cache::LdSoCache;
use ld_so_cache::fault::CacheFault;
use location::{Address, FileOffset, from_virtual_address};
use proc_map::fault::LineFault;
use std::num::NonZeroU32;

/// Writes to `offset` where in the file an address lies, and answers 0. Answers 1 where the address is
/// below the section's, 2 where the offset would pass 2^64 - 1, and then leaves `offset` as it was.
#[unsafe(no_mangle)]
pub extern "C" fn uprobe_offset(
    instruction_address: u64,
    section_address: u64,
    section_offset: u64,
    offset: &mut u64,
) -> u32
    ensures told { MatchResult (translated instruction_address section_address section_offset) (λ f. (result ≡ 0) × (offset.new ≡ f)) (λ e. (result ≡ e.number) × (offset.new ≡ offset.old)) }
{
    let address = Address(instruction_address);
    let section = Address(section_address);
    match from_virtual_address(address, section, FileOffset(section_offset)) {
        Ok(found) => {
            *offset = found.0;
            0
        }
        Err(fault) => fault.refusal(),
    }
}

/// Checks a loader's cache. Answers 0 and writes to `entries` how many there are. Answers 4 or 6 and
/// writes to `entry` the number of the entry at fault, from 1, or 0 before the entries; or answers 5.
/// Nothing else is written.
#[unsafe(no_mangle)]
pub extern "C" fn uprobe_cache_check(cache: &[u8], entries: &mut u32, entry: &mut u32) -> u32
    ensures told { CacheTold cache.now result entries.old entries.new entry.old entry.new }
{
    match LdSoCache::parse(cache) {
        Ok(checked) => {
            *entries = checked.len();
            0
        }
        Err(fault) => {
            *entry = entry_of(fault).unwrap_or(*entry);
            fault.refusal()
        }
    }
}

/// Finds the file that a target stands for. `process` is 0 for all processes, else the number of the one
/// whose maps are passed; maps or cache that could not be read are passed with a 0 before them.
/// Answers 0 and writes the source, 1 for given, 2 for mapped, 3 for cached, with the path's place there and
/// its length. Or answers the refusal's number and writes what it carries: of 3 the line's place to `first`
/// and its length to `second`, of 4 and 6 the entry's number to `first`. Nothing else is written.
#[unsafe(no_mangle)]
pub extern "C" fn uprobe_target<'a>(
    target: &'a [u8],
    process: u32,
    maps_readable: u32,
    maps: &'a [u8],
    cache_readable: u32,
    cache: &'a [u8],
    source: &mut u32,
    place: &mut u64,
    len: &mut u64,
    first: &mut u64,
    second: &mut u64,
) -> u32
    ensures told { (a : Answer) × Resolves target.now (not (process == 0)) (given_bytes maps_readable maps.now) (given_bytes cache_readable cache.now) a × Told a result source.old source.new place.old place.new len.old len.new × Carried a first.old first.new second.old second.new }
{
    let maps = given(maps_readable, maps);
    let cache = given(cache_readable, cache);
    match resolve_attach_target(target, scope_of(process), maps, cache) {
        Ok(found) => {
            *source = source_of(&found);
            let path = path_of(found);
            *place = path.place as u64;
            *len = path.bytes.len() as u64;
            0
        }
        Err(fault) => {
            let told = values_of(fault);
            *first = told.first.unwrap_or(*first);
            *second = told.second.unwrap_or(*second);
            fault.refusal()
        }
    }
}

// Numbers for processes, sources and refusals: the C interface.

// All processes at 0, else one.
fn scope_of(process: u32) -> UProbeScope
    ensures { uses_maps result ≡ not (process == 0) }
{
    match NonZeroU32::new(process) {
        Some(number) => UProbeScope::OneProcess(number),
        None => UProbeScope::AllProcesses,
    }
}

// The bytes of a file, or none at 0.
fn given(readable: u32, bytes: &[u8]) -> Option<&[u8]>
    ensures { option_map (λ x. x.now) result ≡ given_bytes readable bytes.now }
{
    (readable != 0).then_some(bytes)
}

// The number of the source.
fn source_of(found: &Target<'_>) -> u32
    ensures { result ≡ source_number found.now }
{
    match found {
        Target::Given(_) => 1,
        Target::Mapped(_) => 2,
        Target::Cached(_) => 3,
    }
}

// The path that was found. The programs take the cases apart too, but for more than the path.
fn path_of(found: Target<'_>) -> Part<'_>
    ensures { result ≡ found_part found.entry }
{
    match found {
        Target::Given(path) | Target::Mapped(path) | Target::Cached(path) => path,
    }
}

// The entry's number that a fault of a cache carries.
fn entry_of(fault: CacheFault) -> Option<u32>
    ensures { (old : ℕ) → unwrap_or result old ≡ carried (cache_refusal fault) 0 old }
{
    match fault {
        CacheFault::Truncated { entry } | CacheFault::InvalidString { entry } => Some(entry),
        CacheFault::InvalidHeader => None,
    }
}

// The values that a fault carries.
#[derive(Clone, Copy)]
struct Values {
    first: Option<u64>,
    second: Option<u64>,
}

// What a fault carries.
fn values_of(fault: TargetFault) -> Values
    ensures first { (old : ℕ) → unwrap_or result.first old ≡ carried (target_refusal fault) 0 old }
    ensures second { (old : ℕ) → unwrap_or result.second old ≡ carried (target_refusal fault) 1 old }
{
    let (first, second) = match fault {
        TargetFault::Line(LineFault::ParseLine { place, len }) => {
            (Some(place as u64), Some(len as u64))
        }
        TargetFault::Cache(fault) => (entry_of(fault).map(u64::from), None),
        TargetFault::MapsUnreadable | TargetFault::CacheUnreadable | TargetFault::InvalidTarget => (
            None, None,
        ),
    };
    Values { first, second }
}
