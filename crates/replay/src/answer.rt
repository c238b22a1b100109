// The library's answer to a case, as a line.
use crate::words::Case;
use attach_target::fault::TargetFault;
use attach_target::scope::UProbeScope;
use attach_target::target::{Target, resolve_attach_target};
use byte_parts::part::Part;
use byte_parts::refusal::Fault;
use ld_so_cache::cache::LdSoCache;
use location::{Address, FileOffset, from_virtual_address};
use proc_map::entry::ProcMapEntry;
use proc_map::find::find_library_path_by_name;
use std::io;
use unix_path::join::join;
use unix_path::name::{file_name, parent};

/// Prints the answer to a case.
pub fn answer(rt: &HostRuntime, case: &Case) -> anyhow::Result<()> {
    match case.question.as_str() {
        "name" => optional(rt, file_name(case.bytes(0)))?,
        "parent" => optional(rt, parent(case.bytes(0)))?,
        "join" => joined(rt, case.bytes(0), case.bytes(1))?,
        "line" => line(rt, case.bytes(0))?,
        "maps" => mapped(rt, case.bytes(0), case.bytes(1))?,
        "cache" => checked(rt, case.bytes(0))?,
        "target" => target(rt, case)?,
        "offset" => offset(rt, case.bytes(0))?,
        _ => rt.println("unknown")?,
    }
    Ok(())
}

// Bytes in hexadecimal, `-` for none at all.
fn hexadecimal(rt: &HostRuntime, bytes: &[u8]) -> io::Result<()> {
    if bytes.is_empty() {
        return rt.print("-");
    }
    for byte in bytes {
        print!(rt; "{byte:02x}")?;
    }
    Ok(())
}

fn some(rt: &HostRuntime, bytes: &[u8]) -> io::Result<()> {
    rt.print("some ")?;
    hexadecimal(rt, bytes)?;
    println!(rt; "")
}

fn optional(rt: &HostRuntime, bytes: Option<&[u8]>) -> io::Result<()> {
    match bytes {
        Some(bytes) => some(rt, bytes),
        None => rt.println("none"),
    }
}

fn joined(rt: &HostRuntime, base: &[u8], name: &[u8]) -> io::Result<()> {
    // A buffer of a fixed size, as the cases have it: `join` writes into its caller's memory.
    let mut out = [0u8; 512];
    let len = join(base, name, &mut out);
    optional(rt, len.and_then(|len| out.get(..len)))
}

fn line(rt: &HostRuntime, bytes: &[u8]) -> io::Result<()> {
    let Ok(entry) = ProcMapEntry::parse(Part { place: 0, bytes }) else {
        return rt.println("refused");
    };
    let start = entry.address;
    let end = entry.address_end;
    let offset = entry.offset;
    let inode = entry.inode;
    print!(rt; "entry {start} {end} {offset} {inode} ")?;
    hexadecimal(rt, entry.perms)?;
    rt.print(" ")?;
    hexadecimal(rt, entry.dev)?;
    rt.print(" ")?;
    optional(rt, entry.path)
}

// A path with its place and its bytes.
fn part(rt: &HostRuntime, word: &str, part: Part<'_>) -> io::Result<()> {
    let place = part.place;
    print!(rt; "{word} {place} ")?;
    hexadecimal(rt, part.bytes)?;
    println!(rt; "")
}

fn mapped(rt: &HostRuntime, target: &[u8], maps: &[u8]) -> io::Result<()> {
    match find_library_path_by_name(maps, target) {
        Ok(Some(path)) => part(rt, "mapped", path),
        Ok(None) => rt.println("none"),
        Err(_) => rt.println("refused line"),
    }
}

fn checked(rt: &HostRuntime, bytes: &[u8]) -> io::Result<()> {
    match LdSoCache::parse(bytes) {
        Ok(cache) => {
            let entries = cache.len();
            print!(rt; "entries {entries}")?;
            // By numbers, as a cache is asked.
            for number in 1..=entries {
                if let Some(entry) = cache.entry(number) {
                    rt.print(" ")?;
                    hexadecimal(rt, entry.key.bytes)?;
                    rt.print("=")?;
                    hexadecimal(rt, entry.value.bytes)?;
                }
            }
            println!(rt; "")
        }
        Err(_) => rt.println("refused cache"),
    }
}

// The inputs are the target, the scope (no bytes for all processes), the maps and the cache.
fn target(rt: &HostRuntime, case: &Case) -> io::Result<()> {
    let scope = if case.bytes(1).is_empty() {
        UProbeScope::AllProcesses
    } else {
        UProbeScope::CallingProcess
    };
    match resolve_attach_target(case.bytes(0), scope, case.readable(2), case.readable(3)) {
        Ok(Target::Given(path)) => part(rt, "given", path),
        Ok(Target::Mapped(path)) => part(rt, "mapped", path),
        Ok(Target::Cached(path)) => {
            rt.print("cached ")?;
            hexadecimal(rt, path.bytes)?;
            println!(rt; "")
        }
        Err(TargetFault::Cache(_)) => rt.println("refused cache"),
        Err(fault) => {
            let number = fault.refusal();
            println!(rt; "refused {number}")
        }
    }
}

// Three numbers, 8 bytes each, the most significant first.
fn three_numbers(bytes: &[u8]) -> Option<(u64, u64, u64)> {
    let (first, rest) = bytes.split_first_chunk::<8>()?;
    let (second, rest) = rest.split_first_chunk::<8>()?;
    let third = rest.first_chunk::<8>()?;
    Some((
        u64::from_be_bytes(*first),
        u64::from_be_bytes(*second),
        u64::from_be_bytes(*third),
    ))
}

// The input is the three numbers: the address, and the section's address and offset.
fn offset(rt: &HostRuntime, bytes: &[u8]) -> io::Result<()> {
    let Some((address, section, start)) = three_numbers(bytes) else {
        return rt.println("unknown");
    };
    match from_virtual_address(Address(address), Address(section), FileOffset(start)) {
        Ok(found) => {
            let place = found.0;
            println!(rt; "offset {place}")
        }
        Err(fault) => {
            let number = fault.refusal();
            println!(rt; "refused {number}")
        }
    }
}
