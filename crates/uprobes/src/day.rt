// The embedded day: maps, cache and targets that need no file, printed step by step.
use crate::show;
use attach_target::scope::UProbeScope;
use attach_target::target::resolve_attach_target;
use ld_so_cache::cache::LdSoCache;
use location::{Address, FileOffset, from_virtual_address};
use proc_map::entry::ProcMapEntry;
use proc_map::lines::Lines;
use std::io;
use std::num::NonZeroU32;
use std::process::ExitCode;

// The maps of a validation service, process 812.
const MAPS: &[u8] = b"00400000-00452000 r-xp 00000000 08:02 173521 /usr/sbin/otpd\n\
      7f1000000000-7f1000021000 rw-p 00000000 00:00 0\n\
      7f1000400000-7f1000438000 r-xp 00001000 08:02 173640 /usr/lib/libotp.so.4\n\
      7ffc6c1f0000-7ffc6c211000 rw-p 00000000 00:00 0 [stack]\n";

// A loader's cache of 3 entries: magic, count, 24 bytes, entries of 24 bytes, strings.
const CACHE: &[u8] = b"glibc-ld.so.cache1.1\
      \x03\0\0\0\
      \0\0\0\0\0\0\0\0\0\0\0\0\0\0\0\0\0\0\0\0\0\0\0\0\
      \x03\x03\0\0x\0\0\0\x85\0\0\0\0\0\0\0\0\0\0\0\0\0\0\0\
      \x03\x03\0\0\xac\0\0\0\xb8\0\0\0\0\0\0\0\0\0\0\0\0\0\0\0\
      \x03\x03\0\0\xde\0\0\0\xe8\0\0\0\0\0\0\0\0\0\0\0\0\0\0\0\
      libtotp.so.2\0\
      /usr/lib/x86_64-linux-gnu/libtotp.so.2\0\
      libotp.so.4\0\
      /usr/lib/x86_64-linux-gnu/libotp.so.4\0\
      libc.so.6\0\
      /usr/lib/x86_64-linux-gnu/libc.so.6\0";

/// Prints the day. Every answer is the library's, on the embedded bytes.
pub fn day(rt: &HostRuntime) -> anyhow::Result<ExitCode> {
    let process = NonZeroU32::new(812).map_or(UProbeScope::AllProcesses, UProbeScope::OneProcess);
    println!(rt; "# the maps of process 812")?;
    maps(rt)?;
    println!(rt; "# the loader's cache")?;
    cache(rt)?;
    println!(rt; "# target libotp.so in process 812")?;
    look_up(rt, b"libotp.so", process)?;
    println!(rt; "# target libotp.so.4 for all processes")?;
    look_up(rt, b"libotp.so.4", UProbeScope::AllProcesses)?;
    println!(rt; "# target /opt/otp/libotp.so.4")?;
    look_up(rt, b"/opt/otp/libotp.so.4", process)?;
    println!(rt; "# target libhotp.so in process 812")?;
    look_up(rt, b"libhotp.so", process)?;
    println!(rt; "# address 0x401136 in a section 0x401000 at 0x1000")?;
    translate(rt, 0x401136)?;
    println!(rt; "# address 0x400fff in that section")?;
    translate(rt, 0x400fff)?;
    Ok(ExitCode::SUCCESS)
}

// The mappings, a line each.
fn maps(rt: &HostRuntime) -> io::Result<()> {
    for line in Lines::new(MAPS) {
        if let Ok(entry) = ProcMapEntry::parse(line) {
            mapping(rt, entry)?;
        }
    }
    Ok(())
}

fn mapping(rt: &HostRuntime, entry: ProcMapEntry<'_>) -> io::Result<()> {
    let from = entry.address;
    let to = entry.address_end;
    print!(rt; "mapping {from:#x} {to:#x}")?;
    if let Some(path) = entry.path {
        rt.print(" ")?;
        rt.write_all(path)?;
    }
    println!(rt; "")
}

// The entries of the cache.
fn cache(rt: &HostRuntime) -> io::Result<()> {
    let Ok(cache) = LdSoCache::parse(CACHE) else {
        return Ok(());
    };
    // By numbers, as a cache is asked.
    for number in 1..=cache.len() {
        if let Some(entry) = cache.entry(number) {
            rt.print("entry ")?;
            rt.write_all(entry.key.bytes)?;
            rt.print(" ")?;
            rt.write_all(entry.value.bytes)?;
            println!(rt; "")?;
        }
    }
    Ok(())
}

fn look_up(rt: &HostRuntime, target: &[u8], scope: UProbeScope) -> io::Result<()> {
    match resolve_attach_target(target, scope, Some(MAPS), Some(CACHE)) {
        Ok(found) => show::target(rt, found),
        Err(fault) => show::target_fault(rt, fault, MAPS),
    }
}

fn translate(rt: &HostRuntime, address: u64) -> io::Result<()> {
    match from_virtual_address(Address(address), Address(0x401000), FileOffset(0x1000)) {
        Ok(found) => {
            let place = found.0;
            println!(rt; "offset {place:#x}")
        }
        Err(fault) => show::location_fault(rt, fault),
    }
}
