// The commands: read the files, ask the library, print its answer.
use crate::command::MapsFrom;
use crate::explain::Refusal;
use crate::{command, show};
use attach_target::scope::UProbeScope;
use attach_target::target::resolve_attach_target;
use byte_parts::number::{Radix, parse_number};
use location::{Address, FileOffset, from_virtual_address};
use std::fs;
use std::num::NonZeroU32;
use std::process::ExitCode;

// Where the loader keeps its cache.
const CACHE_FILE: &str = "/etc/ld.so.cache";

/// `target`: the file that a library's name stands for.
pub fn target(rt: &HostRuntime, words: &[String]) -> anyhow::Result<ExitCode> {
    let Some(asked) = command::target_words(words) else {
        return command::misused(rt, "target");
    };
    let (scope, maps) = match asked.maps {
        MapsFrom::Nowhere => (UProbeScope::AllProcesses, None),
        MapsFrom::File(path) => (UProbeScope::CallingProcess, fs::read(rt, path).ok()),
        MapsFrom::Process(word) => {
            let Some(number) = process_number(word) else {
                return command::misused(rt, word);
            };
            let pid = number.get();
            let path = format!(in rt.alloc(); "/proc/{pid}/maps")?;
            let maps = fs::read(rt, path.as_str()).ok();
            (UProbeScope::OneProcess(number), maps)
        }
    };
    let cache = fs::read(rt, asked.cache.unwrap_or(CACHE_FILE)).ok();
    answer(
        rt,
        asked.name.as_bytes(),
        scope,
        maps.as_deref(),
        cache.as_deref(),
    )
}

// What the library says of the target, printed.
fn answer<'a>(
    rt: &HostRuntime,
    name: &'a [u8],
    scope: UProbeScope,
    maps: Option<&'a [u8]>,
    cache: Option<&'a [u8]>,
) -> anyhow::Result<ExitCode> {
    match resolve_attach_target(name, scope, maps, cache) {
        Ok(found) => {
            show::target(rt, found)?;
            Ok(ExitCode::SUCCESS)
        }
        Err(fault) => {
            show::target_fault(&rt.stderr(), fault, maps.unwrap_or(b""))?;
            Ok(ExitCode::FAILURE)
        }
    }
}

// A process number: decimal, above 0, in 32 bits.
fn process_number(word: &str) -> Option<NonZeroU32> {
    let number = parse_number(word.as_bytes(), Radix::Decimal)?;
    NonZeroU32::new(u32::try_from(number).ok()?)
}

// A number of the command line: decimal, or hexadecimal behind `0x`.
fn number(word: &str) -> Option<u64> {
    match word.as_bytes().strip_prefix(b"0x") {
        Some(digits) => parse_number(digits, Radix::Hexadecimal),
        None => parse_number(word.as_bytes(), Radix::Decimal),
    }
}

/// `offset`: where in the file an address lies.
pub fn offset(rt: &HostRuntime, words: &[String]) -> anyhow::Result<ExitCode> {
    let [address, section, start] = words else {
        return command::misused(rt, "offset");
    };
    let (Some(address), Some(section), Some(start)) = (
        number(address.as_str()),
        number(section.as_str()),
        number(start.as_str()),
    ) else {
        return command::misused(rt, "offset");
    };
    match from_virtual_address(Address(address), Address(section), FileOffset(start)) {
        Ok(found) => {
            let place = found.0;
            println!(rt; "offset {place:#x}")?;
            Ok(ExitCode::SUCCESS)
        }
        Err(fault) => {
            show::location_fault(&rt.stderr(), fault)?;
            Ok(ExitCode::FAILURE)
        }
    }
}

/// `explain`: a refusal in words.
pub fn explanation(rt: &HostRuntime, words: &[String]) -> anyhow::Result<ExitCode> {
    let [word] = words else {
        return command::misused(rt, "explain");
    };
    let word = word.as_str();
    let Some(wanted) = number(word).and_then(|number| u32::try_from(number).ok()) else {
        return command::misused(rt, word);
    };
    let Some(refusal) = Refusal::from_number(wanted) else {
        eprintln!(rt; "uprobes: there is no refusal {wanted}")?;
        return Ok(ExitCode::FAILURE);
    };
    let operation = refusal.operation();
    let reason = refusal.reason();
    let remedy = refusal.remedy();
    println!(rt; "refusal {wanted}")?;
    println!(rt; "operation {operation}")?;
    println!(rt; "reason {reason}")?;
    println!(rt; "remedy {remedy}")?;
    Ok(ExitCode::SUCCESS)
}
