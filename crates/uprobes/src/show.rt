// How answers and refusals are printed: a line for each fact, its name first.
use crate::explain::Refusal;
use attach_target::fault::TargetFault;
use attach_target::target::Target;
use byte_parts::part::Part;
use byte_parts::span::{Span, part};
use ld_so_cache::fault::CacheFault;
use location::LocationFault;
use proc_map::fault::LineFault;
use std::io;

/// Where a target was found, and its path.
pub fn target<P: Print>(out: &P, found: Target<'_>) -> io::Result<()> {
    match found {
        Target::Given(path) => found_in(out, "given", path),
        Target::Mapped(path) => found_in(out, "mapped", path),
        Target::Cached(path) => found_in(out, "cached", path),
    }
}

fn found_in<P: Print>(out: &P, source: &str, path: Part<'_>) -> io::Result<()> {
    let place = path.place;
    let length = path.bytes.len();
    println!(out; "source {source}")?;
    out.print("path ")?;
    out.write_all(path.bytes)?;
    println!(out; "")?;
    println!(out; "place {place}")?;
    println!(out; "length {length}")
}

/// Why a target was refused. Of a maps line that cannot be read it shows the line.
pub fn target_fault<P: Print>(out: &P, fault: TargetFault, maps: &[u8]) -> io::Result<()> {
    refusal(out, Refusal::from(fault))?;
    match fault {
        TargetFault::Line(LineFault::ParseLine { place, len }) => {
            println!(out; "line place {place} length {len}")?;
            line_text(out, maps, place, len)
        }
        TargetFault::Cache(CacheFault::Truncated { entry } | CacheFault::InvalidString { entry }) =>
            println!(out; "entry {entry}"),
        TargetFault::Cache(CacheFault::InvalidHeader)
        | TargetFault::MapsUnreadable
        | TargetFault::CacheUnreadable
        | TargetFault::InvalidTarget => Ok(()),
    }
}

fn line_text<P: Print>(out: &P, maps: &[u8], place: usize, len: usize) -> io::Result<()> {
    let Some(text) = part(maps, Span { place, len }) else {
        return Ok(());
    };
    out.print("line text ")?;
    out.write_all(text)?;
    println!(out; "")
}

/// Why an address has no offset.
pub fn location_fault<P: Print>(out: &P, fault: LocationFault) -> io::Result<()> {
    refusal(out, Refusal::from(fault))?;
    let (LocationFault::AddressNotInSection {
        instruction_address,
        section_address,
        section_offset,
    }
    | LocationFault::FileOffsetOverflow {
        instruction_address,
        section_address,
        section_offset,
    }) = fault;
    let address = instruction_address.0;
    let section = section_address.0;
    let offset = section_offset.0;
    println!(out; "address {address:#x} section {section:#x} offset {offset:#x}")
}

// A refusal by its number, with its reason and what to do about it.
fn refusal<P: Print>(out: &P, refusal: Refusal) -> io::Result<()> {
    let number = refusal.number();
    let reason = refusal.reason();
    let remedy = refusal.remedy();
    println!(out; "refused {number} {reason}")?;
    println!(out; "remedy {remedy}")
}
