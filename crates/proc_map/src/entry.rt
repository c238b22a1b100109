// One line of maps, read by proc(5).
ghost use Rattle.std.specs.Prelude.{◌≡◌, [], ◌∷◌, length, MatchOption, MatchResult};
ghost use Rattle.byte_parts.specs.Refusals.{refuse};
ghost use Rattle.proc_map.specs.Entry.{mapping};
ghost use Rattle.proc_map.specs.Faults.{line_refusal};
ghost use Rattle.proc_map.specs.Line.{Reads, Unreadable, ReadsOnce};

use crate::fault::LineFault;
use crate::words::{address_range, five_words, path_part};
use byte_parts::number::{Radix, parse_number};
use byte_parts::part::Part;

// Start and end of the addresses are fields by name, and no range: each is asked for alone.
/// One mapping of a process: what a line of its maps says.
#[derive(Clone, Copy)]
pub struct ProcMapEntry<'a> {
    /// Where the mapping starts in memory.
    pub address: u64,
    /// Where it ends.
    pub address_end: u64,
    /// What may be done with it, as `r-xp`.
    pub perms: &'a [u8],
    /// Where in the file the mapping starts.
    pub offset: u64,
    /// The device that the file is on.
    pub dev: &'a [u8],
    /// The file's number on that device.
    pub inode: u64,
    /// The mapped file's path, if the line has one.
    pub path: Option<&'a [u8]>,
    /// Where the path starts in the line; the line's length where it has none. A field of its own, since a line without a path has a place too.
    pub path_place: usize,
}

impl<'a> ProcMapEntry<'a> {
    /// What a line of maps says: address, permissions, offset, device, inode and perhaps a path.
    ///
    /// Refuses with 3 what is no such line; the refusal carries the line's place and length.
    pub fn parse(line: Part<'a>) -> Result<ProcMapEntry<'a>, LineFault>
        ensures cases { MatchResult result (λ e. Reads line.entry.bytes.now (mapping e)) (λ f. Unreadable line.entry.bytes.now × (line_refusal f ≡ refuse 3 (line.entry.place ∷ length line.entry.bytes.now ∷ []))) }
        ensures once { ReadsOnce }
    {
        read(line.bytes).ok_or(LineFault::ParseLine {
            place: line.place,
            len: line.bytes.len(),
        })
    }
}

// What a line says, or none where it is no line of maps.
fn read(line: &[u8]) -> Option<ProcMapEntry<'_>>
    ensures cases { MatchOption result (Unreadable line.now) (λ e. Reads line.now (mapping e)) }
{
    let words = five_words(line)?;
    let range = address_range(words.address)?;
    let offset = parse_number(words.offset, Radix::Hexadecimal)?;
    let inode = parse_number(words.inode, Radix::Decimal)?;
    let (path, path_place) = match path_part(words.rest) {
        Some(part) => (Some(part.bytes), line.len() - words.rest.len() + part.place),
        None => (None, line.len()),
    };
    Some(ProcMapEntry {
        address: range.start,
        address_end: range.end,
        perms: words.perms,
        offset,
        dev: words.dev,
        inode,
        path,
        path_place,
    })
}
