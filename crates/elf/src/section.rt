// The headers of sections: what a row says, the row with a number, and the bytes that a section has.
ghost use Rattle.std.specs.Prelude.{◌≡◌};
ghost use Rattle.elf.specs.Sections.{numbered, occupied, section_in};

use crate::header::SectionTable;
use crate::image::Image;
use crate::kind::SectionKind;
use crate::places::Places;
use byte_parts::fields::{Field, number_at};
use byte_parts::span::{Span, is_inside, row};

/// What the header of a section says.
#[derive(Clone, Copy)]
pub struct SectionHeader {
    /// Where its name starts among the names of sections.
    pub name: u32,
    /// What it is.
    pub kind: SectionKind,
    /// Where it starts in memory.
    pub address: u64,
    /// Where it starts in the file.
    pub offset: u64,
    /// How long it is.
    pub size: u64,
    /// The number of a section that goes with it.
    pub link: u32,
    /// How long its entries are, where it has entries.
    pub entry_size: u64,
}

/// What a row of the section headers says. Bytes that the row lacks count as 0.
pub fn read_section(row: &[u8], places: Places) -> SectionHeader
    ensures value { result ≡ section_in places row.now }
{
    SectionHeader {
        name: u32::field_at(row, 0),
        kind: SectionKind::from(u32::field_at(row, 4)),
        address: number_at(row, places.sh_addr, places.word),
        offset: number_at(row, places.sh_offset, places.word),
        size: number_at(row, places.sh_size, places.word),
        link: u32::field_at(row, places.sh_link),
        entry_size: number_at(row, places.sh_entsize, places.word),
    }
}

impl Image<'_> {
    /// The header of the section with this number. None for the number 0, which is no section's, for
    /// one that the table does not reach, and where the row is not inside the image.
    pub fn section_numbered(self, table: SectionTable, number: u32) -> Option<SectionHeader>
        ensures value { result ≡ numbered self.entry.places self.entry.bytes.now table number }
    {
        if number == 0 || number >= table.count as u32 {
            return None;
        }
        let size = self.places.section_size;
        let row = row(self.bytes, table.place, size, number as usize)?;
        Some(read_section(row, self.places))
    }

    /// Where the bytes of a section lie in the image. A section that takes no room in the file has
    /// none, at place 0. None where the section is not wholly inside the image.
    pub fn section_span(self, section: SectionHeader) -> Option<Span>
        ensures value { result ≡ occupied self.entry.bytes.now section }
    {
        if section.kind == SectionKind::NoBits {
            return Some(Span { place: 0, len: 0 });
        }
        let span = Span {
            place: section.offset as usize,
            len: section.size as usize,
        };
        is_inside(span, self.bytes.len()).then_some(span)
    }
}
