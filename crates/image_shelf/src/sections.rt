// The sections of an image.
ghost use Rattle.std.specs.Prelude.{◌≡◌, nat_eq};
ghost use Rattle.std.specs.List.{find, slice_get};
ghost use Rattle.elf.specs.Layouts.{section_model, section_models};

use elf::kind::SectionKind;
use elf::section::SectionHeader;
use elf::sections::Sections;
use location::{Address, FileOffset};
use shelf::object::Section;

// A section by its number and its header.
fn section_from(number: u16, header: SectionHeader) -> Section
    ensures value { result ≡ section_model number header }
{
    let offset = (header.kind != SectionKind::NoBits).then_some(FileOffset(header.offset));
    Section {
        number,
        address: Address(header.address),
        offset,
    }
}

// The section with this number.
pub(crate) fn numbered_section(sections: Sections<'_>, number: u16) -> Option<Section>
    ensures value { result ≡ find (λ s. nat_eq s.number number) (section_models sections.entry.image.places sections.entry.image.bytes.now sections.entry.table) }
{
    let header = sections.numbered(number as u32)?;
    Some(section_from(number, header))
}

// The section at this place, from 0: its number is one more.
pub(crate) fn section_in_order(sections: Sections<'_>, place: usize) -> Option<Section>
    ensures value { result ≡ slice_get (section_models sections.entry.image.places sections.entry.image.bytes.now sections.entry.table) place }
{
    if place >= sections.table.count as usize {
        return None;
    }
    let number = place as u16 + 1;
    let header = sections.numbered(number as u32)?;
    Some(section_from(number, header))
}
