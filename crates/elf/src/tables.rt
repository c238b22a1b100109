// Symbol tables: where the first of a kind lies, and where the strings with its names do.
ghost use Rattle.std.specs.Prelude.{◌≡◌};
ghost use Rattle.elf.specs.Tables.{symbol_table, table_from, whole_entries};

use crate::kind::SectionKind;
use crate::places::Places;
use crate::section::SectionHeader;
use crate::sections::Sections;
use crate::symbol::SymbolTable;
use byte_parts::fields::strings_end;
use byte_parts::span::{Span, part};

// Whether a symbol table has entries of the size of the class, and only whole ones.
fn has_whole_entries(section: SectionHeader, places: Places) -> bool
    ensures value { result ≡ whole_entries places section }
{
    let size = places.symbol_size as u64;
    section.entry_size == size && size > 0 && section.size % size == 0
}

impl Sections<'_> {
    // The symbol table in a section, or none where it or its strings do not fit.
    fn table_in(self, section: SectionHeader) -> Option<SymbolTable>
        ensures value { result ≡ table_from self.entry.image.places self.entry.image.bytes.now self.entry.table section }
    {
        let image = self.image;
        if !has_whole_entries(section, image.places) {
            return None;
        }
        let entries = image.section_span(section)?;
        let linked = self.numbered(section.link)?;
        let strings = image.section_span(linked)?;
        let names = part(image.bytes, strings)?;
        Some(SymbolTable {
            place: entries.place,
            count: (entries.len / image.places.symbol_size as usize).saturating_sub(1),
            strings,
            readable: strings_end(names),
        })
    }

    // The first symbol table of this kind, one without symbols where there is none, and none where
    // it or its strings do not fit.
    pub(crate) fn first_table(self, kind: SectionKind) -> Option<SymbolTable>
        ensures value { result ≡ symbol_table self.entry.image.places self.entry.image.bytes.now self.entry.table kind }
    {
        match self.find(|section| section.kind == kind) {
            Some(section) => self.table_in(section),
            None => Some(SymbolTable {
                place: 0,
                count: 0,
                strings: Span { place: 0, len: 0 },
                readable: 0,
            }),
        }
    }
}
