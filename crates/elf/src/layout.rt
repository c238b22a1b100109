// Where the parts of an image lie: read once, and asked often.
ghost use Rattle.std.specs.Prelude.{◌≡◌, IfSome};
ghost use Rattle.std.specs.Option.{option_map};
ghost use Rattle.elf.specs.Frames.{OnlyParts};
ghost use Rattle.elf.specs.Laws.{LaysOut};
ghost use Rattle.elf.specs.Layouts.{layout_of, names_of};

use crate::header::{Header, SectionTable};
use crate::image::Image;
use crate::kind::SectionKind;
use crate::sections::Sections;
use crate::symbol::SymbolTable;
use byte_parts::span::{Span, part};
use shelf::object::{Debuglink, ObjectKind};

/// Where the parts of an image lie.
#[derive(Clone, Copy)]
pub struct Layout {
    /// What the object file is for.
    pub kind: ObjectKind,
    /// The section headers.
    pub sections: SectionTable,
    /// The first table of dynamic symbols.
    pub dynamic: SymbolTable,
    /// The first table of plain symbols.
    pub plain: SymbolTable,
    /// The name of the file with the debug symbols.
    pub debuglink: Debuglink<Span>,
    /// The build id.
    pub build_id: Option<Span>,
}

impl<'a> Image<'a> {
    // The names of sections, or none where the section that has them does not fit.
    fn section_names(self, header: Header) -> Option<&'a [u8]>
        ensures value { option_map (λ x. x.now) result ≡ names_of self.entry.places self.entry.bytes.now header }
    {
        if header.names == 0 {
            return Some(&self.bytes[..0]);
        }
        let section = self.section_numbered(header.sections, header.names as u32)?;
        let span = self.section_span(section)?;
        part(self.bytes, span)
    }

    /// Where the parts of the image lie, or none where it is no object file: its header or its
    /// section headers, the names of its sections, a table of symbols or the strings of one do not fit.
    #[tactic(auto, using(crate::proofs::Frames::only_parts))]
    pub fn read_layout(self) -> Option<Layout>
        ensures value { result ≡ layout_of self.entry.places self.entry.bytes.now }
        ensures law { IfSome result (LaysOut self.entry.places self.entry.bytes.now) }
        ensures frame { OnlyParts self.entry.places self.entry.bytes.now }
    {
        let header = self.read_header()?;
        let names = self.section_names(header)?;
        let sections = Sections {
            image: self,
            table: header.sections,
        };
        Some(Layout {
            kind: header.kind,
            sections: header.sections,
            dynamic: sections.first_table(SectionKind::DynamicSymbols)?,
            plain: sections.first_table(SectionKind::PlainSymbols)?,
            debuglink: sections.debuglink(names),
            build_id: sections.build_id(),
        })
    }
}
