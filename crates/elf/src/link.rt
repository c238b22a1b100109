// The debuglink: where the name of the file with the debug symbols lies.
ghost use Rattle.std.specs.Prelude.{◌≡◌};
ghost use Rattle.elf.specs.Links.{link_of, link_place, or_malformed};
ghost use Rattle.elf.specs.Sections.{occupied};

use crate::image::Image;
use crate::notes::padded;
use crate::section::SectionHeader;
use crate::sections::Sections;
use byte_parts::fields::string_at;
use byte_parts::find::stands_at;
use byte_parts::span::{Span, part};
use shelf::object::Debuglink;

// The name of the section with the debuglink, as the names of sections have it.
const DEBUGLINK: &[u8] = b".gnu_debuglink\0";

impl Image<'_> {
    // Where the name in a section with a debuglink lies: a name, a zero byte, padding to 4, four
    // bytes. None where the section does not fit or does not start so.
    fn link_name(self, section: SectionHeader) -> Option<Span>
        ensures value { or_malformed result ≡ link_of self.entry.bytes.now (occupied self.entry.bytes.now section) }
    {
        let span = self.section_span(section)?;
        let bytes = part(self.bytes, span)?;
        let name = string_at(bytes, 0)?;
        let len = name.len();
        let place = span.place;
        (padded(len + 1) + 4 <= span.len).then_some(Span { place, len })
    }
}

impl Sections<'_> {
    // What the first section called `.gnu_debuglink`, by the names of sections, says.
    pub(crate) fn debuglink(self, names: &[u8]) -> Debuglink<Span>
        ensures value { result ≡ link_place self.entry.image.places self.entry.image.bytes.now self.entry.table names.now }
    {
        let found = self.find(|section| stands_at(names, section.name as usize, DEBUGLINK));
        let Some(section) = found else {
            return Debuglink::Absent;
        };
        self.image
            .link_name(section)
            .map_or(Debuglink::Malformed, Debuglink::Named)
    }
}
