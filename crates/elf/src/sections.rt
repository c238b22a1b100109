// The sections of an image: the one with a number, and the first that passes a test.
ghost use Rattle.std.specs.Prelude.{◌≡◌, Bool};
ghost use Rattle.std.specs.Fn.{FnReturnsAt};
ghost use Rattle.std.specs.List.{find};
ghost use Rattle.elf.specs.Sections.{Inside, numbered, sections};
ghost use Rattle.elf.specs.declared.section.SectionHeader.{SectionHeader as ASection};

use crate::header::SectionTable;
use crate::image::Image;
use crate::section::SectionHeader;

/// The sections of an image, each row of whose table lies inside it.
#[derive(Clone, Copy)]
pub struct Sections<'a> {
    /// The image.
    pub image: Image<'a>,
    /// Its section headers.
    pub table: SectionTable,
    pub ghost inside: { Inside image.places image.bytes.now table },
}

impl Sections<'_> {
    /// The header of the section with this number. None for the number 0, which is no section's, and
    /// for one that the table does not reach.
    pub fn numbered(self, number: u32) -> Option<SectionHeader>
        ensures value { result ≡ numbered self.entry.image.places self.entry.image.bytes.now self.entry.table number }
    {
        self.image.section_numbered(self.table, number)
    }

    // The first section that passes the test, or none.
    pub(crate) fn find<F: Fn(&SectionHeader) -> bool>(self, test: F) -> Option<SectionHeader>
        requires { F.IsAlwaysCallable test }
        ensures value { (passes : ASection → Bool) → ((s : ASection) (b : Bool) → FnReturnsAt F.Fn test s b → b ≡ passes s) → result ≡ find passes (sections self.entry.image.places self.entry.image.bytes.now self.entry.table) }
    {
        // A loop: of a closure over `self`, whose type names a lifetime, a chain does not know that it
        // stays the same.
        for number in 1..self.table.count {
            let section = self.numbered(number as u32)?;
            if test(&section) {
                return Some(section);
            }
        }
        None
    }
}
