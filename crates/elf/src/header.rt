// The header of an image: what kind of object it is, and where its section headers are.
ghost use Rattle.std.specs.Prelude.{◌≡◌};
ghost use Rattle.elf.specs.Headers.{header_of, is_image, kind_named, section_table, table_fits};

use crate::image::Image;
use byte_parts::fields::{Field, number_at};
use byte_parts::span::{Span, is_inside};
use shelf::object::ObjectKind;

/// The section headers of an image: rows from a place on.
#[derive(Clone, Copy)]
pub struct SectionTable {
    /// Where the first row starts.
    pub place: usize,
    /// How many rows there are. Row 0 is reserved, and no section.
    pub count: u16,
}

/// What the header of an image says.
#[derive(Clone, Copy)]
pub struct Header {
    /// What the object file is for.
    pub kind: ObjectKind,
    /// Where the section headers are.
    pub sections: SectionTable,
    /// The number of the section with the names of sections, or 0.
    pub names: u16,
}

// What an object file of this type is for. No `From`: the kind is the shelf's, which knows no numbers of
// the format.
fn object_kind(e_type: u16) -> ObjectKind
    ensures value { result ≡ kind_named e_type }
{
    match e_type {
        2 => ObjectKind::Executable,
        3 => ObjectKind::Dynamic,
        _ => ObjectKind::Other,
    }
}

impl Image<'_> {
    // Whether the header is whole and says that this is a little-endian image of the class.
    fn is_elf(self) -> bool
        ensures value { result ≡ is_image self.entry.places self.entry.bytes.now }
    {
        let places = self.places;
        self.bytes.len() >= places.header_size as usize
            && self
                .bytes
                .starts_with(&[0x7f, b'E', b'L', b'F', places.class, 1, 1])
    }

    // Where the section headers are, and how many.
    fn read_table(self) -> SectionTable
        ensures value { result ≡ section_table self.entry.places self.entry.bytes.now }
    {
        let places = self.places;
        let place = number_at(self.bytes, places.e_shoff, places.word) as usize;
        if place == 0 {
            return SectionTable { place, count: 0 };
        }
        SectionTable {
            place,
            count: u16::field_at(self.bytes, places.e_shnum),
        }
    }

    // Whether there are no section headers, or those that there are have the right size and lie inside.
    fn fits_table(self, table: SectionTable) -> bool
        ensures value { result ≡ table_fits self.entry.places self.entry.bytes.now table }
    {
        let size = self.places.section_size;
        let span = Span {
            place: table.place,
            len: size as usize * table.count as usize,
        };
        table.count == 0
            || (u16::field_at(self.bytes, self.places.e_shentsize) == size as u16
                && is_inside(span, self.bytes.len()))
    }

    /// The header. None where it is not whole, says that this is no little-endian image of the
    /// class, or has section headers of another size or outside the image.
    pub fn read_header(self) -> Option<Header>
        ensures value { result ≡ header_of self.entry.places self.entry.bytes.now }
    {
        if !self.is_elf() {
            return None;
        }
        let sections = self.read_table();
        if !self.fits_table(sections) {
            return None;
        }
        Some(Header {
            kind: object_kind(u16::field_at(self.bytes, 16)),
            sections,
            names: u16::field_at(self.bytes, self.places.e_shstrndx),
        })
    }
}
