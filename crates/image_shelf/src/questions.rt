// What an image shelf answers.
ghost use Rattle.image_shelf.specs.Contents.{shelf_files};

use crate::images::ImageShelf;
use crate::sections::{numbered_section, section_in_order};
use shelf::files::Shelf;
use shelf::object::{Debuglink, ObjectKind, Section, Symbol};
use shelf::text::{byte_of, len_of};

// The one-line questions for lengths and bytes stand in both shelves: a trait for them would be longer.
/// The files that the rows list, each with what its image says.
impl<'a> Shelf for ImageShelf<'a> {
    ghost files = { shelf_files };

    fn open(&self, path: &[u8]) -> Option<usize> {
        self.find_path(path)
    }

    fn kind(&self, file: usize) -> Option<ObjectKind> {
        Some(self.object(file)?.layout.kind)
    }

    fn symbol_count(&self, file: usize) -> Option<usize> {
        Some(self.object(file)?.symbol_count())
    }

    fn symbol(&self, file: usize, symbol: usize) -> Option<Symbol> {
        Some(self.entry(file, symbol)?.symbol())
    }

    fn name_len(&self, file: usize, symbol: usize) -> Option<usize> {
        len_of(self.name(file, symbol))
    }

    fn name_byte(&self, file: usize, symbol: usize, at: usize) -> Option<u8> {
        byte_of(self.name(file, symbol), at)
    }

    fn name_is(&self, file: usize, symbol: usize, name: &[u8]) -> bool {
        self.entry(file, symbol)
            .is_some_and(|entry| entry.is_named(name))
    }

    fn copy_name(&self, file: usize, symbol: usize, out: &mut [u8]) -> Option<usize> {
        let name = self.name(file, symbol)?;
        let len = name.len();
        if len <= out.len() {
            out[0..len].copy_from_slice(name);
        }
        Some(len)
    }

    fn section_count(&self, file: usize) -> Option<usize> {
        Some(self.object(file)?.section_count())
    }

    fn section_at(&self, file: usize, place: usize) -> Option<Section> {
        section_in_order(self.object(file)?.sections(), place)
    }

    fn section(&self, file: usize, number: u16) -> Option<Section> {
        numbered_section(self.object(file)?.sections(), number)
    }

    fn debuglink(&self, file: usize) -> Option<Debuglink<usize>> {
        Some(self.object(file)?.debuglink())
    }

    fn debuglink_byte(&self, file: usize, at: usize) -> Option<u8> {
        byte_of(self.link(file), at)
    }

    fn build_id_len(&self, file: usize) -> Option<usize> {
        len_of(self.build_id(file))
    }

    fn build_id_byte(&self, file: usize, at: usize) -> Option<u8> {
        byte_of(self.build_id(file), at)
    }
}
