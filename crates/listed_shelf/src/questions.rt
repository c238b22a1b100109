// What a listed shelf answers.
ghost use Rattle.listed_shelf.specs.Contents.{shelf_files};

use crate::listed::ListedShelf;
use crate::sections::section_in;
use byte_parts::span::part_or_empty;
use shelf::files::Shelf;
use shelf::object::{Debuglink, ObjectKind, Section, Symbol};
use shelf::paths::find_path;
use shelf::text::{byte_of, len_of};
use table::at::row_at;

// The one-line questions for lengths and bytes stand in both shelves: a trait for them would be longer.
/// The files that the rows list.
impl<'a> Shelf for ListedShelf<'a> {
    ghost files = { shelf_files };

    fn open(&self, path: &[u8]) -> Option<usize> {
        find_path(self.rows.files, self.rows.text, path)
    }

    fn kind(&self, file: usize) -> Option<ObjectKind> {
        Some(self.object_row(file)?.kind)
    }

    fn symbol_count(&self, file: usize) -> Option<usize> {
        let object = self.object_row(file)?;
        Some(part_or_empty(self.rows.symbols, object.symbols).len())
    }

    fn symbol(&self, file: usize, symbol: usize) -> Option<Symbol> {
        Some(self.symbol_row(file, symbol)?.symbol)
    }

    fn name_len(&self, file: usize, symbol: usize) -> Option<usize> {
        len_of(self.name(file, symbol))
    }

    fn name_byte(&self, file: usize, symbol: usize, at: usize) -> Option<u8> {
        byte_of(self.name(file, symbol), at)
    }

    fn section_count(&self, file: usize) -> Option<usize> {
        Some(self.section_rows(file)?.len())
    }

    fn section_at(&self, file: usize, place: usize) -> Option<Section> {
        row_at(self.section_rows(file)?, place)
    }

    fn section(&self, file: usize, number: u16) -> Option<Section> {
        section_in(self.section_rows(file)?, number)
    }

    fn debuglink(&self, file: usize) -> Option<Debuglink<usize>> {
        Some(match self.object_row(file)?.debuglink {
            Debuglink::Absent => Debuglink::Absent,
            Debuglink::Malformed => Debuglink::Malformed,
            Debuglink::Named(name) => Debuglink::Named(part_or_empty(self.rows.text, name).len()),
        })
    }

    fn debuglink_byte(&self, file: usize, at: usize) -> Option<u8> {
        byte_of(self.link(file), at)
    }

    fn build_id_len(&self, file: usize) -> Option<usize> {
        len_of(self.build_id(file))
    }

    fn build_id_byte(&self, file: usize, at: usize) -> Option<u8> {
        byte_of(self.build_id(file), at)
    }
}
