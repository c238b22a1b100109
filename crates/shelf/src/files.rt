// The shelf: files that can be asked for what their object files say.
ghost use Rattle.std.specs.Prelude.{◌≡◌, List, Some, IsTrue, ◌↔◌};
ghost use Rattle.shelf.specs.Files.{FileModel};
ghost use Rattle.shelf.specs.Questions.{build_id_byte, build_id_len, debuglink_byte, debuglink_of, kind_of, name_byte, name_len, name_of, opened, section_at, section_of, sections_of, symbol_of, symbols_of, with_name};

use crate::object::{Debuglink, ObjectKind, Section, Symbol};

// A file goes by a number and by no handle that holds the shelf: each question would stand twice, here
// and on the handle. Names, debuglinks and build ids each have their questions for a length and a byte:
// one question over a kind of text would be longer to ask.
/// Files that can be asked for what their object files say. A file goes by the number that opening
/// it answers. A question about a number that no file has, about a file that is no object file, or
/// about a place that is out of range is answered by none. Questions alter nothing.
pub trait Shelf {
    // the files, in order
    ghost files: { Self → List FileModel };

    /// The number of the first file with exactly this path, or none where there is none: then the
    /// path cannot be read.
    fn open(&self, path: &[u8]) -> Option<usize>
        ensures value { result ≡ opened (files self.now) path.now };

    /// What kind of object file this is, or none where it is no object file.
    fn kind(&self, file: usize) -> Option<ObjectKind>
        ensures value { result ≡ kind_of (files self.now) file };

    /// How many symbols the object file has.
    fn symbol_count(&self, file: usize) -> Option<usize>
        ensures value { result ≡ symbols_of (files self.now) file };

    /// The symbol at this place in the order of a scan, from 0.
    fn symbol(&self, file: usize, symbol: usize) -> Option<Symbol>
        ensures value { result ≡ symbol_of (files self.now) file symbol };

    /// How long the name of that symbol is, or none also where it has no name.
    fn name_len(&self, file: usize, symbol: usize) -> Option<usize>
        ensures value { result ≡ name_len (files self.now) file symbol };

    /// The byte at a place of that symbol's name.
    fn name_byte(&self, file: usize, symbol: usize, at: usize) -> Option<u8>
        ensures value { result ≡ name_byte (files self.now) file symbol at };

    /// Whether that symbol has exactly this name.
    fn name_is(&self, file: usize, symbol: usize, name: &[u8]) -> bool
        ensures value { IsTrue result ↔ (name_of (files self.now) file symbol ≡ Some name.now) }
    {
        if self.name_len(file, symbol) != Some(name.len()) {
            return false;
        }
        for (at, byte) in name.iter().enumerate() {
            if self.name_byte(file, symbol, at) != Some(*byte) {
                return false;
            }
        }
        true
    }

    /// Writes that symbol's name into the front of `out`, and answers how long it is. Nothing is
    /// written where the symbol has no name, or a name that is longer than `out`.
    fn copy_name(&self, file: usize, symbol: usize, out: &mut [u8]) -> Option<usize>
        ensures value { result ≡ name_len (files self.now) file symbol }
        ensures after { out.new ≡ with_name (name_of (files self.now) file symbol) out.old }
    {
        let len = self.name_len(file, symbol)?;
        if len > out.len() {
            return Some(len);
        }
        for (at, slot) in out[..len].iter_mut().enumerate() {
            let Some(byte) = self.name_byte(file, symbol, at) else {
                return Some(len);
            };
            *slot = byte;
        }
        Some(len)
    }

    /// How many sections the object file has.
    fn section_count(&self, file: usize) -> Option<usize>
        ensures value { result ≡ sections_of (files self.now) file };

    /// The section at this place in the order of the file, from 0.
    fn section_at(&self, file: usize, place: usize) -> Option<Section>
        ensures value { result ≡ section_at (files self.now) file place };

    /// The first section with this number.
    fn section(&self, file: usize, number: u16) -> Option<Section>
        ensures value { result ≡ section_of (files self.now) file number };

    /// What the object file says of the file with its debug symbols, with the length of its name.
    fn debuglink(&self, file: usize) -> Option<Debuglink<usize>>
        ensures value { result ≡ debuglink_of (files self.now) file };

    /// The byte at a place of that file's name.
    fn debuglink_byte(&self, file: usize, at: usize) -> Option<u8>
        ensures value { result ≡ debuglink_byte (files self.now) file at };

    /// How long the build id is, or none also where there is none.
    fn build_id_len(&self, file: usize) -> Option<usize>
        ensures value { result ≡ build_id_len (files self.now) file };

    /// The byte at a place of the build id.
    fn build_id_byte(&self, file: usize, at: usize) -> Option<u8>
        ensures value { result ≡ build_id_byte (files self.now) file at };
}
