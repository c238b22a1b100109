// An image of a class: its bytes, and where its fields lie.
ghost use Rattle.std.specs.Prelude.{◌≡◌};
ghost use Rattle.elf.specs.Classes.{elf64};

use crate::places::{Places, elf64_places};

/// An image of a class.
#[derive(Clone, Copy)]
pub struct Image<'a> {
    /// Its bytes.
    pub bytes: &'a [u8],
    /// Where the fields of the class lie.
    pub places: Places,
}

impl<'a> Image<'a> {
    /// A 64-bit image.
    pub fn elf64(bytes: &'a [u8]) -> Image<'a>
        ensures bytes { result.bytes.now ≡ bytes.now }
        ensures places { result.places ≡ elf64 }
    {
        Image {
            bytes,
            places: elf64_places(),
        }
    }
}
