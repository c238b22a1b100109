// A shelf of images: the struct alone. Its functions cite definitions that name it.
ghost use Rattle.std.specs.Prelude.{◌≤◌, length, take};
ghost use Rattle.image_shelf.specs.Images.{AllLaid};

use crate::rows::ImageRow;

/// A shelf of the ELF images that rows list.
#[derive(Clone, Copy)]
pub struct ImageShelf<'a> {
    pub(crate) bytes: &'a [u8],
    pub(crate) rows: &'a [ImageRow],
    // how many of the rows are files of the shelf: all, or none where one points outside. A count
    // beside all the rows, since what the lent rows hold is said of those that the shelf holds.
    pub(crate) files: usize,
    ghost within: { files ≤ length rows.now },
    ghost laid: { ∥ AllLaid bytes.now (take files rows.now) ∥₁ },
}
