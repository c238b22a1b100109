// The files of an image shelf: the one with a path, and the object file with a number.
ghost use Rattle.std.specs.Prelude.{◌≡◌};
ghost use Rattle.std.specs.Option.{option_map};
ghost use Rattle.shelf.specs.Questions.{object_of, opened};
ghost use Rattle.image_shelf.specs.Contents.{shelf_files, shelf_rows};
ghost use Rattle.image_shelf.specs.Objects.{object_model};

use crate::images::ImageShelf;
use crate::object::ObjectImage;
use crate::rows::ImageRow;
use byte_parts::span::part_or_empty;
use shelf::paths::find_path;
use table::at::row_at;

impl<'a> ImageShelf<'a> {
    // The rows of the files.
    fn used(&self) -> &'a [ImageRow]
        ensures value { result.now ≡ shelf_rows self.now }
    {
        &self.rows[..self.files]
    }

    // The number of the first file with this path.
    pub(crate) fn find_path(&self, path: &[u8]) -> Option<usize>
        ensures value { result ≡ opened (shelf_files self.now) path.now }
    {
        find_path(self.used(), self.bytes, path)
    }

    // The object file with this number.
    pub(crate) fn object(&self, file: usize) -> Option<ObjectImage<'a>>
        ensures value { option_map object_model result ≡ object_of (shelf_files self.now) file }
    {
        let row = row_at(self.used(), file)?;
        Some(ObjectImage {
            image: part_or_empty(self.bytes, row.image),
            layout: row.layout?,
        })
    }
}
