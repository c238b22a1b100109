// Making an image shelf: the rows are checked, and each image is read once.
ghost use Rattle.std.specs.Prelude.{◌≡◌, map};
ghost use Rattle.image_shelf.specs.Contents.{shelf_files};
ghost use Rattle.image_shelf.specs.Images.{image_files, read_rows, with_layout};
ghost use Rattle.image_shelf.specs.Laws.{HasRows};

use crate::check::check;
use crate::images::ImageShelf;
use crate::rows::ImageRow;
use byte_parts::span::part_or_empty;
use elf::image::Image;

// Reads each image, and keeps in its row where its parts lie.
fn lay_out(bytes: &[u8], rows: &mut [ImageRow])
    ensures items { rows.new ≡ map (with_layout bytes.now) rows.old }
{
    for row in rows {
        let image = Image::elf64(part_or_empty(bytes, row.image));
        row.layout = image.read_layout();
    }
}

impl<'a> ImageShelf<'a> {
    /// The shelf of the files that the rows list. Each image is read once, and its row keeps where
    /// its parts lie. Where `check` refuses the rows, the shelf has no file, and the rows stay as
    /// they were.
    pub fn new(bytes: &'a [u8], rows: &'a mut [ImageRow]) -> ImageShelf<'a>
        ensures items { shelf_files result ≡ image_files bytes.now rows.old }
        ensures rows { result.rows.now ≡ read_rows bytes.now rows.old }
        ensures law { HasRows bytes.now rows.old (shelf_files result) }
    {
        if check(bytes, rows).is_err() {
            return ImageShelf {
                bytes,
                rows,
                files: 0,
            };
        }
        lay_out(bytes, rows);
        let files = rows.len();
        ImageShelf { bytes, rows, files }
    }
}
