// Whether the rows of an image shelf point inside.
ghost use Rattle.std.specs.Prelude.{◌≡◌, position};
ghost use Rattle.shelf.specs.Faults.{verdict};
ghost use Rattle.image_shelf.specs.Images.{first_outside, outside};

use crate::rows::ImageRow;
use byte_parts::span::is_inside;
use shelf::fault::{ShelfFault, refuse_outside};

// Whether a row reaches out of what is this long.
fn is_outside(row: &ImageRow, length: usize) -> bool
    ensures value { result ≡ outside length row.now }
{
    !(is_inside(row.path, length) && is_inside(row.image, length))
}

// The first row that does.
fn find_outside(rows: &[ImageRow], length: usize) -> Option<usize>
    ensures value { result ≡ position (outside length) rows.now }
{
    rows.iter().position(|row| is_outside(row, length))
}

/// Whether each row points inside: its path and its image.
///
/// Refuses with 33 the first row that points outside, by its place.
pub fn check(bytes: &[u8], rows: &[ImageRow]) -> Result<(), ShelfFault>
    ensures value { result ≡ verdict (first_outside bytes.now rows.now) }
{
    refuse_outside(find_outside(rows, bytes.len()))
}
