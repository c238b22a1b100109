// The rows that an image shelf is made of.
ghost use Rattle.std.specs.Prelude.{◌≡◌, None};

use byte_parts::span::Span;
use elf::layout::Layout;
use shelf::paths::PathRow;

/// A file of an image shelf.
#[derive(Clone, Copy)]
pub struct ImageRow {
    /// Where its path lies.
    pub path: Span,
    /// Where its bytes lie.
    pub image: Span,
    // Where the parts of the image lie, or none where it is no object file: read when a shelf is made.
    pub(crate) layout: Option<Layout>,
}

impl PathRow for ImageRow {
    ghost span = { λ row. row.path };

    fn path(&self) -> Span {
        self.path
    }
}

impl ImageRow {
    /// A file by where its path and its bytes lie. The image is read when a shelf is made of the row.
    pub fn new(path: Span, image: Span) -> ImageRow
        ensures path { result.path ≡ path }
        ensures image { result.image ≡ image }
        ensures unread { result.layout ≡ None }
    {
        ImageRow {
            path,
            image,
            layout: None,
        }
    }
}
