// A listed shelf, made of its rows.
ghost use Rattle.std.specs.Prelude.{◌≡◌};
ghost use Rattle.listed_shelf.specs.Contents.{shelf_files};
ghost use Rattle.listed_shelf.specs.Model.{listed};

use crate::check::check;
use crate::rows::Listing;

/// A shelf of the files that rows list.
#[derive(Clone, Copy)]
pub struct ListedShelf<'a> {
    pub(crate) rows: Listing<'a>,
}

impl<'a> ListedShelf<'a> {
    /// The shelf of exactly these files. Where `check` refuses the rows, it has no file.
    pub fn new(rows: Listing<'a>) -> ListedShelf<'a>
        ensures items { shelf_files result ≡ listed rows.entry }
    {
        let files = match check(rows) {
            Ok(()) => rows.files,
            Err(_) => &rows.files[..0],
        };
        ListedShelf {
            rows: Listing { files, ..rows },
        }
    }
}
