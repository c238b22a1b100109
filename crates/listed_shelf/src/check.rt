// Whether the rows of a listed shelf point inside.
ghost use Rattle.std.specs.Prelude.{◌≡◌, position};
ghost use Rattle.shelf.specs.Faults.{verdict};
ghost use Rattle.listed_shelf.specs.Outside.{file_outside, first_outside, symbol_outside};

use crate::extent::{Extent, file_outside, symbol_outside};
use crate::rows::{FileRow, Listing, SymbolRow};
use shelf::fault::{ShelfFault, refuse_outside};

// A function for each chain: the proof of both in one function did not close.

// The first file row that reaches out of the extent.
fn outside_file(rows: &[FileRow], extent: Extent) -> Option<usize>
    ensures value { result ≡ position (file_outside extent) rows.now }
{
    rows.iter().position(|row| file_outside(row, extent))
}

// The first symbol row that does.
fn outside_symbol(rows: &[SymbolRow], extent: Extent) -> Option<usize>
    ensures value { result ≡ position (symbol_outside extent) rows.now }
{
    rows.iter().position(|row| symbol_outside(row, extent))
}

// The first row that points outside, counted over the files, then the symbols.
fn find_outside(rows: Listing<'_>) -> Option<usize>
    ensures value { result ≡ first_outside rows.entry }
{
    let extent = Extent {
        symbols: rows.symbols.len(),
        sections: rows.sections.len(),
        text: rows.text.len(),
    };
    if let Some(place) = outside_file(rows.files, extent) {
        return Some(place);
    }
    let place = outside_symbol(rows.symbols, extent)?;
    Some(rows.files.len() + place)
}

/// Whether each row points inside: the spans of an object file's symbols and sections into their
/// rows, and every other span into the text.
///
/// Refuses with 33 the first row that points outside, counted over the files, then the symbols,
/// then the sections.
pub fn check(rows: Listing<'_>) -> Result<(), ShelfFault>
    ensures value { result ≡ verdict (first_outside rows.entry) }
{
    refuse_outside(find_outside(rows))
}
