// The rows and texts of a listed shelf that questions ask for.
ghost use Rattle.std.specs.Prelude.{◌≡◌};
ghost use Rattle.std.specs.Option.{option_map};
ghost use Rattle.byte_parts.specs.Spans.{read_of};
ghost use Rattle.shelf.specs.Questions.{ask, link_name, model_of, name_of, object_of};
ghost use Rattle.listed_shelf.specs.Contents.{object_on, shelf_files};
ghost use Rattle.listed_shelf.specs.Model.{symbol_model};

use crate::listed::ListedShelf;
use crate::rows::{ObjectRow, SymbolRow};
use byte_parts::span::{Span, part_or_empty};
use shelf::object::{Debuglink, Section};
use table::at::row_at;

impl<'a> ListedShelf<'a> {
    // The object file with this number.
    pub(crate) fn object_row(&self, file: usize) -> Option<ObjectRow>
        ensures value { option_map (object_on self.now) result ≡ object_of (shelf_files self.now) file }
    {
        row_at(self.rows.files, file)?.object
    }

    // The symbol at this place of that object file.
    pub(crate) fn symbol_row(&self, file: usize, symbol: usize) -> Option<SymbolRow>
        ensures value { option_map (symbol_model self.now.rows.text.now) result ≡ model_of (shelf_files self.now) file symbol }
    {
        let object = self.object_row(file)?;
        row_at(part_or_empty(self.rows.symbols, object.symbols), symbol)
    }

    // The name of that symbol.
    pub(crate) fn name(&self, file: usize, symbol: usize) -> Option<&[u8]>
        ensures value { option_map (λ x. x.now) result ≡ name_of (shelf_files self.now) file symbol }
    {
        optional_part(self.rows.text, self.symbol_row(file, symbol)?.name)
    }

    // The sections of the object file with this number.
    pub(crate) fn section_rows(&self, file: usize) -> Option<&[Section]>
        ensures value { option_map (λ rows. rows.now) result ≡ option_map (λ o. o.sections) (object_of (shelf_files self.now) file) }
    {
        let object = self.object_row(file)?;
        Some(part_or_empty(self.rows.sections, object.sections))
    }

    // The name of the file with the debug symbols of that object file.
    pub(crate) fn link(&self, file: usize) -> Option<&[u8]>
        ensures value { option_map (λ x. x.now) result ≡ ask (object_of (shelf_files self.now) file) (λ o. link_name o.debuglink) }
    {
        // All three cases are written out: one question on the enum would hide two of them.
        match self.object_row(file)?.debuglink {
            Debuglink::Named(name) => Some(part_or_empty(self.rows.text, name)),
            Debuglink::Absent | Debuglink::Malformed => None,
        }
    }

    // The build id of that object file.
    pub(crate) fn build_id(&self, file: usize) -> Option<&[u8]>
        ensures value { option_map (λ x. x.now) result ≡ ask (object_of (shelf_files self.now) file) (λ o. o.build_id) }
    {
        optional_part(self.rows.text, self.object_row(file)?.build_id)
    }
}

// The bytes of the span, if there is one.
fn optional_part(text: &[u8], span: Option<Span>) -> Option<&[u8]>
    ensures value { option_map (λ x. x.now) result ≡ option_map (read_of text.now) span }
{
    Some(part_or_empty(text, span?))
}
