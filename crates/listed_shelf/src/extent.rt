// How far the spans of a row may reach, and which rows reach outside.
ghost use Rattle.std.specs.Prelude.{◌≡◌};
ghost use Rattle.listed_shelf.specs.Outside.{file_outside, link_inside, object_inside, optional_inside, symbol_outside};

use crate::rows::{FileRow, ObjectRow, SymbolRow};
use byte_parts::span::{Span, is_inside};
use shelf::object::Debuglink;

// How many symbol rows and section rows there are, and how long the text is.
#[derive(Clone, Copy)]
pub(crate) struct Extent {
    pub(crate) symbols: usize,
    pub(crate) sections: usize,
    pub(crate) text: usize,
}

// Whether a file row reaches out of the extent.
pub(crate) fn file_outside(row: &FileRow, extent: Extent) -> bool
    ensures value { result ≡ file_outside extent row.now }
{
    !is_inside(row.path, extent.text)
        || row
            .object
            .is_some_and(|object| !object_inside(object, extent))
}

// Whether a symbol row reaches out of the extent.
pub(crate) fn symbol_outside(row: &SymbolRow, extent: Extent) -> bool
    ensures value { result ≡ symbol_outside extent row.now }
{
    !optional_inside(row.name, extent.text)
}

// Whether each span of the object file is inside.
fn object_inside(object: ObjectRow, extent: Extent) -> bool
    ensures value { result ≡ object_inside extent object }
{
    is_inside(object.symbols, extent.symbols)
        && is_inside(object.sections, extent.sections)
        && link_inside(object.debuglink, extent.text)
        && optional_inside(object.build_id, extent.text)
}

// Whether the name in a debug link, if there is one, is inside what is this long.
fn link_inside(link: Debuglink<Span>, length: usize) -> bool
    ensures value { result ≡ link_inside length link }
{
    match link {
        Debuglink::Named(name) => is_inside(name, length),
        Debuglink::Absent | Debuglink::Malformed => true,
    }
}

// Whether the span, if there is one, is inside what is this long.
fn optional_inside(span: Option<Span>, length: usize) -> bool
    ensures value { result ≡ optional_inside length span }
{
    span.is_none_or(|span| is_inside(span, length))
}
