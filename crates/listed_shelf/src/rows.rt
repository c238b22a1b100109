// The rows that a listed shelf is made of.
use byte_parts::span::Span;
use shelf::object::{Debuglink, ObjectKind, Section, Symbol};
use shelf::paths::PathRow;

/// A file.
#[derive(Clone, Copy)]
pub struct FileRow {
    /// Where its path lies in the text.
    pub path: Span,
    /// What its object file says, or none where it is no object file.
    pub object: Option<ObjectRow>,
}

impl PathRow for FileRow {
    ghost span = { λ row. row.path };

    fn path(&self) -> Span {
        self.path
    }
}

/// An object file.
#[derive(Clone, Copy)]
pub struct ObjectRow {
    /// What the object file is for.
    pub kind: ObjectKind,
    /// Which symbol rows are its own, in the order of a scan.
    pub symbols: Span,
    /// Which sections are its own.
    pub sections: Span,
    /// What it says of the file that has its debug symbols, with where that file's name lies in the text.
    pub debuglink: Debuglink<Span>,
    /// Where its build id lies in the text, or none where it has none.
    pub build_id: Option<Span>,
}

/// A symbol.
#[derive(Clone, Copy)]
pub struct SymbolRow {
    /// Where its name lies in the text, or none where it has no name.
    pub name: Option<Span>,
    /// All else that is known of it.
    pub symbol: Symbol,
}

/// All rows of a listed shelf, and the text that they point into.
#[derive(Clone, Copy)]
pub struct Listing<'a> {
    /// The files.
    pub files: &'a [FileRow],
    /// The symbols of all object files.
    pub symbols: &'a [SymbolRow],
    /// The sections of all object files. They hold numbers alone, so none points outside.
    pub sections: &'a [Section],
    /// The names, paths and build ids.
    pub text: &'a [u8],
}
