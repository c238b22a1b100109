// What a shelf answers of an object file.
ghost use Rattle.std.specs.Prelude.{◌==◌};

use location::{Address, FileOffset};
use table::row::Row;

/// What an object file is for.
#[derive(Clone, Copy)]
pub enum ObjectKind {
    /// A program.
    Executable,
    /// A shared library, or a program that can be loaded anywhere.
    Dynamic,
    /// Any other, as one still to be linked.
    Other,
}

/// A symbol, but for its name.
#[derive(Clone, Copy)]
pub struct Symbol {
    /// What the symbol stands for.
    pub address: Address,
    /// The number of the section that it lies in, or none.
    pub section: Option<u16>,
}

/// A section.
#[derive(Clone, Copy)]
pub struct Section {
    /// The number by which symbols name it.
    pub number: u16,
    /// Where it starts in memory.
    pub address: Address,
    /// Where it starts in the file, or none where it takes no room there.
    pub offset: Option<FileOffset>,
}

// A section is found by its number.
impl Row<u16> for Section {
    ghost has = { λ section number. (section.number == number) };

    fn is(&self, key: &u16) -> bool {
        self.number == *key
    }
}

// No `Result` of an `Option`: all three cases are answers, and code goes by their names.
/// What an object file says of the file that has its debug symbols. Of its name it holds an `N`: how
/// long it is, or where it lies.
#[derive(Clone, Copy)]
pub enum Debuglink<N> {
    /// Nothing.
    Absent,
    /// Something that cannot be read.
    Malformed,
    /// Its name.
    Named(N),
}
