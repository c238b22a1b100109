// The entries of symbol tables.
ghost use Rattle.std.specs.Prelude.{◌≡◌};
ghost use Rattle.elf.specs.Symbols.{section_named, symbol_in};

use crate::places::Places;
use byte_parts::fields::{Field, number_at};
use byte_parts::span::Span;
use location::Address;
use shelf::object::Symbol;

/// A symbol table of an image.
#[derive(Clone, Copy)]
pub struct SymbolTable {
    /// Where entry 0 starts.
    pub place: usize,
    /// How many symbols are listed: the entries but entry 0.
    pub count: usize,
    /// Where the strings with the names lie.
    pub strings: Span,
    /// A name that starts before this place in the strings ends with a zero byte, and no other does.
    pub readable: usize,
}

// The section that a number of a symbol stands for: 0 is undefined, and 0xff00 and above are reserved.
fn section_named(number: u16) -> Option<u16>
    ensures value { result ≡ section_named number }
{
    (number != 0 && number < 0xff00).then_some(number)
}

/// What an entry of a symbol table says, but for the name. Bytes that it lacks count as 0.
pub fn read_symbol(entry: &[u8], places: Places) -> Symbol
    ensures value { result ≡ symbol_in places entry.now }
{
    Symbol {
        address: Address(number_at(entry, places.st_value, places.word)),
        section: section_named(u16::field_at(entry, places.st_shndx)),
    }
}
