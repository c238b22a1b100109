// An entry of a symbol table: its bytes, and the strings that have its name.
ghost use Rattle.std.specs.Prelude.{◌≡◌};
ghost use Rattle.byte_parts.specs.Fields.{strings_end};

use byte_parts::fields::{Field, string_at, string_is};
use byte_parts::span::{part_or_empty, row};
use elf::places::elf64_places;
use elf::symbol::{SymbolTable, read_symbol};
use shelf::object::Symbol;

// An entry of a symbol table.
#[derive(Clone, Copy)]
pub(crate) struct Entry<'a> {
    // What it says.
    pub(crate) bytes: &'a [u8],
    // The strings that have its name.
    pub(crate) strings: &'a [u8],
    // The names that start before here in the strings end with a zero byte.
    pub(crate) readable: usize,
    ghost ends: { readable ≡ strings_end strings.now },
}

impl<'a> Entry<'a> {
    ghost use Rattle.std.specs.Prelude.{Some, IsTrue, ◌↔◌};
    ghost use Rattle.std.specs.Option.{option_map};
    ghost use Rattle.std.specs.List.{slice_get};
    ghost use Rattle.elf.specs.Bounds.{TableInside};
    ghost use Rattle.elf.specs.Classes.{elf64};
    ghost use Rattle.elf.specs.Tables.{listed};
    ghost use Rattle.image_shelf.specs.Entries.{entry_model};

    // The symbol at a place of a table.
    pub(crate) fn in_table(image: &'a [u8], table: SymbolTable, at: usize) -> Option<Entry<'a>>
        requires { TableInside elf64 image.now table }
        ensures value { option_map entry_model result ≡ slice_get (listed elf64 image.now table) at }
    {
        if at >= table.count {
            return None;
        }
        let places = elf64_places();
        let bytes = row(image, table.place, places.symbol_size, at + 1)?;
        Some(Entry {
            bytes,
            strings: part_or_empty(image, table.strings),
            readable: table.readable,
        })
    }

    // The symbol, but for its name.
    pub(crate) fn symbol(self) -> Symbol
        ensures value { result ≡ (entry_model self.entry).symbol }
    {
        read_symbol(self.bytes, elf64_places())
    }

    // The name, or none where no zero byte ends it.
    pub(crate) fn name(self) -> Option<&'a [u8]>
        ensures value { option_map (λ x. x.now) result ≡ (entry_model self.entry).name }
    {
        let place = u32::field_at(self.bytes, 0) as usize;
        if place >= self.readable {
            return None;
        }
        string_at(self.strings, place)
    }

    // Whether this is the name.
    pub(crate) fn is_named(self, name: &[u8]) -> bool
        ensures value { IsTrue result ↔ ((entry_model self.entry).name ≡ Some name.now) }
    {
        string_is(self.strings, u32::field_at(self.bytes, 0) as usize, name)
    }
}
