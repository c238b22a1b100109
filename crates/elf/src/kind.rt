// What a section is, by the number of its type.
ghost use Rattle.std.specs.Prelude.{◌≡◌};
ghost use Rattle.elf.specs.Kinds.{kind_of};

/// What a section is.
#[derive(Clone, Copy, PartialEq, Eq)]
pub enum SectionKind {
    /// Type 2: plain symbols.
    PlainSymbols,
    /// Type 7: notes.
    Notes,
    /// Type 8: it takes no room in the file.
    NoBits,
    /// Type 11: dynamic symbols.
    DynamicSymbols,
    /// Any other type, by its number.
    Other(u32),
}

impl From<u32> for SectionKind {
    ghost from_gives = { λ number kind. kind ≡ kind_of number };

    fn from(number: u32) -> SectionKind {
        match number {
            2 => SectionKind::PlainSymbols,
            7 => SectionKind::Notes,
            8 => SectionKind::NoBits,
            11 => SectionKind::DynamicSymbols,
            other => SectionKind::Other(other),
        }
    }
}
