// Where the fields of an image lie: one record for each class of images.
ghost use Rattle.std.specs.Prelude.{◌≡◌};
ghost use Rattle.elf.specs.Classes.{elf64};

use byte_parts::fields::Width;

/// Where the fields of an image lie, and how large its rows are. Fields go by the names that the
/// ELF specification gives them.
#[derive(Clone, Copy)]
pub struct Places {
    /// The number of the class in the identification: a byte, since all of that is compared at once.
    pub class: u8,
    /// How wide addresses, offsets and sizes are.
    pub word: Width,
    /// How long the header is.
    pub header_size: u8,
    /// Where the header says where the section headers start.
    pub e_shoff: u8,
    /// Where it says how long a section header is.
    pub e_shentsize: u8,
    /// Where it says how many section headers there are.
    pub e_shnum: u8,
    /// Where it says which section has the names of sections.
    pub e_shstrndx: u8,
    /// How long the header of a section is.
    pub section_size: u8,
    /// Where a section header says where the section starts in memory.
    pub sh_addr: u8,
    /// Where it says where the section starts in the file.
    pub sh_offset: u8,
    /// Where it says how long the section is.
    pub sh_size: u8,
    /// Where it says which section goes with it.
    pub sh_link: u8,
    /// Where it says how long the section's entries are.
    pub sh_entsize: u8,
    /// How long an entry of a symbol table is.
    pub symbol_size: u8,
    /// Where an entry of a symbol table says what the symbol stands for.
    pub st_value: u8,
    /// Where it says which section the symbol lies in.
    pub st_shndx: u8,
}

/// The places of class 2: 64-bit images.
pub fn elf64_places() -> Places
    ensures value { result ≡ elf64 }
{
    Places {
        class: 2,
        word: Width::Eight,
        header_size: 64,
        e_shoff: 40,
        e_shentsize: 58,
        e_shnum: 60,
        e_shstrndx: 62,
        section_size: 64,
        sh_addr: 16,
        sh_offset: 24,
        sh_size: 32,
        sh_link: 40,
        sh_entsize: 56,
        symbol_size: 24,
        st_value: 8,
        st_shndx: 6,
    }
}
