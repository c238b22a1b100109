// Addresses and file offsets, and the one way from the first to the second: through a section.
#![tactic(auto)]

ghost use Rattle.std.specs.Prelude.{◌≡◌, ◌+◌, IfOk};
ghost use Rattle.location.specs.Translation.{location_refusal, outcome, translated};

use byte_parts::refusal::Fault;

/// An address in memory, as symbols and sections of an object file have it.
#[derive(Clone, Copy)]
pub struct Address(pub u64);

/// A place in a file, in bytes from its start.
#[derive(Clone, Copy)]
pub struct FileOffset(pub u64);

// The three numbers stand in both cases: a struct of them would be one more thing to take apart.
/// Why an address has no file offset.
#[derive(Clone, Copy)]
pub enum LocationFault {
    /// Refusal 1: the address is below the section's.
    AddressNotInSection {
        instruction_address: Address,
        section_address: Address,
        section_offset: FileOffset,
    },
    /// Refusal 2: the file offset would pass 2^64 - 1.
    FileOffsetOverflow {
        instruction_address: Address,
        section_address: Address,
        section_offset: FileOffset,
    },
}

// The number of the refusal: 1 or 2.
impl Fault for LocationFault {
    ghost told = { location_refusal };

    fn refusal(self) -> u32 {
        match self {
            LocationFault::AddressNotInSection { .. } => 1,
            LocationFault::FileOffsetOverflow { .. } => 2,
        }
    }
}

/// Where in the file the instruction at an address of memory stands, by the address and the file
/// offset of the section that holds it: as far from the section's start there as in memory.
///
/// Refuses with 1 an address below the section's, and with 2 an offset above 2^64 - 1; both carry
/// the three numbers.
pub fn from_virtual_address(
    instruction_address: Address,
    section_address: Address,
    section_offset: FileOffset,
) -> Result<FileOffset, LocationFault>
    ensures value { outcome result ≡ translated instruction_address.0 section_address.0 section_offset.0 }
    ensures distance { IfOk result (λ f. f.0 + section_address.0 ≡ instruction_address.0 + section_offset.0) }
{
    let distance = instruction_address
        .0
        .checked_sub(section_address.0)
        .ok_or(LocationFault::AddressNotInSection {
            instruction_address,
            section_address,
            section_offset,
        })?;
    let offset = distance
        .checked_add(section_offset.0)
        .ok_or(LocationFault::FileOffsetOverflow {
            instruction_address,
            section_address,
            section_offset,
        })?;
    Ok(FileOffset(offset))
}
