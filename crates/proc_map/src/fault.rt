// Why maps cannot be read.
ghost use Rattle.proc_map.specs.Faults.{line_refusal};

use byte_parts::refusal::Fault;

// A place and a length by name, and no `Span`: they are the values that the refusal tells.
/// Why a line of maps cannot be read.
#[derive(Clone, Copy)]
pub enum LineFault {
    /// Refusal 3: the line at `place`, of `len` bytes, is no line of maps.
    ParseLine { place: usize, len: usize },
}

// The number of the refusal: 3.
impl Fault for LineFault {
    ghost told = { line_refusal };

    fn refusal(self) -> u32 {
        match self {
            LineFault::ParseLine { .. } => 3,
        }
    }
}
