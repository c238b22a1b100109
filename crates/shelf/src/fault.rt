// Why a shelf cannot be made of its rows.
ghost use Rattle.std.specs.Prelude.{◌≡◌};
ghost use Rattle.shelf.specs.Faults.{shelf_refusal, verdict};

use byte_parts::refusal::Fault;

/// Why a shelf cannot be made of its rows.
#[derive(Clone, Copy)]
pub enum ShelfFault {
    /// Refusal 33: a row points outside, with the place of the first, counted over all rows.
    RowOutside { place: usize },
}

// The number of the refusal: 33.
impl Fault for ShelfFault {
    ghost told = { shelf_refusal };

    fn refusal(self) -> u32 {
        match self {
            ShelfFault::RowOutside { .. } => 33,
        }
    }
}

/// Refuses with 33 the row that points outside, if there is one.
pub fn refuse_outside(row: Option<usize>) -> Result<(), ShelfFault>
    ensures value { result ≡ verdict row }
{
    match row {
        Some(place) => Err(ShelfFault::RowOutside { place }),
        None => Ok(()),
    }
}
