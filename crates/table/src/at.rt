// The row at a place.
ghost use Rattle.std.specs.Prelude.{◌≡◌};
ghost use Rattle.std.specs.List.{slice_get};

/// The row at the place, or none where no row stands there.
pub fn row_at<R: Copy>(rows: &[R], place: usize) -> Option<R>
    ensures value { result ≡ slice_get rows.now place }
{
    rows.get(place).copied()
}
