// Stretches of a longer slice, by place and length, and rows of a table in it.
ghost use Rattle.std.specs.Prelude.{◌≡◌};
ghost use Rattle.std.specs.Option.{option_map};
ghost use Rattle.byte_parts.specs.Spans.{inside, read_of, row_of, span_of};

/// Where a stretch lies in a longer slice.
#[derive(Clone, Copy)]
pub struct Span {
    /// Where it starts, from 0.
    pub place: usize,
    /// How long it is.
    pub len: usize,
}

/// The elements of the span, or none where it is not wholly inside.
pub fn part<T>(items: &[T], span: Span) -> Option<&[T]>
    ensures value { option_map (λ x. x.now) result ≡ span_of items.now span }
{
    items.get(span.place..)?.get(..span.len)
}

/// The elements of the span, or no element where it is not wholly inside.
pub fn part_or_empty<T>(items: &[T], span: Span) -> &[T]
    ensures value { result.now ≡ read_of items.now span }
{
    part(items, span).unwrap_or(&items[..0])
}

/// Whether the span is inside what is this long.
pub fn is_inside(span: Span, length: usize) -> bool
    ensures value { result ≡ inside length span }
{
    span.place
        .checked_add(span.len)
        .is_some_and(|end| end <= length)
}

/// Row `number`, from 0, of the table of rows of `size` bytes that starts at `place`, or none where
/// it is not wholly inside.
pub fn row(bytes: &[u8], place: usize, size: u8, number: usize) -> Option<&[u8]>
    ensures value { option_map (λ x. x.now) result ≡ row_of bytes.now place size number }
{
    let start = place as u128 + size as u128 * number as u128;
    let place = usize::try_from(start).ok()?;
    let len = size as usize;
    part(bytes, Span { place, len })
}
