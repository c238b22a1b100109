// Files by their path: rows that tell where in a text their path lies.
ghost use Rattle.std.specs.Prelude.{◌≡◌, position};
ghost use Rattle.std.specs.Str.{bytes_eq};
ghost use Rattle.byte_parts.specs.Spans.{read_of};
ghost use Rattle.byte_parts.specs.declared.span.Span.{Span as ASpan};

use byte_parts::span::{Span, part_or_empty};

/// A row of a file, whose path lies in a text.
pub trait PathRow {
    // where its path lies
    ghost span: { Self → ASpan };

    /// Where its path lies.
    fn path(&self) -> Span
        ensures value { result ≡ span self.now };
}

/// The number of the first row with exactly this path, or none where no row has it.
pub fn find_path<R: PathRow>(rows: &[R], text: &[u8], path: &[u8]) -> Option<usize>
    ensures value { result ≡ position (λ row. bytes_eq (read_of text.now (R.span row)) path.now) rows.now }
{
    rows.iter()
        .position(|row| part_or_empty(text, row.path()) == path)
}
