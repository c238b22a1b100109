// Numbers written as text.
ghost use Rattle.std.specs.Prelude.{ℕ, MatchOption};
ghost use Rattle.byte_parts.specs.Numbers.{Writes, base};

use std::str;

/// What the digits of a number count.
#[derive(Clone, Copy)]
pub enum Radix {
    /// Digits 0 to 9.
    Decimal,
    /// Digits 0 to 9 and a to f, in either case.
    Hexadecimal,
}

/// The number that `text` writes: perhaps one `+`, then one digit or more, and nothing else.
/// None where `text` writes no number, or one above 2^64 - 1.
pub fn parse_number(text: &[u8], radix: Radix) -> Option<u64>
    ensures cases { MatchOption result ((n : ℕ) → Writes (base radix) text.now n → ⊥) (Writes (base radix) text.now) }
{
    // No `?`: the error is dropped, so `ok()?` is no plainer.
    let Ok(digits) = str::from_utf8(text) else {
        return None;
    };
    let number = match radix {
        Radix::Decimal => u64::from_str_radix(digits, 10),
        Radix::Hexadecimal => u64::from_str_radix(digits, 16),
    };
    number.ok()
}
