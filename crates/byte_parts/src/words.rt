// White space and the words between it: space, tab, line feed, form feed and carriage return are white.
ghost use Rattle.std.specs.Prelude.{◌≡◌, ℕ, ◌≤◌, List, length, MatchOption};
ghost use Rattle.std.specs.List.{prefix_len, suffix_len};
ghost use Rattle.byte_parts.specs.Words.{white, dark, FirstWord};

/// A word and what follows it.
#[derive(Clone, Copy)]
pub struct Word<'a> {
    /// The word: at least one byte, none of them white.
    pub word: &'a [u8],
    /// What follows the word: nothing, or something that starts with white space.
    pub rest: &'a [u8],
}

// A function for each end, as std has them as two methods. The bound stands in each contract, and in no
// type: a count is a plain number to its callers.
/// How many white bytes `text` starts with.
pub fn leading_white(text: &[u8]) -> usize
    ensures value { result ≡ prefix_len white text.now }
    ensures bound { result ≤ length text.now }
{
    text.len() - text.trim_ascii_start().len()
}

/// How many white bytes `text` ends with.
pub fn ending_white(text: &[u8]) -> usize
    ensures value { result ≡ suffix_len white text.now }
    ensures bound { result ≤ length text.now }
{
    text.len() - text.trim_ascii_end().len()
}

// How many bytes that are not white `text` starts with.
fn word_len(text: &[u8]) -> usize
    ensures value { result ≡ prefix_len dark text.now }
    ensures bound { result ≤ length text.now }
{
    text.iter()
        .position(|byte| byte.is_ascii_whitespace())
        .unwrap_or(text.len())
}

/// The first word of `text` and what follows it, or none where all of `text` is white.
pub fn next_word(text: &[u8]) -> Option<Word<'_>>
    ensures cases { MatchOption result ((w rest : List ℕ) → FirstWord text.now w rest → ⊥) (λ f. FirstWord text.now f.word.now f.rest.now) }
{
    let start = leading_white(text);
    let from = &text[start..];
    let len = word_len(from);
    if len == 0 {
        return None;
    }
    Some(Word {
        word: &from[0..len],
        rest: &from[len..],
    })
}
