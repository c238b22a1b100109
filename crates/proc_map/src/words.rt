// The pieces of a maps line: its five words, the address's two numbers, and the path behind them.
ghost use Rattle.std.specs.Prelude.{ℕ, List, [], ◌∷◌, MatchOption};
ghost use Rattle.byte_parts.specs.Words.{white, Only};
ghost use Rattle.proc_map.specs.Line.{Words, Range, PathIn};

use byte_parts::find::find_byte;
use byte_parts::number::{Radix, parse_number};
use byte_parts::part::Part;
use byte_parts::words::{ending_white, leading_white, next_word};
use std::ops;

// The first five words of a line, and what follows them.
#[derive(Clone, Copy)]
pub(crate) struct FiveWords<'a> {
    pub(crate) address: &'a [u8],
    pub(crate) perms: &'a [u8],
    pub(crate) offset: &'a [u8],
    pub(crate) dev: &'a [u8],
    pub(crate) inode: &'a [u8],
    pub(crate) rest: &'a [u8],
}

// The five words that `line` starts with, or none where it has fewer.
pub(crate) fn five_words(line: &[u8]) -> Option<FiveWords<'_>>
    ensures cases { MatchOption result ((a b c d e rest : List ℕ) → Words line.now (a ∷ b ∷ c ∷ d ∷ e ∷ []) rest → ⊥) (λ f. Words line.now (f.address.now ∷ f.perms.now ∷ f.offset.now ∷ f.dev.now ∷ f.inode.now ∷ []) f.rest.now) }
{
    let address = next_word(line)?;
    let perms = next_word(address.rest)?;
    let offset = next_word(perms.rest)?;
    let dev = next_word(offset.rest)?;
    let inode = next_word(dev.rest)?;
    Some(FiveWords {
        address: address.word,
        perms: perms.word,
        offset: offset.word,
        dev: dev.word,
        inode: inode.word,
        rest: inode.rest,
    })
}

// The two hexadecimal numbers around the one dash of `word`.
pub(crate) fn address_range(word: &[u8]) -> Option<ops::Range<u64>>
    ensures cases { MatchOption result ((low high : ℕ) → Range word.now low high → ⊥) (λ p. Range word.now p.start p.end) }
{
    let dash = find_byte(word, b'-')?;
    let start = parse_number(&word[..dash], Radix::Hexadecimal)?;
    let end = parse_number(&word[dash + 1..], Radix::Hexadecimal)?;
    Some(start..end)
}

// What follows the words, without the white space around it and with its place there, or none where
// that is all.
pub(crate) fn path_part(rest: &[u8]) -> Option<Part<'_>>
    ensures cases { MatchOption result (Only white rest.now) (λ p. PathIn rest.now p.place p.bytes.now) }
{
    let place = leading_white(rest);
    let from = &rest[place..];
    let len = from.len() - ending_white(from);
    if len == 0 {
        return None;
    }
    Some(Part {
        place,
        bytes: &from[..len],
    })
}
