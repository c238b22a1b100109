// A case: the question and its inputs.
ghost use Rattle.std.specs.Prelude.{◌<◌};

use std::alloc::{AllocError, Global};

/// A case: the question's word, and its inputs, each none where it cannot be read.
#[derive(Drop)]
pub struct Case {
    pub question: String,
    pub inputs: Vec<Option<Vec<u8>>>,
}

impl Case {
    /// The bytes of input `i`, empty where there is no such input.
    pub fn bytes(&self, i: usize) -> &[u8] {
        self.readable(i).unwrap_or(b"")
    }

    /// The bytes of input `i`, or none where it cannot be read.
    pub fn readable(&self, i: usize) -> Option<&[u8]> {
        self.inputs.get(i)?.as_deref()
    }
}

/// The case that a line writes.
pub fn read_case(heap: Global, line: &str) -> Result<Case, AllocError> {
    let mut words = line.split(' ');
    let mut question = String::new(heap);
    question.push_str(words.next().unwrap_or(""))?;
    let mut inputs = Vec::new(heap);
    for word in words {
        inputs.push(input(heap, word)?)?;
    }
    Ok(Case { question, inputs })
}

// The bytes that a word writes in hexadecimal, two letters each; `-` writes none, and of `!` there are none to read.
fn input(heap: Global, word: &str) -> Result<Option<Vec<u8>>, AllocError> {
    if word == "!" {
        return Ok(None);
    }
    let mut bytes = Vec::new(heap);
    for pair in word.as_bytes().chunks_exact(2) {
        if let [high, low] = pair {
            bytes.push(digit(*high) * 16 + digit(*low))?;
        }
    }
    Ok(Some(bytes))
}

// The value of a hexadecimal digit, 0 for any other letter.
fn digit(letter: u8) -> u8
    ensures { result < 16 }
{
    match letter {
        b'0'..=b'9' => letter - b'0',
        b'a'..=b'f' => letter - b'a' + 10,
        _ => 0,
    }
}
