// What is wrong with a script or a ring, and on which line.
use std::alloc::AllocError;
use thiserror::Error;

#[derive(Clone, Copy, PartialEq, Eq, Debug, Error)]
pub enum Wrong {
    #[error("there is no such call")]
    UnknownCall,
    #[error("a word is missing")]
    TooFewWords,
    #[error("there is a word too many")]
    TooManyWords,
    #[error("a number is expected")]
    NotANumber,
    #[error("pairs of hexadecimal digits are expected")]
    NotHex,
    #[error("there are too many sectors")]
    TooManySectors,
    #[error("the image has another number of sectors")]
    OtherSectors,
    #[error("aes, xtea or whitened is expected")]
    UnknownCipher,
    #[error("the key has another length")]
    KeyLength,
    #[error("the cipher's name is missing")]
    NoCipher,
}

impl Wrong {
    // This on a line, which is told by its number.
    pub(crate) fn on(self, line: usize) -> Problem {
        Problem::Line { line, wrong: self }
    }
}

// No memory, or what is wrong on a line.
#[derive(Clone, Copy, PartialEq, Eq, Debug, Error)]
pub enum Problem {
    #[error("there is no memory")]
    Memory(#[from(alloc)] AllocError),
    #[error("line {line}: {wrong}")]
    Line { line: usize, wrong: Wrong },
}
