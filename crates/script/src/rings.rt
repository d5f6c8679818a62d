// A ring in a file: the cipher's name on a line, then a key to a line, in hexadecimal digits. Blank lines and lines that begin with # say nothing.
ghost use Rattle.std.specs.Prelude.{◌≡◌};
ghost use Rattle.script.specs.Names.{Named, cipher_of};
ghost use Rattle.script.specs.Sizes.{key_length};

use crate::hex::spelled;
use crate::lines::Statements;
use crate::problems::{Problem, Wrong};
use std::alloc::Global;
use std::str::FromStr;

#[derive(Clone, Copy, PartialEq, Eq, Debug)]
pub enum CipherName {
    Aes,
    Xtea,
    Whitened,
}

impl CipherName {
    // The bytes of a key: 16, or for whitened XTEA 32, which are the key and the blocks before and after.
    pub fn key_length(self) -> usize
        ensures { result ≡ key_length self }
    {
        match self {
            CipherName::Aes | CipherName::Xtea => 16,
            CipherName::Whitened => 32,
        }
    }
}

// The keys of a ring, in the order of their numbers, each of its cipher's length.
#[derive(Drop)]
pub enum Keys {
    Aes(Vec<[u8; 16]>),
    Xtea(Vec<[u8; 16]>),
    // The key and the blocks before and after.
    Whitened(Vec<[u8; 32]>),
}

impl Keys {
    // The name of the cipher whose keys these are.
    pub fn cipher(&self) -> CipherName
        ensures { result ≡ cipher_of self.now }
    {
        match self {
            Keys::Aes(_) => CipherName::Aes,
            Keys::Xtea(_) => CipherName::Xtea,
            Keys::Whitened(_) => CipherName::Whitened,
        }
    }
}

impl FromStr for CipherName {
    type Err = Wrong;

    ghost from_str_gives = { Named };

    // The cipher of this name.
    fn from_str(name: &str) -> Result<CipherName, Wrong> {
        match name {
            "aes" => Ok(CipherName::Aes),
            "xtea" => Ok(CipherName::Xtea),
            "whitened" => Ok(CipherName::Whitened),
            _ => Err(Wrong::UnknownCipher),
        }
    }
}

// The key of N bytes that a line's digits spell.
fn parse_key<const N: usize>(heap: Global, digits: &str, line: usize) -> Result<[u8; N], Problem> {
    let key = spelled(heap, digits, line)?;
    let bytes = key.as_slice().as_array();
    bytes.copied().ok_or(Wrong::KeyLength.on(line))
}

// The keys of N bytes that the lines spell, a key to a line.
fn parse_keys<const N: usize>(
    heap: Global,
    lines: Statements<'_>,
) -> Result<Vec<[u8; N]>, Problem> {
    let mut keys = Vec::new(heap);
    for (line, digits) in lines {
        keys.push(parse_key(heap, digits, line)?)?;
    }
    Ok(keys)
}

// The ring that a file's text gives. A wrong line is told by its number.
pub fn parse_ring(heap: Global, text: &str) -> Result<Keys, Problem> {
    let mut lines = Statements::new(text);
    let (line, name) = lines
        .next()
        .ok_or_else(|| Wrong::NoCipher.on(text.lines().count()))?;
    let cipher: CipherName = name.parse().map_err(|wrong: Wrong| wrong.on(line))?;
    Ok(match cipher {
        CipherName::Aes => Keys::Aes(parse_keys(heap, lines)?),
        CipherName::Xtea => Keys::Xtea(parse_keys(heap, lines)?),
        CipherName::Whitened => Keys::Whitened(parse_keys(heap, lines)?),
    })
}
