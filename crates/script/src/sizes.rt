// The sizes of images that a script's formats ask for.
// Kept: the numbers of a card's layout are written here too, since this crate uses `fault` alone and no block kinds, by which `layout` gives its lengths; and a
// script may ask for one sector more than a card has.
ghost use Rattle.std.specs.Prelude.{◌≡◌, ℕ, ◌+◌, ◌*◌, ◌≤◌};
ghost use Rattle.script.specs.Sizes.{block_length, image_length, wanted, first_wanted, first_other};

use crate::commands::{Command, Line};
use crate::rings::CipherName;

// The most sectors that a format line may ask for: one more than a card may have, so that the refusal can be seen.
pub const MOST_SECTORS: usize = 65_536;

// The bytes of a block of a cipher.
fn block_length(cipher: CipherName) -> usize
    ensures { result ≡ block_length cipher }
{
    match cipher {
        CipherName::Aes => 16,
        CipherName::Xtea | CipherName::Whitened => 8,
    }
}

// The length of an image of so many sectors: a header of two bytes and the card number, and records of 514 bytes.
fn image_length(cipher: CipherName, sectors: usize) -> usize
    requires { sectors ≤ 65536 }
    ensures { result ≡ image_length cipher sectors }
{
    2 + block_length(cipher) + 514 * sectors
}

// The length of an image that a line asks for, if it is a format.
fn wanted(cipher: CipherName, line: &Line) -> Option<usize>
    ensures { result ≡ wanted cipher line.now }
{
    match line.command {
        Command::Format { sectors, .. } if sectors <= MOST_SECTORS => {
            Some(image_length(cipher, sectors))
        }
        _ => None,
    }
}

// The length of the image that a script makes, where it begins with a format.
pub fn first_length(cipher: CipherName, lines: &[Line]) -> Option<usize>
    ensures { result ≡ first_wanted cipher lines.now }
{
    wanted(cipher, lines.first()?)
}

// The first line with a format for an image of another length than this.
pub fn other_size(cipher: CipherName, lines: &[Line], length: usize) -> Option<usize>
    ensures { result ≡ first_other cipher length lines.now }
{
    lines
        .iter()
        .find(|line| wanted(cipher, line).is_some_and(|size| size != length))
        .map(|line| line.line)
}
