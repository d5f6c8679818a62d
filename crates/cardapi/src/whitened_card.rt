// The calls on a card with a ring of whitened XTEA: up to eight keys of 32 bytes; more are refused by 1.
ghost use Rattle.std.specs.Prelude.{◌≡◌};
ghost use Rattle.sheet.specs.Promise.{opening as Opening, write as Writing, rekey as Rekeying, copy as Copying};
ghost use Rattle.cardapi.specs.Cards.{OnRing, Acted, WasRead};
ghost use Rattle.capi.specs.Keyed.{whitened_parts, whitened_made};
ghost use Rattle.cardapi.specs.Rings.{whitened_sectors};

use crate::calls::{copy, open, read, rekey, write};
use capi::Outcome;
use cipher::Whitened;
use xtea::Xtea;

// Kept: the exports are the C interface, which has a function for each kind and each cipher.

// Accepts the image exactly where it is the card of some sheet, and changes no byte. Refuses 1 to 3, then 7, 8 and 13 sector by sector.
#[unsafe(no_mangle)]
pub extern "C" fn cardlock_whitened_open(keys: &[[u8; 32]], image: &[u8]) -> Outcome
    ensures { OnRing whitened_parts whitened_made keys.now (λ ring. Acted whitened_sectors ring image.now Opening result image.now) result (Unit {0}) }
{
    Outcome::from(open::<Whitened<Xtea>>(keys, image))
}

// Makes a sector this key number and this text. Refuses 1 to 6 and 13.
#[unsafe(no_mangle)]
pub extern "C" fn cardlock_whitened_write(
    keys: &[[u8; 32]],
    image: &mut [u8],
    sector: usize,
    key: usize,
    text: &[u8],
) -> Outcome
    ensures { OnRing whitened_parts whitened_made keys.now (λ ring. Acted whitened_sectors ring image.old (Writing sector key text.now) result image.new) result (image.new ≡ image.old) }
{
    Outcome::from(write::<Whitened<Xtea>>(keys, image, sector, key, text))
}

// Puts a sector's text into the buffer. Refuses 1 to 4, 6, 7, 9 and 13.
#[unsafe(no_mangle)]
pub extern "C" fn cardlock_whitened_read(
    keys: &[[u8; 32]],
    image: &[u8],
    sector: usize,
    buffer: &mut [u8],
) -> Outcome
    ensures { OnRing whitened_parts whitened_made keys.now (λ ring. WasRead whitened_sectors ring image.now sector buffer.old result buffer.new) result (buffer.new ≡ buffer.old) }
{
    Outcome::from(read::<Whitened<Xtea>>(keys, image, sector, buffer))
}

// Gives a sector a new key number, its text unchanged. Refuses 1 to 5, 7, 9, then 13 for the old key and for the new.
#[unsafe(no_mangle)]
pub extern "C" fn cardlock_whitened_rekey(
    keys: &[[u8; 32]],
    image: &mut [u8],
    sector: usize,
    key: usize,
) -> Outcome
    ensures { OnRing whitened_parts whitened_made keys.now (λ ring. Acted whitened_sectors ring image.old (Rekeying sector key) result image.new) result (image.new ≡ image.old) }
{
    Outcome::from(rekey::<Whitened<Xtea>>(keys, image, sector, key))
}

// Gives the destination the source's key number and text. Refuses 1 to 4, the source looked at first, 7, 9, then 13 for the source and for the destination.
#[unsafe(no_mangle)]
pub extern "C" fn cardlock_whitened_copy(
    keys: &[[u8; 32]],
    image: &mut [u8],
    source: usize,
    destination: usize,
) -> Outcome
    ensures { OnRing whitened_parts whitened_made keys.now (λ ring. Acted whitened_sectors ring image.old (Copying source destination) result image.new) result (image.new ≡ image.old) }
{
    Outcome::from(copy::<Whitened<Xtea>>(keys, image, source, destination))
}
