// The calls on a card with a ring of XTEA: up to eight keys of 16 bytes; more are refused by 1.
ghost use Rattle.std.specs.Prelude.{◌≡◌, []};
ghost use Rattle.xtea.specs.Xtea.{key_words};
ghost use Rattle.sheet.specs.Promise.{format as Formatting, opening as Opening, write as Writing, rekey as Rekeying, copy as Copying, erase as Erasing};
ghost use Rattle.cardapi.specs.Cards.{OnRing, Acted, WasRead};
ghost use Rattle.capi.specs.Keyed.{xtea_parts};
ghost use Rattle.cardapi.specs.Rings.{xtea_sectors};

use crate::calls::{copy, erase, format, open, read, rekey, write};
use capi::Outcome;
use xtea::Xtea;

// Kept: the exports are the C interface, which has a function for each kind and each cipher.

// Writes the whole image of a card of the short kind: header, card number, every sector blank. Refuses 2 and 10.
#[unsafe(no_mangle)]
pub extern "C" fn cardlock_short_format(image: &mut [u8], number: &[u8]) -> Outcome
    ensures { Acted xtea_sectors [] image.old (Formatting number.now) result image.new }
{
    Outcome::from(format::<Xtea>(image, number))
}

// Makes a sector of a card of the short kind blank. Refuses 2 to 4.
#[unsafe(no_mangle)]
pub extern "C" fn cardlock_short_erase(image: &mut [u8], sector: usize) -> Outcome
    ensures { Acted xtea_sectors [] image.old (Erasing sector) result image.new }
{
    Outcome::from(erase::<Xtea>(image, sector))
}

// Accepts the image exactly where it is the card of some sheet, and changes no byte. Refuses 1 to 3, then 7, 8 and 13 sector by sector.
#[unsafe(no_mangle)]
pub extern "C" fn cardlock_xtea_open(keys: &[[u8; 16]], image: &[u8]) -> Outcome
    ensures { OnRing xtea_parts key_words keys.now (λ ring. Acted xtea_sectors ring image.now Opening result image.now) result (Unit {0}) }
{
    Outcome::from(open::<Xtea>(keys, image))
}

// Makes a sector this key number and this text. Refuses 1 to 6 and 13.
#[unsafe(no_mangle)]
pub extern "C" fn cardlock_xtea_write(
    keys: &[[u8; 16]],
    image: &mut [u8],
    sector: usize,
    key: usize,
    text: &[u8],
) -> Outcome
    ensures { OnRing xtea_parts key_words keys.now (λ ring. Acted xtea_sectors ring image.old (Writing sector key text.now) result image.new) result (image.new ≡ image.old) }
{
    Outcome::from(write::<Xtea>(keys, image, sector, key, text))
}

// Puts a sector's text into the buffer. Refuses 1 to 4, 6, 7, 9 and 13.
#[unsafe(no_mangle)]
pub extern "C" fn cardlock_xtea_read(
    keys: &[[u8; 16]],
    image: &[u8],
    sector: usize,
    buffer: &mut [u8],
) -> Outcome
    ensures { OnRing xtea_parts key_words keys.now (λ ring. WasRead xtea_sectors ring image.now sector buffer.old result buffer.new) result (buffer.new ≡ buffer.old) }
{
    Outcome::from(read::<Xtea>(keys, image, sector, buffer))
}

// Gives a sector a new key number, its text unchanged. Refuses 1 to 5, 7, 9, then 13 for the old key and for the new.
#[unsafe(no_mangle)]
pub extern "C" fn cardlock_xtea_rekey(
    keys: &[[u8; 16]],
    image: &mut [u8],
    sector: usize,
    key: usize,
) -> Outcome
    ensures { OnRing xtea_parts key_words keys.now (λ ring. Acted xtea_sectors ring image.old (Rekeying sector key) result image.new) result (image.new ≡ image.old) }
{
    Outcome::from(rekey::<Xtea>(keys, image, sector, key))
}

// Gives the destination the source's key number and text. Refuses 1 to 4, the source looked at first, 7, 9, then 13 for the source and for the destination.
#[unsafe(no_mangle)]
pub extern "C" fn cardlock_xtea_copy(
    keys: &[[u8; 16]],
    image: &mut [u8],
    source: usize,
    destination: usize,
) -> Outcome
    ensures { OnRing xtea_parts key_words keys.now (λ ring. Acted xtea_sectors ring image.old (Copying source destination) result image.new) result (image.new ≡ image.old) }
{
    Outcome::from(copy::<Xtea>(keys, image, source, destination))
}
