// The seven calls on a card image, and the reading window. Each is pinned for every image, opened or not: `Acts` and `ReadsText` say its outcome and every
// byte that it leaves. A refusal changes nothing; each call's checks stand in its own order in sheet's specs/Promise.antt.
#![tactic(auto)]

ghost use Rattle.std.specs.Prelude.{◌≡◌, ℕ, List};
ghost use Rattle.sector.specs.Rings.{ciphers_of};
ghost use Rattle.sheet.specs.Sectors.{sectors};
ghost use Rattle.sheet.specs.Promise.{IsRing, OpensExactlyCards, format as Formatting, opening as Opening, write as Writing, rekey as Rekeying, copy as Copying, erase as Erasing};
ghost use Rattle.sheet.specs.Images.{outcome_on, Acts, ReadsText};

use cipher::Cipher;
use fault::Fault;
use kind::Block;
use layout::{RECORD_LENGTH, SECTOR_LENGTH};
use sector::{Card, Ring, Sector};

pub mod window;

// Kept: each call takes the image and the ring, and is no method of a checked card, since the caller holds the image as plain bytes between the calls and each
// call owes its own checks of whatever bytes it gets.

// Kept: `write`, `rekey` and `copy` end with the same three lines; the record is made while the image is borrowed, so one function for them would need the
// record made before it, and what it saves is one line of the three.

// Writes the whole image: header, card number, every sector blank. Refuses 2, 'the image is not a header and 1 to 65,535 records long', and 10, 'the card
// number is not one block long'.
pub fn format<C: Cipher>(image: &mut [u8], number: &[u8]) -> Result<(), Fault>
    ensures { (ring : List C) → Acts (sectors C.Block.ops C.enc C.dec) ring image.old (Formatting number.now) result image.new }
{
    layout::sector_count::<C::Block>(image)?;
    if number.len() != C::Block::size() {
        return Err(Fault::CardNumberLength);
    }
    layout::clear(image, C::Block::load(number));
    Ok(())
}

// Accepts the image exactly when it is the card of some sheet, and changes no byte. Refuses 1 to 3, then sector by sector from 0: 7, 'the mark is neither
// 00 00 nor 4B hex with a number below the ring's size', 8, 'a record marked blank holds a byte other than zero', and 13, 'the tweak is dead'.
pub fn open<C: Cipher>(image: &[u8], ring: &Ring<'_, C>) -> Result<(), Fault>
    ensures outcome { result ≡ outcome_on (sectors C.Block.ops C.enc C.dec) (ciphers_of ring.now) image.now Opening }
    ensures opens { IsRing (ciphers_of ring.now) → OpensExactlyCards (sectors C.Block.ops C.enc C.dec) (ciphers_of ring.now) image.now result }
{
    let card = Card::of(image, ring)?;
    let count = card.sectors();
    // Kept: a `for` over the sectors' numbers, which a refusal names; `try_for_each` says no more.
    for sector in 0..count {
        Sector::at(image, ring, sector).check()?;
    }
    Ok(())
}

// Makes a sector this key number and this text. Refuses 1 to 3, 4, 'the card has no sector of this number', 5, 'the key number is not below the ring's
// size', 6, 'the text is not 512 bytes', and 13, 'the tweak is dead'.
pub fn write<C: Cipher>(
    image: &mut [u8],
    ring: &Ring<'_, C>,
    sector: usize,
    key: usize,
    text: &[u8],
) -> Result<(), Fault>
    ensures { Acts (sectors C.Block.ops C.enc C.dec) (ciphers_of ring.now) image.old (Writing sector key text.now) result image.new }
{
    let card = Card::of(image, ring)?;
    let at = card.sector(sector)?;
    card.has_key(key)?;
    // Kept: a test of the length, as in `read`; in `as_array().ok_or(..)?` no edit can let a short text pass by one value.
    if text.len() != SECTOR_LENGTH {
        return Err(Fault::TextLength);
    }
    let record = at.sealed_record(key, text.as_array().unwrap())?;
    layout::put_record::<C::Block>(image, sector, &record);
    Ok(())
}

// Puts a sector's text into the buffer. Refuses 1 to 4, 6, 'the buffer is not 512 bytes', 7, 9, 'the sector is blank', and 13, and leaves the buffer then:
// a copy is unsealed.
pub fn read<C: Cipher>(
    image: &[u8],
    ring: &Ring<'_, C>,
    sector: usize,
    buffer: &mut [u8],
) -> Result<(), Fault>
    ensures { ReadsText (sectors C.Block.ops C.enc C.dec) (ciphers_of ring.now) image.now sector buffer.old result buffer.new }
{
    let card = Card::of(image, ring)?;
    let at = card.sector(sector)?;
    if buffer.len() != SECTOR_LENGTH {
        return Err(Fault::TextLength);
    }
    let (_, text) = at.text()?;
    buffer.copy_from_slice(&text);
    Ok(())
}

// Gives a sector a new key number, its text unchanged. Refuses 1 to 5, 7, 9, then 13 for the old key and for the new.
pub fn rekey<C: Cipher>(
    image: &mut [u8],
    ring: &Ring<'_, C>,
    sector: usize,
    new_key: usize,
) -> Result<(), Fault>
    ensures { Acts (sectors C.Block.ops C.enc C.dec) (ciphers_of ring.now) image.old (Rekeying sector new_key) result image.new }
{
    let card = Card::of(image, ring)?;
    let at = card.sector(sector)?;
    card.has_key(new_key)?;
    let (_old_key, text) = at.text()?;
    let record = at.sealed_record(new_key, &text)?;
    layout::put_record::<C::Block>(image, sector, &record);
    Ok(())
}

// Gives the destination the source's key number and text. Refuses 1 to 4, the source looked at first, 7, 9, then 13 for the source and for the destination.
pub fn copy<C: Cipher>(
    image: &mut [u8],
    ring: &Ring<'_, C>,
    source: usize,
    destination: usize,
) -> Result<(), Fault>
    ensures { Acts (sectors C.Block.ops C.enc C.dec) (ciphers_of ring.now) image.old (Copying source destination) result image.new }
{
    let card = Card::of(image, ring)?;
    let from = card.sector(source)?;
    let to = card.sector(destination)?;
    let (key, text) = from.text()?;
    let record = to.sealed_record(key, &text)?;
    layout::put_record::<C::Block>(image, destination, &record);
    Ok(())
}

// Makes a sector blank. Refuses 2 to 4; it needs no ring.
pub fn erase<C: Cipher>(image: &mut [u8], sector: usize) -> Result<(), Fault>
    ensures { (ring : List C) → Acts (sectors C.Block.ops C.enc C.dec) ring image.old (Erasing sector) result image.new }
{
    let count = layout::check_header::<C::Block>(image)?;
    if sector >= count {
        return Err(Fault::NoSector { sector });
    }
    layout::put_record::<C::Block>(image, sector, &[0; RECORD_LENGTH]);
    Ok(())
}
