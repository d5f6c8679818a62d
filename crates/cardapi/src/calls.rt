// The seven calls on a card, with the ring that some keys make. With more than eight keys a call refuses 1 and leaves everything.
ghost use Rattle.std.specs.Prelude.{◌≡◌, []};
ghost use Rattle.sheet.specs.Sectors.{sectors};
ghost use Rattle.sheet.specs.Promise.{format as Formatting, opening as Opening, write as Writing, rekey as Rekeying, copy as Copying, erase as Erasing};
ghost use Rattle.capi.specs.Outcomes.{outcome};
ghost use Rattle.cardapi.specs.Cards.{OnRing, Acted, WasRead};

use crate::rings::{check_number, ciphers_of};
use capi::Keyed;
use cipher::Cipher;
use fault::Fault;
use sector::Ring;

// Writes the whole image: header, card number, every sector blank. It needs no ring.
pub fn format<C: Cipher>(image: &mut [u8], number: &[u8]) -> Result<(), Fault>
    ensures { Acted (sectors C.Block.ops C.enc C.dec) [] image.old (Formatting number.now) (outcome result) image.new }
{
    card::format::<C>(image, number)
}

// Kept: tried: each call makes its ring of the array: a struct of the ciphers and their number owes at each use that it fits in memory, which `Keyed`'s law `small` says of the array alone, and a function that takes the card's call as a closure loses what the image holds after it.

// Accepts the image exactly where it is the card of some sheet.
pub fn open<C: Keyed>(keys: &[C::Key], image: &[u8]) -> Result<(), Fault>
    ensures { OnRing C.held C.made keys.now (λ ring. Acted (sectors C.Block.ops C.enc C.dec) ring image.now Opening (outcome result) image.now) (outcome result) (Unit {0}) }
{
    check_number(keys)?;
    let ciphers = ciphers_of::<C>(keys);
    card::open(image, &Ring::new(&ciphers[..keys.len()]))
}

// Makes a sector this key number and this text.
pub fn write<C: Keyed>(
    keys: &[C::Key],
    image: &mut [u8],
    sector: usize,
    key: usize,
    text: &[u8],
) -> Result<(), Fault>
    ensures { OnRing C.held C.made keys.now (λ ring. Acted (sectors C.Block.ops C.enc C.dec) ring image.old (Writing sector key text.now) (outcome result) image.new) (outcome result) (image.new ≡ image.old) }
{
    check_number(keys)?;
    let ciphers = ciphers_of::<C>(keys);
    card::write(image, &Ring::new(&ciphers[..keys.len()]), sector, key, text)
}

// Puts a sector's text into the buffer.
pub fn read<C: Keyed>(
    keys: &[C::Key],
    image: &[u8],
    sector: usize,
    buffer: &mut [u8],
) -> Result<(), Fault>
    ensures { OnRing C.held C.made keys.now (λ ring. WasRead (sectors C.Block.ops C.enc C.dec) ring image.now sector buffer.old (outcome result) buffer.new) (outcome result) (buffer.new ≡ buffer.old) }
{
    check_number(keys)?;
    let ciphers = ciphers_of::<C>(keys);
    card::read(image, &Ring::new(&ciphers[..keys.len()]), sector, buffer)
}

// Gives a sector a new key number, its text unchanged.
pub fn rekey<C: Keyed>(
    keys: &[C::Key],
    image: &mut [u8],
    sector: usize,
    key: usize,
) -> Result<(), Fault>
    ensures { OnRing C.held C.made keys.now (λ ring. Acted (sectors C.Block.ops C.enc C.dec) ring image.old (Rekeying sector key) (outcome result) image.new) (outcome result) (image.new ≡ image.old) }
{
    check_number(keys)?;
    let ciphers = ciphers_of::<C>(keys);
    card::rekey(image, &Ring::new(&ciphers[..keys.len()]), sector, key)
}

// Gives the destination the source's key number and text.
pub fn copy<C: Keyed>(
    keys: &[C::Key],
    image: &mut [u8],
    source: usize,
    destination: usize,
) -> Result<(), Fault>
    ensures { OnRing C.held C.made keys.now (λ ring. Acted (sectors C.Block.ops C.enc C.dec) ring image.old (Copying source destination) (outcome result) image.new) (outcome result) (image.new ≡ image.old) }
{
    check_number(keys)?;
    let ciphers = ciphers_of::<C>(keys);
    card::copy(
        image,
        &Ring::new(&ciphers[..keys.len()]),
        source,
        destination,
    )
}

// Makes a sector blank. It needs no ring.
pub fn erase<C: Cipher>(image: &mut [u8], sector: usize) -> Result<(), Fault>
    ensures { Acted (sectors C.Block.ops C.enc C.dec) [] image.old (Erasing sector) (outcome result) image.new }
{
    card::erase::<C>(image, sector)
}
