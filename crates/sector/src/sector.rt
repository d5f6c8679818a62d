// One sector of an image under a ring.
ghost use Rattle.std.specs.Prelude.{◌≡◌, ◌<◌, ◌≤◌, [], ◌∷◌, length, drop, IfOk, slice_index_or};
ghost use Rattle.layout.specs.Checks.{ruled, verdict};
ghost use Rattle.layout.specs.Layout.{mark_length, most_keys, card_number_of, zeros};
ghost use Rattle.layout.specs.Entries.{Inside};
ghost use Rattle.sheet.specs.Sectors.{sector_tweak, sectors};
ghost use Rattle.sheet.specs.Promise.{holds, key_of, text_of, dead_check, sector_checks, record_of};
ghost use Rattle.sheet.specs.Images.{image_view};
ghost use Rattle.sheet.specs.Parts.{source_checks};
ghost use Rattle.sector.specs.Rings.{ciphers_of};

use crate::ring::Ring;
use crate::sealer::Sealer;
use cipher::Cipher;
use fault::{At, Fault};
use kind::Block;
use layout::{Entry, MARK_LENGTH, RECORD_LENGTH, SECTOR_LENGTH};

// A sector whose record lies inside the image. The ring may have any size, and the image any header.
#[derive(Drop)]
pub struct Sector<'a, C: Cipher> {
    image: &'a [u8],
    ring: &'a Ring<'a, C>,
    number: usize,
    pub ghost inside: { Inside C.Block.ops.size image.now number },
}

impl<'a, C: Cipher> Sector<'a, C> {
    // The sector of this number, the record of which lies inside the image.
    pub fn at(image: &'a [u8], ring: &'a Ring<'a, C>, number: usize) -> Self
        requires { Inside C.Block.ops.size image.now number }
        ensures image { result.image.now ≡ image.now }
        ensures ring { result.ring.now ≡ ring.now }
        ensures number { result.number ≡ number }
    {
        Sector {
            image,
            ring,
            number,
        }
    }

    // How the sector is sealed under a key of the ring.
    fn sealer(&self, key: usize) -> Sealer<'_, C>
        requires { key < length (ciphers_of self.now.ring.now) }
        ensures cipher { result.cipher.now ≡ slice_index_or (ciphers_of self.now.ring.now) key result.cipher.now }
        ensures tweak { result.tweak ≡ sector_tweak C.Block.ops (card_number_of C.Block.ops.size self.now.image.now) self.now.number }
    {
        let card_number = layout::card_number::<C::Block>(self.image);
        Sealer {
            cipher: &self.ring.ciphers[key],
            tweak: sheet::sector_tweak(card_number, self.number),
        }
    }

    // Refuses 7, 'the mark is neither 00 00 nor 4B hex with a number below the ring's size', 8, 'a record marked blank holds a byte other than zero', and 13,
    // 'the tweak is dead'.
    pub fn check(&self) -> Result<(), Fault>
        ensures { let S = sectors C.Block.ops C.enc C.dec in let ring = ciphers_of self.now.ring.now in result ≡ verdict (sector_checks S ring (image_view S ring self.now.image.now) self.now.number 1) }
    {
        let record = layout::record::<C::Block>(self.image, self.number);
        match layout::entry_of(record, self.ring.size(), self.number)? {
            // Kept: `walk` has this rule too, for eight keys and in words of its own; one function for both would state it in a third way, which is no plainer.
            Entry::Blank => {
                if is_zero(record) {
                    Ok(())
                } else {
                    Err(Fault::BlankNotZero {
                        sector: self.number,
                    })
                }
            }
            Entry::Sealed { key, .. } => self.sealer(key).check().at(self.number, key),
        }
    }

    // The next two are compiled where they are called: what they hand back are arrays as long as a sector, which would else stand on the stack once more.

    // The key number and the text. Refuses 7, 9, 'the sector is blank', and 13.
    #[inline(always)]
    pub fn text(&self) -> Result<(usize, [u8; SECTOR_LENGTH]), Fault>
        ensures key { IfOk result (λ r. r.0 < length (ciphers_of self.now.ring.now)) }
        ensures text { let S = sectors C.Block.ops C.enc C.dec in let ring = ciphers_of self.now.ring.now in let v = image_view S ring self.now.image.now in result ≡ ruled (source_checks S ring v self.now.number) (key_of (v.sector self.now.number), text_of (v.sector self.now.number)) }
    {
        let record = layout::record::<C::Block>(self.image, self.number);
        let Entry::Sealed { key, bytes } = layout::entry_of(record, self.ring.size(), self.number)?
        else {
            return Err(Fault::BlankSector {
                sector: self.number,
            });
        };
        let mut text = *bytes;
        self.sealer(key).unseal(&mut text).at(self.number, key)?;
        Ok((key, text))
    }

    // The sector's record with this key number and this text. Refuses 13.
    #[inline(always)]
    pub fn sealed_record(
        &self,
        key: usize,
        text: &[u8; SECTOR_LENGTH],
    ) -> Result<[u8; RECORD_LENGTH], Fault>
        requires few { length (ciphers_of self.now.ring.now) ≤ most_keys }
        requires on_ring { key < length (ciphers_of self.now.ring.now) }
        ensures { let S = sectors C.Block.ops C.enc C.dec in let ring = ciphers_of self.now.ring.now in let v = image_view S ring self.now.image.now in result ≡ ruled (dead_check S ring v self.now.number key ∷ []) (record_of S ring v.number self.now.number (holds key text.now)) }
    {
        let mut sealed = *text;
        self.sealer(key).seal(&mut sealed).at(self.number, key)?;
        Ok(layout::sealed_record(key, &sealed))
    }
}

// Whether all bytes of a record behind its mark are zero, as those of a blank one must be.
fn is_zero(rec: &[u8; RECORD_LENGTH]) -> bool
    ensures { result ≡ zeros (drop mark_length rec.now) }
{
    layout::all_zero(&rec[MARK_LENGTH..])
}
