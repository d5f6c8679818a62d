// A card: an image under a ring, once the checks that calls begin with have passed.
ghost use Rattle.std.specs.Prelude.{◌≡◌, ◌≤◌, [], ◌∷◌, length, IfOk, MatchResult, Ok, Err};
ghost use Rattle.layout.specs.Checks.{ruled, verdict};
ghost use Rattle.layout.specs.Layout.{most_keys, count_of};
ghost use Rattle.layout.specs.Entries.{Fitting};
ghost use Rattle.sheet.specs.Sectors.{sectors};
ghost use Rattle.sheet.specs.Promise.{key_check, sector_check};
ghost use Rattle.sheet.specs.Images.{image_view};
ghost use Rattle.sheet.specs.Parts.{ring_and_image_checks};
ghost use Rattle.sector.specs.Rings.{ciphers_of};

use crate::ring::Ring;
use crate::sector::Sector;
use cipher::Cipher;
use fault::Fault;
use layout::MOST_KEYS;

// An image and the ring that it is used with. The ring has one to eight ciphers, and the image the length and the beginning of a card of its kind.
#[derive(Drop)]
pub struct Card<'a, C: Cipher> {
    image: &'a [u8],
    ring: &'a Ring<'a, C>,
    count: usize,
    pub ghost fits: { Fitting C.Block.ops.size image.now count },
    pub ghost few: { length (ciphers_of ring.now) ≤ most_keys },
}

impl<'a, C: Cipher> Card<'a, C> {
    // The card of an image under a ring. Refuses 1, 'the ring has no cipher or more than eight', then 2 and 3 as `layout::check_header` does.
    pub fn of(image: &'a [u8], ring: &'a Ring<'a, C>) -> Result<Self, Fault>
        ensures card { IfOk result (λ c. (c.image.now ≡ image.now) × (c.ring.now ≡ ring.now)) }
        ensures outcome { let S = sectors C.Block.ops C.enc C.dec in let o = ruled (ring_and_image_checks S (ciphers_of ring.now) (image_view S (ciphers_of ring.now) image.now)) (count_of C.Block.ops.size image.now) in MatchResult result (λ c. Ok c.count ≡ o) (λ f. Err f ≡ o) }
    {
        if ring.size() < 1 || ring.size() > MOST_KEYS {
            return Err(Fault::RingSize);
        }
        let count = layout::check_header::<C::Block>(image)?;
        Ok(Card { image, ring, count })
    }

    // How many sectors the card has.
    pub fn sectors(&self) -> usize
        ensures { result ≡ self.now.count }
    {
        self.count
    }

    // The sector of this number. Refuses 4, 'the card has no sector of this number'.
    pub fn sector(&self, sector: usize) -> Result<Sector<'a, C>, Fault>
        ensures sector { IfOk result (λ s. (s.image.now ≡ self.now.image.now) × (s.ring.now ≡ self.now.ring.now) × (s.number ≡ sector)) }
        ensures outcome { let S = sectors C.Block.ops C.enc C.dec in let ring = ciphers_of self.now.ring.now in let o = verdict (sector_check S ring (image_view S ring self.now.image.now) sector ∷ []) in MatchResult result (λ s. Ok tt ≡ o) (λ f. Err f ≡ o) }
    {
        if sector >= self.sectors() {
            return Err(Fault::NoSector { sector });
        }
        Ok(Sector::at(self.image, self.ring, sector))
    }

    // Refuses 5, 'the key number is not below the ring's size'.
    pub fn has_key(&self, key: usize) -> Result<(), Fault>
        ensures { let S = sectors C.Block.ops C.enc C.dec in let ring = ciphers_of self.now.ring.now in result ≡ verdict (key_check S ring (image_view S ring self.now.image.now) key ∷ []) }
    {
        if key >= self.ring.size() {
            return Err(Fault::NoKey);
        }
        Ok(())
    }
}
