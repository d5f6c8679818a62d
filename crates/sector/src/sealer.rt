// How one sector of a card is sealed.
ghost use Rattle.std.specs.Prelude.{◌≡◌};
ghost use Rattle.fault.specs.Faults.{refused_if};
ghost use Rattle.sealing.specs.Texts.{text_sealing};

use cipher::Cipher;
use fault::{NoInverse, SealFault};
use kind::Block;
use layout::SECTOR_LENGTH;

// Kept: room for the longest block, of which a block of a kind takes the front, since nothing here is on a heap.
const ROOM: [u8; 128] = [0; 128];

// A cipher and the tweak of a sector.
#[derive(Drop)]
pub(crate) struct Sealer<'a, C: Cipher> {
    pub(crate) cipher: &'a C,
    pub(crate) tweak: C::Block,
}

impl<C: Cipher> Sealer<'_, C> {
    // Refuses 13, 'the tweak is dead'.
    pub(crate) fn check(&self) -> Result<(), SealFault>
        ensures { result ≡ refused_if ((text_sealing C.Block.ops C.enc C.dec).dead self.now.cipher.now (C.Block.ops.bytes self.now.tweak)) }
    {
        self.cipher
            .encrypt(self.tweak)
            .inverse()
            .ok_or(SealFault::DeadTweak { cause: NoInverse })?;
        Ok(())
    }

    // The bytes of the tweak, which are put into the front of the room.
    fn tweak_in<'r>(&self, room: &'r mut [u8; 128]) -> &'r [u8]
        ensures { result.now ≡ C.Block.ops.bytes self.now.tweak }
    {
        let tweak = &mut room[..C::Block::size()];
        self.tweak.store(tweak);
        tweak
    }

    // Kept: two methods of two lines that differ in the call; one that takes the call would need a contract on it for what these say of sealing and of unsealing.

    // Seals the text in its place. Refuses 13, 'the tweak is dead', and leaves the text then.
    pub(crate) fn seal(&self, text: &mut [u8; SECTOR_LENGTH]) -> Result<(), SealFault>
        ensures outcome { result ≡ refused_if ((text_sealing C.Block.ops C.enc C.dec).dead self.now.cipher.now (C.Block.ops.bytes self.now.tweak)) }
        ensures sealed { text.new ≡ (text_sealing C.Block.ops C.enc C.dec).sealed self.now.cipher.now (C.Block.ops.bytes self.now.tweak) text.old }
    {
        let mut room = ROOM;
        sealing::seal(self.cipher, self.tweak_in(&mut room), text)
    }

    // Unseals the text in its place. Refuses 13, 'the tweak is dead', and leaves the sealed bytes then.
    pub(crate) fn unseal(&self, text: &mut [u8; SECTOR_LENGTH]) -> Result<(), SealFault>
        ensures outcome { result ≡ refused_if ((text_sealing C.Block.ops C.enc C.dec).dead self.now.cipher.now (C.Block.ops.bytes self.now.tweak)) }
        ensures unsealed { text.new ≡ (text_sealing C.Block.ops C.enc C.dec).unsealed self.now.cipher.now (C.Block.ops.bytes self.now.tweak) text.old }
    {
        let mut room = ROOM;
        sealing::unseal(self.cipher, self.tweak_in(&mut room), text)
    }
}
