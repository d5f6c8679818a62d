// The reading window: a guard over a caller's buffer that leaves only zeros there, whatever was read and however the reader ended.
ghost use Rattle.std.specs.Prelude.{◌≡◌, ℕ, List, length, replicate};
ghost use Rattle.sector.specs.Rings.{ciphers_of};
ghost use Rattle.sheet.specs.Sectors.{sectors};
ghost use Rattle.sheet.specs.Promise.{read as Reading};
ghost use Rattle.sheet.specs.Images.{outcome_on, ReadsText};

use cipher::Cipher;
use fault::Fault;
use kind::Block;
use sector::Ring;

// A caller's buffer, of any length, taken for reads.
pub struct Window<'a> {
    buffer: &'a mut [u8],
}

impl Drop for Window<'_> {
    // The buffer holds only zeros when the window ends: after reads, refusals and early returns alike.
    fn drop(self)
        ensures { self.exit.0.now ≡ replicate (length self.entry.buffer.now) 0 }
    {
        self.buffer.fill(0);
        let Window { buffer: _ } = self;
    }
}

impl<'a> Window<'a> {
    // A window over a buffer of any length; it never refuses, and the buffer is as it was until a read is accepted.
    pub fn over(buffer: &'a mut [u8]) -> Self
        ensures bytes { result.buffer.now ≡ buffer.old }
        ensures same { result.buffer.ghost_name ≡ buffer.entry.ghost_name }
    {
        Window { buffer }
    }

    // Reads a sector's text into the buffer, as `read` does and with its refusals.
    pub fn read<C: Cipher>(
        &mut self,
        image: &[u8],
        ring: &Ring<'_, C>,
        sector: usize,
    ) -> Result<(), Fault>
        ensures text { ReadsText (sectors C.Block.ops C.enc C.dec) (ciphers_of ring.now) image.now sector self.old.buffer.now result self.new.buffer.now }
        ensures same { self.new.buffer.ghost_name ≡ self.old.buffer.ghost_name }
        ensures long { length self.new.buffer.now ≡ length self.old.buffer.now }
    {
        crate::read(image, ring, sector, self.buffer)
    }

    // What the buffer holds now.
    pub fn bytes(&self) -> &[u8]
        ensures { result.now ≡ self.now.buffer.now }
    {
        self.buffer
    }
}

// Whether a sector can be read under the ring: reads it through a window over the buffer, which holds only zeros afterwards. Refuses as `read` does; the
// buffer holds only zeros then too.
pub fn try_read<C: Cipher>(
    image: &[u8],
    ring: &Ring<'_, C>,
    sector: usize,
    buffer: &mut [u8],
) -> Result<(), Fault>
    ensures outcome { result ≡ outcome_on (sectors C.Block.ops C.enc C.dec) (ciphers_of ring.now) image.now (Reading sector buffer.old) }
    ensures wiped { buffer.new ≡ replicate (length buffer.old) 0 }
{
    let mut window = Window::over(buffer);
    window.read(image, ring, sector)
}
