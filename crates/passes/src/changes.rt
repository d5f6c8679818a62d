// The changes that a pass makes to the blocks of a buffer, in their place.
ghost use Rattle.std.specs.Prelude.{◌≡◌, map};
ghost use Rattle.kind.specs.Blocks.{blocks};
ghost use Rattle.kind.specs.Rewritten.{Rewritten};
ghost use Rattle.passes.specs.Rows.{sum};
ghost use Rattle.passes.specs.Scheme.{mask, times_powers, masked};
ghost use Rattle.passes.specs.Changed.{Changed};

use crate::running::{Pair, Powers};
use crate::steps::first_masks;
use crate::work::Work;
use cipher::Cipher;
use kind::{Block, Blocks};

// Multiplies the block at each place i, counted from 0, by r to the power i: 2m - 3 products from two blocks up, and none for one.
pub fn multiply_by_powers<K: Block>(r: K, buffer: &mut Blocks<'_, K>)
    ensures { Rewritten (times_powers K.ops r) buffer.old buffer.new }
{
    let mut powers = Powers {
        r,
        power: None,
        left: buffer.count().saturating_sub(1),
    };
    buffer.walk(&mut powers);
}

impl<'a, C: Cipher> Work<'a, C> {
    // The sum of the blocks.
    fn total(&self) -> C::Block
        ensures { result ≡ sum C.Block.ops (blocks C.Block.ops self.now.terms.now.m self.now.bytes.now) }
    {
        let mut t = C::Block::zero();
        for chunk in self.bytes.chunks_exact(C::Block::size()) {
            t = t.add(C::Block::load(chunk));
        }
        t
    }

    // Multiplies the block at each place i, counted from 0, by r to the power i.
    #[inline(always)]
    pub fn multiply_by_powers(&mut self, r: C::Block)
        ensures { Changed (times_powers C.Block.ops r) self.old self.new }
    {
        let bytes = &mut *self.bytes;
        multiply_by_powers(r, &mut Blocks::of(bytes, self.terms.m as usize));
    }

    // Adds its mask to each block. One block gets `single`; from two blocks up the masks are made from M = E(the sum of the blocks and `end`).
    // Kept: three ways with a walk each, as the mode has them. One walk would need one state for the pair and the run, a fourth case of `Masks`.
    #[inline(always)]
    pub fn add_masks(&mut self, single: C::Block, end: C::Block)
        ensures { Changed (masked C.Block.ops (C.enc self.old.cipher.now) (mask C.Block.ops self.old.terms.now single) end) self.old self.new }
    {
        let m = self.terms.m;
        if m <= 1 {
            let mut pair = Pair {
                first: single,
                second: single,
            };
            self.walk(&mut pair);
            return;
        }
        let value = self.cipher.encrypt(self.total().add(end));
        if m == 2 {
            let first = value.add(self.terms.en);
            let second = value.add(self.terms.een);
            let mut pair = Pair { first, second };
            self.walk(&mut pair);
            return;
        }
        let mut masks = first_masks(value, m);
        self.walk(&mut masks);
    }

    // Kept: two methods of one line, E and D of each block, as the mode's passes name them.

    // E of each block.
    pub fn encrypt_all(&mut self)
        ensures { Changed (map (C.enc self.old.cipher.now)) self.old self.new }
    {
        let cipher = self.cipher;
        self.map(|b| cipher.encrypt(b));
    }

    // D of each block.
    pub fn decrypt_all(&mut self)
        ensures { Changed (map (C.dec self.old.cipher.now)) self.old self.new }
    {
        let cipher = self.cipher;
        self.map(|b| cipher.decrypt(b));
    }
}
