// A buffer that is being sealed or unsealed in its place.
ghost use Rattle.std.specs.Prelude.{◌≡◌, ◌*◌, length};

use crate::terms::Terms;
use cipher::Cipher;
use kind::pass::Step;
use kind::{Block, Blocks};

// What each pass works with: the cipher, the terms, and the caller's buffer, which is as many whole blocks as the terms say.
// Kept: the buffer beside the terms that have its count. Tried with a `Blocks` as a field, and the terms by value: a caller's proof then knows only its length.
#[derive(Drop)]
pub struct Work<'a, C: Cipher> {
    pub cipher: &'a C,
    pub terms: &'a Terms<C::Block>,
    pub(crate) bytes: &'a mut [u8],
    pub ghost whole: { length bytes.now ≡ terms.now.m * C.Block.ops.size },
}

// `walk` and `map`, and in changes.rt what a pass calls, are compiled where they are called: in a work that is handed to a function stands the address of the
// cipher, and the compiler then makes a second copy of a cipher that its caller has just made, for which it calls C's `memcpy`.
impl<'a, C: Cipher> Work<'a, C> {
    ghost use Rattle.kind.specs.Blocks.{over};
    ghost use Rattle.passes.specs.Changed.{Changed};
    ghost use Rattle.std.specs.Prelude.{map};

    // The work on a buffer that is just m blocks long.
    pub fn on(cipher: &'a C, terms: &'a Terms<C::Block>, buffer: &'a mut [u8]) -> Self
        requires { length buffer.old ≡ terms.now.m * C.Block.ops.size }
        ensures cipher { result.cipher.now ≡ cipher.now }
        ensures terms { result.terms.now ≡ terms.now }
        ensures same { result.bytes.ghost_name ≡ buffer.entry.ghost_name }
        ensures bytes { result.bytes.now ≡ buffer.old }
    {
        Work {
            cipher,
            terms,
            bytes: buffer,
        }
    }

    // Takes the step at each block, first to last, and puts what it gives in the block's place.
    #[inline(always)]
    pub(crate) fn walk<S: Step<C::Block>>(&mut self, s: &mut S)
        ensures { Changed (over S.out S.next s.old) self.old self.new }
    {
        let bytes = &mut *self.bytes;
        Blocks::of(bytes, self.terms.m as usize).walk(s);
    }

    // Puts f of each block in its place, f being any map e on blocks.
    #[inline(always)]
    pub(crate) fn map<F: Fn(C::Block) -> C::Block>(&mut self, f: F)
        requires { F.IsAlwaysCallable f }
        ensures { (e : _ → _) → ((b r : _) → F.post f b r → r ≡ e b) → Changed (map e) self.old self.new }
    {
        let bytes = &mut *self.bytes;
        Blocks::of(bytes, self.terms.m as usize).map(f);
    }
}
