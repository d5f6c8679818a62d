// A walk over the blocks of a buffer, with a state that runs along or with none.
ghost use Rattle.std.specs.Prelude.{◌≡◌, map};
ghost use Rattle.kind.specs.Blocks.{blocks, over, after};
ghost use Rattle.kind.specs.Rewritten.{Rewritten};

use crate::block::Block;
use crate::buffer::Blocks;

// What a walk does at each block, with a state of its own.
pub trait Step<K> {
    // What the step gives at a state and a block.
    ghost out: { Self → K → K };

    // The state after it.
    ghost next: { Self → K → Self };

    fn step(&mut self, b: K) -> K
        ensures value { result ≡ out self.old b }
        ensures state { self.new ≡ next self.old b };
}

// Kept: both walks count the places. Tried with `chunks_exact_mut`: after it a proof knows how long the buffer is, but not what its chunks hold.
impl<'a, K: Block> Blocks<'a, K> {
    // Takes the step at each block, first to last, and puts what it gives in the block's place.
    pub fn walk<S: Step<K>>(&mut self, s: &mut S)
        ensures blocks { Rewritten (over S.out S.next s.old) self.old self.new }
        ensures state { s.new ≡ after S.next s.old (blocks K.ops self.old.count self.old.bytes.now) }
    {
        for i in 0..self.count {
            let b = self.load(i);
            let r = s.step(b);
            self.store(i, r);
        }
    }

    // Puts f of each block in its place, f being any map e on blocks.
    pub fn map<F: Fn(K) -> K>(&mut self, f: F)
        requires { F.IsAlwaysCallable f }
        ensures { (e : K → K) → ((b r : K) → F.post f b r → r ≡ e b) → Rewritten (map e) self.old self.new }
    {
        for i in 0..self.count {
            let b = self.load(i);
            self.store(i, f(b));
        }
    }
}
