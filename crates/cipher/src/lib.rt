// Ciphers: what every cipher owes, the glass cipher, and whitening.
#![tactic(auto)]

ghost use Rattle.std.specs.Prelude.{◌≡◌};
ghost use Rattle.cipher.specs.Permutes.{Permutes};
ghost use Rattle.std.proofs.Common.{rules};
ghost use Rattle.cipher.specs.Sums.{whitened_back};

use kind::Block;
use std::marker::PhantomData;

// A cipher on the blocks of one kind. An owner who brings his own writes this trait for it.
//
// He names the block kind, and says by `enc` and `dec` which maps E and D on its blocks the cipher stands for. He owes two laws,
// D(E(b)) = b and E(D(b)) = b for every block b: a cipher that sends two blocks to one has no D that meets them. And he owes two calls
// that give E(b) and D(b). They take every block, never refuse, and can't change the cipher. Nothing else is asked of a cipher, and
// whatever is promised of sealing and of cards holds for every one that shows this.
pub trait Cipher {
    // The kind of block.
    type Block: Block;

    // The map E of a cipher.
    ghost enc: { Self → Self.Block → Self.Block };

    // The map D of a cipher.
    ghost dec: { Self → Self.Block → Self.Block };

    // E(b).
    fn encrypt(&self, b: Self::Block) -> Self::Block
        ensures { result ≡ enc self.now b };

    // D(b).
    fn decrypt(&self, b: Self::Block) -> Self::Block
        ensures { result ≡ dec self.now b };

    // D undoes E.
    ghost back: { (c : Self) (b : Self.Block) → dec c (enc c b) ≡ b };

    // E undoes D.
    ghost forth: { (c : Self) (b : Self.Block) → enc c (dec c b) ≡ b };
}

// The bytes of a block as an array, for a cipher that is defined on bytes.
// Kept: tried: a cipher on bytes has an `encrypt` and a `decrypt` of one line each; one function for both, over the map of `[u8; N]` as a closure, is refused, since the borrow checker does not cover a closure whose arrays have a const parameter's length.
pub fn bytes_of<K: Block, const N: usize>(b: K) -> [u8; N]
    requires { K.ops.size ≡ N }
    ensures { result ≡ K.ops.bytes b }
{
    let mut bytes = [0; N];
    b.store(&mut bytes);
    bytes
}

// Every cipher's two maps send different blocks to different blocks, and leave no block out.
pub fn permutes<C: Cipher>(cipher: &C)
    ensures encryption { Permutes (C.enc cipher.now) }
    ensures decryption { Permutes (C.dec cipher.now) }
{}

// The glass cipher, in any kind: E(b) = D(b) = b. It hides nothing, and serves worked cases.
#[derive(Clone, Copy)]
pub struct Glass<K> {
    kind: PhantomData<K>,
}

impl<K> Glass<K> {
    // The glass cipher, of which a kind has just one.
    pub fn new() -> Glass<K>
        ensures { (g : Glass K) → g ≡ result }
    {
        Glass { kind: PhantomData }
    }
}

impl<K: Block> Cipher for Glass<K> {
    type Block = K;

    ghost enc = { λ c b. b };

    ghost dec = { λ c b. b };

    ghost back = { Prim.search rules };

    ghost forth = { Prim.search rules };

    fn encrypt(&self, b: K) -> K {
        b
    }

    fn decrypt(&self, b: K) -> K {
        b
    }
}

// Whitening, over any cipher and two blocks a and c of its kind: E'(b) = E(b ⊕ a) ⊕ c and D'(b) = D(b ⊕ c) ⊕ a.
#[derive(Drop)]
pub struct Whitened<C: Cipher> {
    inner: C,
    before: C::Block,
    after: C::Block,
}

impl<C: Cipher> Whitened<C> {
    // The cipher `inner` whitened with a = `before` and c = `after`.
    pub fn new(inner: C, before: C::Block, after: C::Block) -> Whitened<C>
        ensures { result ≡ record { inner = inner; before = before; after = after } }
    {
        Whitened {
            inner,
            before,
            after,
        }
    }
}

impl<C: Cipher> Cipher for Whitened<C> {
    type Block = C::Block;

    ghost enc = { λ w b. C.Block.ops.add (C.enc w.inner (C.Block.ops.add b w.before)) w.after };

    ghost dec = { λ w b. C.Block.ops.add (C.dec w.inner (C.Block.ops.add b w.after)) w.before };

    ghost back = { λ c b. whitened_back C.Block.ops C.Block.laws (C.enc c.inner) (C.dec c.inner) (C.back c.inner) c.before c.after b };

    ghost forth = { λ c b. whitened_back C.Block.ops C.Block.laws (C.dec c.inner) (C.enc c.inner) (C.forth c.inner) c.after c.before b };

    fn encrypt(&self, b: C::Block) -> C::Block {
        self.inner.encrypt(b.add(self.before)).add(self.after)
    }

    fn decrypt(&self, b: C::Block) -> C::Block {
        self.inner.decrypt(b.add(self.after)).add(self.before)
    }
}
