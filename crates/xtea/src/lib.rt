// XTEA: a cipher of the short kind, 32 cycles on two words of 32 bits under a key of four.
#![tactic(auto)]

ghost use Rattle.std.specs.Prelude.{◌≡◌};
ghost use Rattle.std.specs.Iterator.{ActsAs};
ghost use Rattle.cipher.specs.Bytes.{through_bytes};
ghost use Rattle.xtea.specs.Blocks.{encrypted, decrypted};
ghost use Rattle.xtea.specs.Repeat.{repeat};
ghost use Rattle.xtea.specs.Xtea.{mix, cycle, inv_cycle, key_words, start, bytes_of, encipher, decipher};
ghost use Rattle.cipher.proofs.Through.{through_undone};
ghost use Rattle.kind.specs.Polynomials.{short_ops};
ghost use Rattle.xtea.specs.Undone.{encipher_bytes, encipher_undone, decipher_bytes, decipher_undone};
ghost use Rattle.xtea.specs.XteaCipherLemmas.{short_laws};

use cipher::{Cipher, bytes_of};
use kind::Block;
use poly::Short;
use std::array;

// What s grows by in each cycle.
const DELTA: u32 = 0x9e37_79b9;

// What s is after 32 cycles.
const LAST: u32 = 0xc6ef_3720;

// XTEA under one key. It holds the four words of the key.
#[derive(Clone, Copy)]
pub struct Xtea {
    key: [u32; 4],
}

// The two words of a block, and the sum that runs along with the cycles.
#[derive(Clone, Copy)]
struct State {
    v0: u32,
    v1: u32,
    s: u32,
}

impl Xtea {
    // The cipher of a key, which is four big-endian words. It never refuses.
    pub fn new(key: &[u8; 16]) -> Xtea
        ensures { result.key ≡ key_words key.now }
    {
        let (words, _) = key.as_chunks();
        Xtea {
            key: array::from_fn(|i| u32::from_be_bytes(words[i])),
        }
    }
}

// XTEA on the short kind: E is 32 cycles on the block's bytes, and D the same backwards.
impl Cipher for Xtea {
    type Block = Short;

    ghost enc = { encrypted };

    ghost dec = { decrypted };

    ghost back = { λ c b.
        through_undone short_ops short_laws (encipher c.key) (decipher c.key)
        (λ s l h. encipher_bytes c.key s) (encipher_undone c.key) b };

    ghost forth = { λ c b.
        through_undone short_ops short_laws (decipher c.key) (encipher c.key)
        (λ s l h. decipher_bytes c.key s) (decipher_undone c.key) b };

    fn encrypt(&self, b: Short) -> Short {
        self.encrypt_in(b)
    }

    fn decrypt(&self, b: Short) -> Short {
        self.decrypt_in(b)
    }
}

impl Xtea {
    // The encryption of a block of any kind that has 8 bytes.
    fn encrypt_in<K: Block>(&self, b: K) -> K
        requires { K.ops.size ≡ 8 }
        ensures { result ≡ through_bytes K.ops (encipher self.now.key) b }
    {
        K::load(&self.encrypt_bytes(bytes_of(b)))
    }

    // The decryption of a block of any kind that has 8 bytes.
    fn decrypt_in<K: Block>(&self, b: K) -> K
        requires { K.ops.size ≡ 8 }
        ensures { result ≡ through_bytes K.ops (decipher self.now.key) b }
    {
        K::load(&self.decrypt_bytes(bytes_of(b)))
    }

    // What 32 cycles make of the bytes of a block.
    fn encrypt_bytes(&self, bytes: [u8; 8]) -> [u8; 8]
        ensures { result ≡ encipher self.now.key bytes }
    {
        State::new(bytes, 0).after_cycles(|w| self.cycle(w)).bytes()
    }

    // What 32 cycles backwards make of the bytes of a block.
    fn decrypt_bytes(&self, bytes: [u8; 8]) -> [u8; 8]
        ensures { result ≡ decipher self.now.key bytes }
    {
        State::new(bytes, LAST)
            .after_cycles(|w| self.inv_cycle(w))
            .bytes()
    }

    // Kept: a cycle and its undoing each as the published rule has it: backwards the steps come in the other order and subtract, so a direction as a parameter would switch at every step.

    // One cycle: each word grows by what the other one, the sum and a word of the key make.
    fn cycle(&self, w: State) -> State
        ensures { result ≡ cycle self.now.key w }
    {
        let v0 = w
            .v0
            .wrapping_add(mixed(w.v1, w.s, self.key[(w.s % 4) as usize]));
        let s = w.s.wrapping_add(DELTA);
        let v1 = w
            .v1
            .wrapping_add(mixed(v0, s, self.key[(s / 2048 % 4) as usize]));
        State { v0, v1, s }
    }

    // One cycle backwards.
    fn inv_cycle(&self, w: State) -> State
        ensures { result ≡ inv_cycle self.now.key w }
    {
        let v1 = w
            .v1
            .wrapping_sub(mixed(w.v0, w.s, self.key[(w.s / 2048 % 4) as usize]));
        let s = w.s.wrapping_sub(DELTA);
        let v0 = w.v0.wrapping_sub(mixed(v1, s, self.key[(s % 4) as usize]));
        State { v0, v1, s }
    }
}

impl State {
    // The state that begins with the two words of a block, and a sum.
    fn new(bytes: [u8; 8], s: u32) -> State
        ensures { result ≡ start s bytes }
    {
        let (words, _) = bytes.as_chunks();
        State {
            v0: u32::from_be_bytes(words[0]),
            v1: u32::from_be_bytes(words[1]),
            s,
        }
    }

    // The state after 32 turns of a cycle.
    fn after_cycles<F: Fn(State) -> State>(self, cycle: F) -> State
        requires { F.IsAlwaysCallable cycle }
        ensures { (turn : State → State) → ActsAs F.FnMut cycle turn → result ≡ repeat turn 32 self }
    {
        (0..32u32).fold(self, |w, _| cycle(w))
    }

    // The bytes of the two words.
    // Kept: a method and no `From`, since the sum is left behind.
    fn bytes(self) -> [u8; 8]
        ensures { result ≡ bytes_of self }
    {
        let [a, b, c, d] = self.v0.to_be_bytes();
        let [e, f, g, h] = self.v1.to_be_bytes();
        [a, b, c, d, e, f, g, h]
    }
}

// What a word grows by in a cycle, from the other word v, the sum s and a word k of the key.
fn mixed(v: u32, s: u32, k: u32) -> u32
    ensures { result ≡ mix v s k }
{
    ((v << 4) ^ (v >> 5)).wrapping_add(v) ^ s.wrapping_add(k)
}

#[cfg(test)]
mod tests;
