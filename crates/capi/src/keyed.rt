// Ciphers under the keys that C passes as bytes.
ghost use Rattle.std.specs.Prelude.{◌≡◌, ℕ, ◌*◌, ◌^◌, ◌<◌, List, take, drop};
ghost use Rattle.std.specs.Mem.{type_size};
ghost use Rattle.std.proofs.Common.{rules};
ghost use Rattle.kind.specs.Polynomials.{short_ops};
ghost use Rattle.sealing.specs.Mode.{Maps, maps};
ghost use Rattle.aes.specs.Keys.{key_expansion};
ghost use Rattle.xtea.specs.Xtea.{key_words};
ghost use Rattle.capi.specs.Keyed.{aes_under, xtea_under, whitened_under, Parts, aes_parts, xtea_parts, whitened_parts, whitened_made};

use aes::Aes;
use cipher::{Cipher, Whitened};
use kind::Block;
use poly::Short;
use xtea::Xtea;

// A cipher that is made of the bytes of a key.
pub trait Keyed: Cipher + Drop {
    // The bytes of a key.
    type Key: Copy + Default;

    // What a cipher holds of its key.
    ghost Held: { Type 0 };

    ghost held: { Self → Held };

    // What a key gives it to hold.
    ghost made: { Self.Key → Held };

    // The two maps under a key.
    ghost under: { Self.Key → Maps Self.Block };

    // The cipher of a key. It never refuses.
    fn of_key(key: &Self::Key) -> Self
        ensures parts { held result ≡ made key.now }
        ensures maps { maps Self.enc Self.dec result ≡ under key.now };

    // A ring of eight, the ciphers side by side, has room in memory.
    ghost small: { 8 * type_size Self.row < 2 ^ 63 };
}

impl Keyed for Aes {
    type Key = [u8; 16];

    ghost Held = { List ℕ };

    ghost held = { aes_parts };

    ghost made = { key_expansion };

    ghost under = { aes_under };

    ghost small = { Prim.search rules };

    fn of_key(key: &[u8; 16]) -> Aes {
        Aes::new(key)
    }
}

impl Keyed for Xtea {
    type Key = [u8; 16];

    ghost Held = { List ℕ };

    ghost held = { xtea_parts };

    ghost made = { key_words };

    ghost under = { xtea_under };

    ghost small = { Prim.search rules };

    fn of_key(key: &[u8; 16]) -> Xtea {
        Xtea::new(key)
    }
}

impl Keyed for Whitened<Xtea> {
    type Key = [u8; 32];

    ghost Held = { Parts };

    ghost held = { whitened_parts };

    ghost made = { whitened_made };

    ghost under = { whitened_under };

    ghost small = { Prim.search rules };

    fn of_key(key: &[u8; 32]) -> Whitened<Xtea> {
        whitened_under(key)
    }
}

// Whitened XTEA under 32 bytes: 16 of the key, then the block before and the block after.
pub fn whitened_under(key: &[u8; 32]) -> Whitened<Xtea>
    ensures inner { result.inner.key ≡ key_words (take 16 key.now) }
    ensures before { result.before ≡ short_ops.block (take 8 (drop 16 key.now)) }
    ensures after { result.after ≡ short_ops.block (take 8 (drop 24 key.now)) }
{
    let inner = Xtea::new(key.first_chunk().unwrap());
    let (blocks, _) = key[16..].as_chunks::<8>();
    let before = Short::load(&blocks[0]);
    let after = Short::load(&blocks[1]);
    Whitened::new(inner, before, after)
}
