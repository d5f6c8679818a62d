// The rounds of AES-128 on 16 bytes, and the cipher on blocks by their bytes.
ghost use Rattle.std.specs.Prelude.{◌≡◌, map};
ghost use Rattle.std.specs.List.{range_with_len};
ghost use Rattle.cipher.specs.Bytes.{through_bytes};
ghost use Rattle.aes.specs.Blocks.{encrypted, decrypted};
ghost use Rattle.aes.specs.Cipher.{round_key, add_round_key, cipher, inv_cipher};
ghost use Rattle.cipher.proofs.Through.{through_undone};
ghost use Rattle.kind.specs.Polynomials.{wide_ops};
ghost use Rattle.aes.specs.Undone.{cipher_block, cipher_undone, inv_cipher_block, inv_cipher_undone};
ghost use Rattle.aes.specs.AesCipherLemmas.{wide_laws, block_of};

use crate::keyed::Aes;
use aes_steps::{
    inv_mix_columns, inv_shift_rows, inv_sub_bytes, mix_columns, shift_rows, sub_bytes,
};
use cipher::{Cipher, bytes_of};
use kind::Block;
use poly::Wide;
use std::array;

// AES-128 on the wide kind: E is the cipher of FIPS 197 on the block's bytes, and D the inverse cipher.
impl Cipher for Aes {
    type Block = Wide;

    ghost enc = { encrypted };

    ghost dec = { decrypted };

    ghost back = { λ c b.
        through_undone wide_ops wide_laws (cipher c.keys) (inv_cipher c.keys)
        (λ s l h. let k = cipher_block c.keys c.bytes s (block_of s l h) in (k.len, k.fits))
        (λ s l h. cipher_undone c.keys c.bytes s (block_of s l h)) b };

    ghost forth = { λ c b.
        through_undone wide_ops wide_laws (inv_cipher c.keys) (cipher c.keys)
        (λ s l h. let k = inv_cipher_block c.keys c.bytes s (block_of s l h) in (k.len, k.fits))
        (λ s l h. inv_cipher_undone c.keys c.bytes s (block_of s l h)) b };

    fn encrypt(&self, b: Wide) -> Wide {
        self.encrypt_in(b)
    }

    fn decrypt(&self, b: Wide) -> Wide {
        self.decrypt_in(b)
    }
}

impl Aes {
    // The encryption of a block of any kind that has 16 bytes.
    fn encrypt_in<K: Block>(&self, b: K) -> K
        requires { K.ops.size ≡ 16 }
        ensures { result ≡ through_bytes K.ops (cipher self.now.keys) b }
    {
        K::load(&self.encrypt_bytes(bytes_of(b)))
    }

    // The decryption of a block of any kind that has 16 bytes.
    fn decrypt_in<K: Block>(&self, b: K) -> K
        requires { K.ops.size ≡ 16 }
        ensures { result ≡ through_bytes K.ops (inv_cipher self.now.keys) b }
    {
        K::load(&self.decrypt_bytes(bytes_of(b)))
    }

    // Kept: the cipher and the inverse cipher each as FIPS 197 has it: other steps, in another order, with the round keys from the other end.

    // The cipher of FIPS 197 on the bytes of a block.
    fn encrypt_bytes(&self, s: [u8; 16]) -> [u8; 16]
        ensures { result ≡ cipher self.now.keys s }
    {
        let (first, middle, last) = self.round_keys();
        let mut t = add_round_key(s, first);
        for key in middle {
            t = add_round_key(mix_columns(shift_rows(sub_bytes(t))), key);
        }
        add_round_key(shift_rows(sub_bytes(t)), last)
    }

    // The inverse cipher of FIPS 197 on the bytes of a block.
    fn decrypt_bytes(&self, s: [u8; 16]) -> [u8; 16]
        ensures { result ≡ inv_cipher self.now.keys s }
    {
        let (first, middle, last) = self.round_keys();
        let mut t = add_round_key(s, last);
        for key in middle.iter().rev() {
            t = inv_mix_columns(add_round_key(inv_sub_bytes(inv_shift_rows(t)), key));
        }
        add_round_key(inv_sub_bytes(inv_shift_rows(t)), first)
    }

    // The round key that comes before the rounds, those of the nine full rounds, and that of the last round.
    fn round_keys(&self) -> (&[u8; 16], &[[u8; 16]], &[u8; 16])
        ensures first { result.0.now ≡ round_key self.now.keys 0 }
        ensures middle { result.1.now ≡ map (λ i. round_key self.now.keys i) (range_with_len 1 9) }
        ensures last { result.2.now ≡ round_key self.now.keys 10 }
    {
        let (keys, _) = self.keys.as_chunks();
        (&keys[0], &keys[1..10], &keys[10])
    }
}

// The state with a round key added.
fn add_round_key(s: [u8; 16], key: &[u8; 16]) -> [u8; 16]
    ensures { result ≡ add_round_key key.now 0 s }
{
    array::from_fn(|i| s[i] ^ key[i])
}
