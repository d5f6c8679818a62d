// One block in its place, by a cipher under a key. These never refuse.
ghost use Rattle.std.specs.Prelude.{◌≡◌, length};
ghost use Rattle.kind.specs.Polynomials.{wide_ops, short_ops};
ghost use Rattle.capi.specs.Keyed.{aes_under, xtea_under, whitened_under, on_block};

use crate::keyed::Keyed;
use aes::Aes;
use cipher::Whitened;
use kind::Block;
use xtea::Xtea;

// Kept: slices whose length the next three ask for, as a block's own `load` and `store` do: with `[u8; N]` for a const parameter N the premise would stay, as one that N is the size of the kind's block.

// Puts what a map gives of a block in the block's place.
fn replace<K: Block, F: FnOnce(K) -> K>(block: &mut [u8], map: F)
    requires whole { length block.old ≡ K.ops.size }
    requires callable { F.pre map (K.ops.block block.old) }
    ensures { (b : K) × F.post map (K.ops.block block.old) b × (block.new ≡ K.ops.bytes b) }
{
    map(K::load(block)).store(block);
}

// Puts E of a block in the block's place, by the cipher of a key.
fn encrypt<C: Keyed>(key: &C::Key, block: &mut [u8])
    requires { length block.old ≡ C.Block.ops.size }
    ensures { block.new ≡ on_block C.Block.ops (C.under key.now).E block.old }
{
    let cipher = C::of_key(key);
    replace(block, |text| cipher.encrypt(text));
}

// Puts D of a block in the block's place, by the cipher of a key.
fn decrypt<C: Keyed>(key: &C::Key, block: &mut [u8])
    requires { length block.old ≡ C.Block.ops.size }
    ensures { block.new ≡ on_block C.Block.ops (C.under key.now).D block.old }
{
    let cipher = C::of_key(key);
    replace(block, |text| cipher.decrypt(text));
}

// Kept: the exports are the C interface, which has a function for each cipher.

// AES-128 of a block under a key.
#[unsafe(no_mangle)]
pub extern "C" fn cardlock_aes_encrypt(key: &[u8; 16], block: &mut [u8; 16])
    ensures { block.new ≡ on_block wide_ops (aes_under key.now).E block.old }
{
    encrypt::<Aes>(key, block);
}

// The deciphering by AES-128 of a block under a key.
#[unsafe(no_mangle)]
pub extern "C" fn cardlock_aes_decrypt(key: &[u8; 16], block: &mut [u8; 16])
    ensures { block.new ≡ on_block wide_ops (aes_under key.now).D block.old }
{
    decrypt::<Aes>(key, block);
}

// XTEA of a block under a key.
#[unsafe(no_mangle)]
pub extern "C" fn cardlock_xtea_encrypt(key: &[u8; 16], block: &mut [u8; 8])
    ensures { block.new ≡ on_block short_ops (xtea_under key.now).E block.old }
{
    encrypt::<Xtea>(key, block);
}

// The deciphering by XTEA of a block under a key.
#[unsafe(no_mangle)]
pub extern "C" fn cardlock_xtea_decrypt(key: &[u8; 16], block: &mut [u8; 8])
    ensures { block.new ≡ on_block short_ops (xtea_under key.now).D block.old }
{
    decrypt::<Xtea>(key, block);
}

// Whitened XTEA of a block under a key, which is followed by the block before and the block after.
#[unsafe(no_mangle)]
pub extern "C" fn cardlock_whitened_encrypt(key: &[u8; 32], block: &mut [u8; 8])
    ensures { block.new ≡ on_block short_ops (whitened_under key.now).E block.old }
{
    encrypt::<Whitened<Xtea>>(key, block);
}

// The deciphering by whitened XTEA of a block under a key, which is followed by the block before and the block after.
#[unsafe(no_mangle)]
pub extern "C" fn cardlock_whitened_decrypt(key: &[u8; 32], block: &mut [u8; 8])
    ensures { block.new ≡ on_block short_ops (whitened_under key.now).D block.old }
{
    decrypt::<Whitened<Xtea>>(key, block);
}
