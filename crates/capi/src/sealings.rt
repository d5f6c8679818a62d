// Direct sealing and unsealing of a buffer in its place.
ghost use Rattle.std.specs.Prelude.{◌≡◌};
ghost use Rattle.kind.specs.Polynomials.{wide_ops, short_ops};
ghost use Rattle.capi.specs.Keyed.{aes_under, xtea_under, whitened_under};
ghost use Rattle.capi.specs.Outcomes.{seal_outcome, seal_leaves, unseal_outcome, unseal_leaves};

use crate::keyed::Keyed;
use crate::outcome::Outcome;
use aes::Aes;
use cipher::Whitened;
use xtea::Xtea;

// Kept: two functions of one line, since sealing and unsealing are two calls with two contracts; one that takes the call as a closure would be longer.

// Seals a buffer by the cipher of a key.
fn seal<C: Keyed>(key: &C::Key, tweak: &[u8], buffer: &mut [u8]) -> Outcome
    ensures answers { result ≡ seal_outcome C.Block.ops (C.under key.now) tweak.now buffer.old }
    ensures leaves { buffer.new ≡ seal_leaves C.Block.ops (C.under key.now) tweak.now buffer.old }
{
    Outcome::from(sealing::seal(&C::of_key(key), tweak, buffer))
}

// Unseals a buffer by the cipher of a key.
fn unseal<C: Keyed>(key: &C::Key, tweak: &[u8], buffer: &mut [u8]) -> Outcome
    ensures answers { result ≡ unseal_outcome C.Block.ops (C.under key.now) tweak.now buffer.old }
    ensures leaves { buffer.new ≡ unseal_leaves C.Block.ops (C.under key.now) tweak.now buffer.old }
{
    Outcome::from(sealing::unseal(&C::of_key(key), tweak, buffer))
}

// Kept: the exports are the C interface, which has a function for each cipher.

// Seals a buffer by AES-128 under a key. Refuses 10 to 13, and then leaves every byte.
#[unsafe(no_mangle)]
pub extern "C" fn cardlock_aes_seal(key: &[u8; 16], tweak: &[u8], buffer: &mut [u8]) -> Outcome
    ensures answers { result ≡ seal_outcome wide_ops (aes_under key.now) tweak.now buffer.old }
    ensures leaves { buffer.new ≡ seal_leaves wide_ops (aes_under key.now) tweak.now buffer.old }
{
    seal::<Aes>(key, tweak, buffer)
}

// Unseals a buffer by AES-128 under a key. Refuses 10 to 13, and then leaves every byte.
#[unsafe(no_mangle)]
pub extern "C" fn cardlock_aes_unseal(key: &[u8; 16], tweak: &[u8], buffer: &mut [u8]) -> Outcome
    ensures answers { result ≡ unseal_outcome wide_ops (aes_under key.now) tweak.now buffer.old }
    ensures leaves { buffer.new ≡ unseal_leaves wide_ops (aes_under key.now) tweak.now buffer.old }
{
    unseal::<Aes>(key, tweak, buffer)
}

// Seals a buffer by XTEA under a key. Refuses 10 to 13, and then leaves every byte.
#[unsafe(no_mangle)]
pub extern "C" fn cardlock_xtea_seal(key: &[u8; 16], tweak: &[u8], buffer: &mut [u8]) -> Outcome
    ensures answers { result ≡ seal_outcome short_ops (xtea_under key.now) tweak.now buffer.old }
    ensures leaves { buffer.new ≡ seal_leaves short_ops (xtea_under key.now) tweak.now buffer.old }
{
    seal::<Xtea>(key, tweak, buffer)
}

// Unseals a buffer by XTEA under a key. Refuses 10 to 13, and then leaves every byte.
#[unsafe(no_mangle)]
pub extern "C" fn cardlock_xtea_unseal(key: &[u8; 16], tweak: &[u8], buffer: &mut [u8]) -> Outcome
    ensures answers { result ≡ unseal_outcome short_ops (xtea_under key.now) tweak.now buffer.old }
    ensures leaves { buffer.new ≡ unseal_leaves short_ops (xtea_under key.now) tweak.now buffer.old }
{
    unseal::<Xtea>(key, tweak, buffer)
}

// Seals a buffer by whitened XTEA under 32 bytes: the key, the block before and the block after. Refuses 10 to 13, and then leaves every byte.
#[unsafe(no_mangle)]
pub extern "C" fn cardlock_whitened_seal(key: &[u8; 32], tweak: &[u8], buffer: &mut [u8]) -> Outcome
    ensures answers { result ≡ seal_outcome short_ops (whitened_under key.now) tweak.now buffer.old }
    ensures leaves { buffer.new ≡ seal_leaves short_ops (whitened_under key.now) tweak.now buffer.old }
{
    seal::<Whitened<Xtea>>(key, tweak, buffer)
}

// Unseals a buffer by whitened XTEA under 32 bytes: the key, the block before and the block after. Refuses 10 to 13, and then leaves every byte.
#[unsafe(no_mangle)]
pub extern "C" fn cardlock_whitened_unseal(
    key: &[u8; 32],
    tweak: &[u8],
    buffer: &mut [u8],
) -> Outcome
    ensures answers { result ≡ unseal_outcome short_ops (whitened_under key.now) tweak.now buffer.old }
    ensures leaves { buffer.new ≡ unseal_leaves short_ops (whitened_under key.now) tweak.now buffer.old }
{
    unseal::<Whitened<Xtea>>(key, tweak, buffer)
}
