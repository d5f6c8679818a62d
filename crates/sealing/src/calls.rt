// Direct sealing and unsealing of a caller's buffer, in its place, and what both begin with.
ghost use Rattle.std.specs.Prelude.{◌≡◌};
ghost use Rattle.sealing.specs.Mode.{maps, prepared, sealing, unsealing, answer, left, Whole, Promised};

use crate::blocks::{seal_blocks, unseal_blocks};
use cipher::Cipher;
use fault::{NoInverse, SealFault};
use kind::{Block, MOST_BLOCKS};
use passes::{Terms, Work};

// What a sealing or unsealing of `len` bytes begins with: R, EN, EEN and the number of blocks, and the inverse of R (zero at one block, which has no
// use for it). Refuses, in this order: 10, the tweak is not one block; 11, `len` is not one or more whole blocks; 12, it is more than 64 blocks;
// 13, it is two blocks or more and the tweak is dead, R being zero, with the missing inverse as its cause.
// Kept: zero stands for the inverse at one block. With an Option, unsealing would have to put some block in the place of None: this zero.
pub fn prepare<C: Cipher>(
    cipher: &C,
    tweak: &[u8],
    len: usize,
) -> Result<(Terms<C::Block>, C::Block), SealFault>
    ensures outcome { result ≡ prepared C.Block.ops (maps C.enc C.dec cipher.now) tweak.now len }
    ensures whole { Whole C.Block.ops len result }
{
    let size = C::Block::size();
    if tweak.len() != size {
        return Err(SealFault::TweakLength);
    }
    if len == 0 || len % size != 0 {
        return Err(SealFault::NotWholeBlocks);
    }
    let m = len / size;
    if m > MOST_BLOCKS {
        return Err(SealFault::TooManyBlocks);
    }
    let t = C::Block::load(tweak);
    let r = cipher.encrypt(t);
    let en = cipher.encrypt(r.add(C::Block::numbered(m as u64)));
    let een = cipher.encrypt(en.double());
    let terms = Terms {
        r,
        en,
        een,
        m: m as u16,
    };
    if m == 1 {
        return Ok((terms, C::Block::zero()));
    }
    let l = r
        .inverse()
        .ok_or(SealFault::DeadTweak { cause: NoInverse })?;
    Ok((terms, l))
}

// Kept: `seal` and `unseal` are two public promises. What they share is `prepare`, and each has its own change in one line.

// Seals the text in `buffer` under the tweak, in its place. Refuses as `prepare` does (10, 11, 12, 13, in this order) and then leaves every byte.
// One block is accepted under every tweak.
pub fn seal<C: Cipher>(cipher: &C, tweak: &[u8], buffer: &mut [u8]) -> Result<(), SealFault>
    ensures answers { result ≡ answer (sealing C.Block.ops (maps C.enc C.dec cipher.now) tweak.now buffer.old) }
    ensures leaves { buffer.new ≡ left (sealing C.Block.ops (maps C.enc C.dec cipher.now) tweak.now buffer.old) buffer.old }
    ensures promises { Promised C.Block.ops (maps C.enc C.dec cipher.now) }
{
    let (terms, _l) = prepare(cipher, tweak, buffer.len())?;
    let mut work = Work::on(cipher, &terms, buffer);
    seal_blocks(&mut work);
    Ok(())
}

// Unseals the text in `buffer` under the tweak, in its place. Refuses as `seal` does, and then leaves every byte.
pub fn unseal<C: Cipher>(cipher: &C, tweak: &[u8], buffer: &mut [u8]) -> Result<(), SealFault>
    ensures answers { result ≡ answer (unsealing C.Block.ops (maps C.enc C.dec cipher.now) tweak.now buffer.old) }
    ensures leaves { buffer.new ≡ left (unsealing C.Block.ops (maps C.enc C.dec cipher.now) tweak.now buffer.old) buffer.old }
    ensures promises { Promised C.Block.ops (maps C.enc C.dec cipher.now) }
{
    let (terms, l) = prepare(cipher, tweak, buffer.len())?;
    let mut work = Work::on(cipher, &terms, buffer);
    unseal_blocks(&mut work, l);
    Ok(())
}
