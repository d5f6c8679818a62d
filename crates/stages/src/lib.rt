// Sealing in three passes over a buffer of the caller's. Beginning checks the tweak and the length and gives a stage; each pass uses up the stage
// before it and gives the next, so a pass out of order, or a stage used twice, does not compile. Run in order on a buffer otherwise untouched, the
// passes end in the sealing.
#![tactic(auto)]

ghost use Rattle.std.specs.Prelude.{◌≡◌, length};
ghost use Rattle.sealing.specs.Mode.{maps, sealing, answer, left, first_pass, second_pass, third_pass};
ghost use Rattle.stages.specs.Stages.{beginning, next_stage, next_or_back, after_pass};

use cipher::Cipher;
use fault::SealFault;
use kind::Block;
use passes::{Terms, Work};
use sealing::blocks::{first_pass, second_pass, third_pass};
use sealing::prepare;

// A sealing of which PASSES passes are done: R, EN, EEN by value and the number m of blocks. Its field is private, so that only `begin` and the passes
// make one.
#[derive(Drop)]
pub struct Stage<K, const PASSES: usize> {
    terms: Terms<K>,
}

// A sealing that has begun.
pub type Begun<K> = Stage<K, 0>;

// A sealing after its first pass: the buffer holds the blocks PP.
pub type Hashed<K> = Stage<K, 1>;

// A sealing after its second pass: the buffer holds the blocks CCC.
pub type Enciphered<K> = Stage<K, 2>;

// A refused pass: its fault, and the stage that it was given, which can be used again.
#[derive(Drop)]
pub struct Refused<S> {
    pub stage: S,
    pub fault: SealFault,
}

// The fault of a refused pass, for a caller who has no more use for the stage.
impl<S: Drop> From<Refused<S>> for SealFault {
    ghost from_gives = { λ refused fault. fault ≡ refused.fault };

    fn from(refused: Refused<S>) -> SealFault {
        refused.fault
    }
}

// The stage itself where a buffer of `len` bytes has the m blocks of its terms; else it is refused (14) and handed back.
// Kept: the terms beside the stage. Tried as a method of `Stage<K, PASSES>`: then each call owes that a stage finds room in memory, which nothing says of K.
fn for_buffer<K: Block, S>(terms: Terms<K>, stage: S, len: usize) -> Result<S, Refused<S>>
    ensures { result ≡ next_or_back K.ops terms len stage stage }
{
    if len != terms.m as usize * K::size() {
        return Err(Refused {
            stage,
            fault: SealFault::OtherLength,
        });
    }
    Ok(stage)
}

// Begins a sealing of a buffer of `len` bytes. Refuses as a direct sealing does: 10, 11, 12, 13, in this order.
pub fn begin<C: Cipher>(cipher: &C, tweak: &[u8], len: usize) -> Result<Begun<C::Block>, SealFault>
    ensures { result ≡ beginning C.Block.ops (maps C.enc C.dec cipher.now) tweak.now len }
{
    let (terms, _l) = prepare(cipher, tweak, len)?;
    Ok(Stage { terms })
}

// Kept: three public passes with a contract each. A common function would be given the terms and the stage, as `for_buffer` is, and beside them the next stage and the pass: no shorter.

// The first pass turns the text into the blocks PP (one block stays as it is). Refuses a buffer of another length than was begun (14): then it hands
// the stage back and leaves every byte.
pub fn hash<C: Cipher>(
    cipher: &C,
    stage: Begun<C::Block>,
    buffer: &mut [u8],
) -> Result<Hashed<C::Block>, Refused<Begun<C::Block>>>
    ensures answers { result ≡ next_or_back C.Block.ops stage.terms (length buffer.old) (next_stage stage) stage }
    ensures leaves { buffer.new ≡ after_pass C.Block.ops stage.terms (first_pass C.Block.ops (maps C.enc C.dec cipher.now) stage.terms) buffer.old }
{
    let begun = for_buffer(stage.terms, stage, buffer.len())?;
    first_pass(&mut Work::on(cipher, &begun.terms, buffer));
    Ok(Stage { terms: begun.terms })
}

// The second pass turns the blocks PP into the CCC. Refuses as the first pass does (14).
pub fn encipher<C: Cipher>(
    cipher: &C,
    stage: Hashed<C::Block>,
    buffer: &mut [u8],
) -> Result<Enciphered<C::Block>, Refused<Hashed<C::Block>>>
    ensures answers { result ≡ next_or_back C.Block.ops stage.terms (length buffer.old) (next_stage stage) stage }
    ensures leaves { buffer.new ≡ after_pass C.Block.ops stage.terms (second_pass C.Block.ops (maps C.enc C.dec cipher.now) stage.terms) buffer.old }
{
    let hashed = for_buffer(stage.terms, stage, buffer.len())?;
    second_pass(&mut Work::on(cipher, &hashed.terms, buffer));
    Ok(Stage {
        terms: hashed.terms,
    })
}

// The third pass turns the blocks CCC into the sealed ones. Refuses as the first pass does (14).
pub fn finish<C: Cipher>(
    cipher: &C,
    stage: Enciphered<C::Block>,
    buffer: &mut [u8],
) -> Result<(), Refused<Enciphered<C::Block>>>
    ensures answers { result ≡ next_or_back C.Block.ops stage.terms (length buffer.old) tt stage }
    ensures leaves { buffer.new ≡ after_pass C.Block.ops stage.terms (third_pass C.Block.ops (maps C.enc C.dec cipher.now) stage.terms) buffer.old }
{
    let enciphered = for_buffer(stage.terms, stage, buffer.len())?;
    third_pass(&mut Work::on(cipher, &enciphered.terms, buffer));
    Ok(())
}

// Seals the text in `buffer` by the three passes: answers and leaves what direct sealing does.
pub fn seal_by_passes<C: Cipher>(
    cipher: &C,
    tweak: &[u8],
    buffer: &mut [u8],
) -> Result<(), SealFault>
    ensures answers { result ≡ answer (sealing C.Block.ops (maps C.enc C.dec cipher.now) tweak.now buffer.old) }
    ensures leaves { buffer.new ≡ left (sealing C.Block.ops (maps C.enc C.dec cipher.now) tweak.now buffer.old) buffer.old }
{
    let begun = begin(cipher, tweak, buffer.len())?;
    let hashed = hash(cipher, begun, buffer)?;
    let enciphered = encipher(cipher, hashed, buffer)?;
    finish(cipher, enciphered, buffer)?;
    Ok(())
}
