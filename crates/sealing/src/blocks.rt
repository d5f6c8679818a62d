// The passes of sealing, and unsealing whole, on a buffer of as many blocks as was begun. The length is checked by the calls that a user makes.
ghost use Rattle.std.specs.Prelude.{◌≡◌};
ghost use Rattle.passes.specs.Changed.{Changed};
ghost use Rattle.passes.specs.Scheme.{by_count};
ghost use Rattle.sealing.specs.Mode.{maps, first_pass, second_pass, third_pass, sealed, unsealed};

use cipher::Cipher;
use kind::Block;
use passes::Work;

// The one up to two blocks, and the other from three up.
fn by_size<K: Copy>(m: u16, few: K, many: K) -> K
    ensures { result ≡ by_count m few few many }
{
    if m <= 2 { few } else { many }
}

// The first pass: the blocks PP from the text.
pub fn first_pass<C: Cipher>(work: &mut Work<'_, C>)
    ensures { Changed (first_pass C.Block.ops (maps C.enc C.dec work.old.cipher.now) work.old.terms.now) work.old work.new }
{
    work.multiply_by_powers(work.terms.r);
}

// The second pass: the blocks CCC from the PP.
pub fn second_pass<C: Cipher>(work: &mut Work<'_, C>)
    ensures { Changed (second_pass C.Block.ops (maps C.enc C.dec work.old.cipher.now) work.old.terms.now) work.old work.new }
{
    work.add_masks(work.terms.en, work.terms.en);
    work.encrypt_all();
}

// The third pass: the sealed blocks from the CCC.
pub fn third_pass<C: Cipher>(work: &mut Work<'_, C>)
    ensures { Changed (third_pass C.Block.ops (maps C.enc C.dec work.old.cipher.now) work.old.terms.now) work.old work.new }
{
    let terms = work.terms;
    let end = by_size(terms.m, terms.en, terms.een);
    work.add_masks(terms.een.double(), end);
    work.multiply_by_powers(terms.r);
}

// The sealed blocks from the text.
pub(crate) fn seal_blocks<C: Cipher>(work: &mut Work<'_, C>)
    ensures { Changed (sealed C.Block.ops (maps C.enc C.dec work.old.cipher.now) work.old.terms.now) work.old work.new }
{
    first_pass(work);
    second_pass(work);
    third_pass(work);
}

// The text from the sealed blocks. l is the inverse of R, and of no matter at one block.
pub(crate) fn unseal_blocks<C: Cipher>(work: &mut Work<'_, C>, l: C::Block)
    ensures { Changed (unsealed C.Block.ops (maps C.enc C.dec work.old.cipher.now) work.old.terms.now l) work.old work.new }
{
    let terms = work.terms;
    work.multiply_by_powers(l);
    work.add_masks(terms.een.double(), terms.een);
    work.decrypt_all();
    let end = by_size(terms.m, terms.een, terms.en);
    work.add_masks(terms.en, end);
    work.multiply_by_powers(l);
}
