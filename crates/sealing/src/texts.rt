// What a card needs of sealing, for every block kind and cipher.
ghost use Rattle.sealing.specs.Texts.{Lawful, Decided, text_sealing};

use cipher::Cipher;
use kind::Block;

// For every cipher: the sealing of texts of 512 bytes and its unsealing undo each other, and whether they are refused hangs on the tweak alone.
pub fn seals_texts<C: Cipher>(_cipher: &C)
    ensures lawful { Lawful (text_sealing C.Block.ops C.enc C.dec) }
    ensures decided { Decided C.Block.ops C.enc C.dec }
{}
