// An owner's own cipher, as an example: it adds a key to the block and turns the block's bytes by one place. It is no strong cipher.
#![tactic(auto)]

ghost use Rattle.std.specs.Prelude.{◌≡◌};
ghost use Rattle.std.proofs.Common.{ap, ◌∙◌};
ghost use Rattle.example_cipher.specs.Turning.{turn, turn_back, encrypted, decrypted};
ghost use Rattle.cipher.specs.Sums.{sum_back};
ghost use Rattle.kind.specs.Polynomials.{short_ops};
ghost use Rattle.example_cipher.specs.Turns.{short_laws, turned_back, turned_forth};
ghost use Rattle.cipher.specs.Bytes.{through_bytes};

use cipher::{Cipher, bytes_of};
use kind::Block;
use poly::Short;

// The cipher under a key of one block.
#[derive(Clone, Copy)]
pub struct Turning {
    key: Short,
}

impl Turning {
    // The cipher of a key. It never refuses.
    pub fn new(key: Short) -> Turning
        ensures { result.key ≡ key }
    {
        Turning { key }
    }
}

impl Cipher for Turning {
    type Block = Short;

    ghost enc = { encrypted };

    ghost dec = { decrypted };

    ghost back = { λ c b. ap (λ z. short_ops.add z c.key) (turned_back (short_ops.add b c.key)) ∙ sum_back short_ops short_laws b c.key };

    ghost forth = { λ c b. ap (through_bytes short_ops turn) (sum_back short_ops short_laws (through_bytes short_ops turn_back b) c.key) ∙ turned_forth b };

    fn encrypt(&self, b: Short) -> Short {
        Short::load(&turned(bytes_of(b.add(self.key))))
    }

    fn decrypt(&self, b: Short) -> Short {
        Short::load(&turned_back(bytes_of(b))).add(self.key)
    }
}

// The bytes of a block, the first one put last.
fn turned(mut bytes: [u8; 8]) -> [u8; 8]
    ensures { result ≡ turn bytes }
{
    bytes.rotate_left(1);
    bytes
}

// The bytes of a block, the last one put first.
fn turned_back(mut bytes: [u8; 8]) -> [u8; 8]
    ensures { result ≡ turn_back bytes }
{
    bytes.rotate_right(1);
    bytes
}
