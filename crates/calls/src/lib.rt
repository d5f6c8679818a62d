// Lists of calls on one image with one ring, and the whole promise on them: see `run`.
#![tactic(auto)]

ghost use Rattle.std.specs.Prelude.{◌≡◌, ℕ, List};
ghost use Rattle.kind.specs.Laws.{Bytes};
ghost use Rattle.sealing.specs.Mode.{maps, ThereAndBack, OneDeadTweak};
ghost use Rattle.sector.specs.Rings.{ciphers_of};
ghost use Rattle.sheet.specs.Sectors.{sectors};
ghost use Rattle.sheet.specs.Promise.{IsRing, KeepsSheet, EqualCardsEqualSheets, OpensExactlyCards, opening as Opening};
ghost use Rattle.sheet.specs.Images.{outcome_on, final_image, answers_on};
ghost use Rattle.calls.specs.Runs.{calls_of, answers_of, all_asked, Made};

use cipher::Cipher;
use fault::Fault;
use kind::Block;
use sector::Ring;

mod step;

pub use step::{Call, Step};

// Says of a slice what its type says: each element is a byte.
// Kept: without it the proofs of `make` and `run` don't close, since nothing there says that the elements of a Vec or behind a `&mut` are bytes.
fn are_bytes(bytes: &[u8])
    ensures { Bytes bytes.now }
{
    let _length = bytes.len();
}

// Makes one call; refuses as the call does.
fn make<C: Cipher>(image: &mut [u8], ring: &Ring<'_, C>, call: &mut Call) -> Result<(), Fault>
    ensures { Made (sectors C.Block.ops C.enc C.dec) (ciphers_of ring.now) image.old call.old result image.new call.new }
{
    match call {
        Call::Format { number } => {
            are_bytes(number.as_slice());
            card::format::<C>(image, number.as_slice())
        }
        Call::Open => card::open(image, ring),
        Call::Write { sector, key, text } => {
            are_bytes(text.as_slice());
            card::write(image, ring, *sector, *key, text.as_slice())
        }
        Call::Read { sector, buffer } => {
            are_bytes(buffer.as_slice());
            card::read(image, ring, *sector, buffer.as_mut_slice())
        }
        Call::Rekey { sector, key } => card::rekey(image, ring, *sector, *key),
        Call::Copy {
            source,
            destination,
        } => card::copy(image, ring, *source, *destination),
        Call::Erase { sector } => card::erase::<C>(image, *sector),
    }
}

// Makes the call of a step and notes its outcome there.
fn make_step<C: Cipher>(image: &mut [u8], ring: &Ring<'_, C>, step: &mut Step)
    ensures { Made (sectors C.Block.ops C.enc C.dec) (ciphers_of ring.now) image.old step.old.call step.new.outcome image.new step.new.call }
{
    step.outcome = make(image, ring, &mut step.call);
}

// Makes the calls of a list in turn on one image with one ring. Each step then has its call's outcome, a read's buffer what the read left in it, and nothing
// else of the list is changed.
//
// `promise`: if the ring has one to eight ciphers and the list begins with an accepted format or open, the image is the card of the sheet that the list
// makes, and from the second call on each outcome and the text of each accepted read are what the sheet before that call decides.
// `equal_cards`: cards of this ring that are equal in size and number hold the same bytes exactly when their sheets agree in every sector.
// `opens`: an image, whatever its bytes, is opened exactly when it is the card of some sheet, and then of one sheet only.
// `one_dead_tweak`, `there_and_back`: for each cipher exactly one tweak, the same at every count from two blocks up, is refused by direct sealing and
// unsealing, and under all others every buffer goes there and back.
pub fn run<C: Cipher>(image: &mut [u8], ring: &Ring<'_, C>, steps: &mut [Step])
    ensures image { image.new ≡ final_image (sectors C.Block.ops C.enc C.dec) (ciphers_of ring.now) image.old (calls_of steps.old) }
    ensures answers { answers_of steps.new ≡ answers_on (sectors C.Block.ops C.enc C.dec) (ciphers_of ring.now) image.old (calls_of steps.old) }
    ensures unchanged { all_asked steps.new ≡ all_asked steps.old }
    ensures promise { IsRing (ciphers_of ring.now) → KeepsSheet (sectors C.Block.ops C.enc C.dec) (ciphers_of ring.now) image.old (calls_of steps.old) image.new (answers_of steps.new) }
    ensures equal_cards { EqualCardsEqualSheets (sectors C.Block.ops C.enc C.dec) (ciphers_of ring.now) }
    ensures opens { IsRing (ciphers_of ring.now) → (x : List ℕ) → Bytes x → OpensExactlyCards (sectors C.Block.ops C.enc C.dec) (ciphers_of ring.now) x (outcome_on (sectors C.Block.ops C.enc C.dec) (ciphers_of ring.now) x Opening) }
    ensures one_dead_tweak { (c : C) → OneDeadTweak C.Block.ops (maps C.enc C.dec c) }
    ensures there_and_back { (c : C) → ThereAndBack C.Block.ops (maps C.enc C.dec c) }
{
    are_bytes(image);
    for step in steps.iter_mut() {
        make_step(image, ring, step);
    }
}
