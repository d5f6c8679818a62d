// Sheets and their cards: what a sheet, its card and the calls on both are, and the proof that lists of calls keep sheet and card together (specs and
// proofs). In code, the one thing that cards add to the sealing: the tweak of a sector.
#![tactic(auto)]

ghost use Rattle.std.specs.Prelude.{◌≡◌};
ghost use Rattle.sheet.specs.Sectors.{sector_tweak};

use kind::Block;

// The tweak of a sector on the card with this number: card number ⊕ the block whose big-endian number is the sector.
pub fn sector_tweak<K: Block>(number: K, sector: usize) -> K
    ensures { result ≡ sector_tweak K.ops (K.ops.bytes number) sector }
{
    number.add(K::numbered(sector as u64))
}
