// The walk for C: the whole image is walked first, and then each sector's number is written.
#![tactic(auto)]

ghost use Rattle.std.specs.Prelude.{◌≡◌, OnOk};
ghost use Rattle.capi.specs.Outcomes.{outcome};
ghost use Rattle.walk.specs.Contents.{walk_of};
ghost use Rattle.walk.specs.Walks.{held};
ghost use Rattle.walkapi.specs.Codes.{code, verdict, all_noted, codes_after};

use capi::Outcome;
use fault::Fault;
use kind::Block;
use layout::Entry;
use poly::{Short, Wide};

// The number of a sector: its key number, or 255 where it is blank.
// Kept: a number with 255 for blank, since C reads it, and a function, since a `From` would be between two types of other crates.
fn code_of(entry: Entry<'_>) -> u64
    ensures { result ≡ code (held entry.entry) }
{
    match entry {
        Entry::Blank => 255,
        Entry::Sealed { key, .. } => key as u64,
    }
}

// The refusal of a walk over a whole image, or none.
fn check_walk<K: Block>(image: &[u8]) -> Result<(), Fault>
    ensures { result ≡ verdict (walk_of K.ops.size image.now) }
{
    for entry in walk::walk::<K>(image)? {
        entry?;
    }
    Ok(())
}

// Puts the number of each sector in its place, where there is one, up to a refusal.
fn note_walk<K: Block>(image: &[u8], codes: &mut [u64]) -> Result<(), Fault>
    ensures answers { result ≡ verdict (walk_of K.ops.size image.now) }
    ensures leaves { OnOk result (codes.new ≡ all_noted codes.old (walk_of K.ops.size image.now)) }
{
    for (sector, entry) in walk::walk::<K>(image)?.enumerate() {
        let code = code_of(entry?);
        // Kept: tried: an index, since `get_mut` of a slice, and `iter_mut` under a `zip`, tell a proof nothing of the elements that are written.
        if sector < codes.len() {
            codes[sector] = code;
        }
    }
    Ok(())
}

// Puts the number of each sector in its place if the walk of the whole image is not refused, and else leaves every place.
fn walk_by<K: Block>(image: &[u8], codes: &mut [u64]) -> Result<(), Fault>
    ensures answers { result ≡ verdict (walk_of K.ops.size image.now) }
    ensures leaves { codes.new ≡ codes_after codes.old (walk_of K.ops.size image.now) }
{
    check_walk::<K>(image)?;
    note_walk::<K>(image, codes)
}

// Kept: the exports are the C interface, which has a function for each kind.

// Walks an image of the wide kind, with no key: the number of each sector, its key or 255 where it is blank, goes to its place, as far as there are places.
// Refuses 2, 3, then 7 (as for a ring of eight) and 8 sector by sector, and then leaves every place.
#[unsafe(no_mangle)]
pub extern "C" fn cardlock_wide_walk(image: &[u8], codes: &mut [u64]) -> Outcome
    ensures answers { result ≡ outcome (verdict (walk_of 16 image.now)) }
    ensures leaves { codes.new ≡ codes_after codes.old (walk_of 16 image.now) }
{
    Outcome::from(walk_by::<Wide>(image, codes))
}

// Walks an image of the short kind, with no key, as `cardlock_wide_walk` does.
#[unsafe(no_mangle)]
pub extern "C" fn cardlock_short_walk(image: &[u8], codes: &mut [u64]) -> Outcome
    ensures answers { result ≡ outcome (verdict (walk_of 8 image.now)) }
    ensures leaves { codes.new ≡ codes_after codes.old (walk_of 8 image.now) }
{
    Outcome::from(walk_by::<Short>(image, codes))
}
