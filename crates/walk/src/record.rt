// What the walk accepts of a record.
ghost use Rattle.std.specs.Prelude.{◌≡◌};
ghost use Rattle.walk.specs.Contents.{outcome_of};
ghost use Rattle.walk.specs.Walks.{seen};

use fault::Fault;
use layout::{Entry, MOST_KEYS, RECORD_LENGTH};

// The entry of a record. Refuses 7, as for a ring of eight, and 8.
pub(crate) fn accept(record: &[u8; RECORD_LENGTH], sector: usize) -> Result<Entry<'_>, Fault>
    ensures { seen result ≡ outcome_of «record».now sector }
{
    let entry = layout::entry_of(record, MOST_KEYS, sector)?;
    if let Entry::Blank = entry
        && !layout::all_zero(layout::behind_mark(record))
    {
        return Err(Fault::BlankNotZero { sector });
    }
    Ok(entry)
}
