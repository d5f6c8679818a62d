// How a walk is begun.
ghost use Rattle.std.specs.Prelude.{◌≡◌, IfOk};
ghost use Rattle.layout.specs.Layout.{count_of};
ghost use Rattle.walk.specs.Contents.{walk_of};
ghost use Rattle.walk.specs.Walks.{coming, begun, Gives};

use crate::Entries;
use fault::Fault;
use kind::Block;

// Walks over the image of a card of this kind: one entry for each record, from sector 0 on. Refuses 2, 'the image is not a header and 1 to 65,535 records
// long', and then 3, 'the image does not begin with 43 hex and its kind's code'. The walk itself ends at a record that it refuses: 7, 'the mark is neither 00 00
// nor 4B hex with a number below eight', or 8, 'a record marked blank holds a byte other than zero'; both name the sector.
pub fn walk<K: Block>(image: &[u8]) -> Result<Entries<'_>, Fault>
    ensures outcome { begun result ≡ walk_of K.ops.size image.now }
    ensures whole { IfOk result (λ e. Gives e (coming e)) }
    ensures counted { IfOk result (λ e. e.count ≡ count_of K.ops.size image.now) }
{
    let count = layout::check_header::<K>(image)?;
    let records = layout::records::<K>(image).iter().enumerate();
    Ok(Entries { records, count })
}
