// The records of a card image, one after another, as entries that borrow from the image. Whoever holds the card needs no key for it.
#![tactic(auto)]

ghost use Rattle.std.specs.Prelude.{◌≡◌, ◌+◌, ◌≤◌, length};
ghost use Rattle.std.specs.Iterator.{at_most};
ghost use Rattle.std.specs.Iterator.Adapters.{enumerate_source, enumerate_count};
ghost use Rattle.std.specs.Slice.Iter.{iter_rest};
ghost use Rattle.layout.specs.Layout.{most_sectors};

use crate::record::accept;
use fault::Fault;
use layout::{Entry, RECORD_LENGTH};
use std::iter::Enumerate;
use std::slice::Iter;

mod begin;
mod record;

pub use begin::walk;

// A walk over the records of an image.
#[derive(Drop)]
pub struct Entries<'a> {
    // The records that are still to come, each with its sector.
    records: Enumerate<Iter<'a, [u8; RECORD_LENGTH]>>,
    // How many sectors the card has.
    count: usize,
    // A card has no more sectors than this, and the records to come are of its sectors.
    pub ghost few: { count ≤ most_sectors },
    pub ghost within: { enumerate_count records + length (iter_rest (enumerate_source records)) ≤ count },
}

impl Entries<'_> {
    // How many sectors the card has.
    pub fn sectors(&self) -> usize
        ensures { result ≡ self.now.count }
    {
        self.count
    }
}

impl<'a> Iterator for Entries<'a> {
    ghost use Rattle.walk.specs.Walks.{Steps};

    type Item = Result<Entry<'a>, Fault>;

    ghost next_gives = { Steps };

    ghost remaining = { λ e. at_most (length (iter_rest (enumerate_source e.records))) };

    // The entry of the next record, or its refusal, after which nothing comes.
    fn next(&mut self) -> Option<Result<Entry<'a>, Fault>> {
        let (sector, record) = self.records.next()?;
        let outcome = accept(record, sector);
        if outcome.is_err() {
            self.records = [].iter().enumerate();
        }
        Some(outcome)
    }
}
