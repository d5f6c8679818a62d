// A card's manifest as text: which sectors are blank, and which key each sealed one needs. No key is used for it. specs/Lines.antt has the lines' bytes.
#![tactic(auto)]

ghost use Rattle.std.specs.Prelude.{◌≡◌, List, [], ◌++◌, IfOk, string_bytes, OnOk};
ghost use Rattle.walk.specs.Walks.{held, coming};
ghost use Rattle.listing.specs.Lines.{card_line, sector_line, refusal_line, listed, manifest_of};

use fault::Fault;
use kind::Block;
use layout::Entry;
use std::alloc::Global;
use std::fmt;
use walk::Entries;

// The most bytes of an image that a manifest is made of.
pub const LONGEST_IMAGE: usize = 65536;

// The manifest of a card of this kind: `card 16 sectors 2`, then a line for each sector, `0 blank` or `1 key 3`. Of an image that is refused it is one line, as
// `refused 8 1`: the number and, for 7 and 8, the sector. It refuses 2 for an image of more than 65,536 bytes before anything else, and then as the walk does: 2,
// 3, and 7 or 8 at the first record that has it. The whole image is walked before a line is given out. An `Err` says that there was no memory for the text.
pub fn manifest<K: Block>(heap: Global, image: &[u8]) -> Result<String, fmt::Error>
    ensures { IfOk result (λ text. string_bytes text ≡ manifest_of K.ops.size image.now) }
{
    if image.len() > LONGEST_IMAGE {
        return refusal(heap, Fault::ImageLength);
    }
    match walk::walk::<K>(image) {
        Ok(entries) => list(heap, layout::width::<K>(), entries),
        Err(fault) => refusal(heap, fault),
    }
}

// The manifest of a walk that was begun on a card with blocks of this many bytes.
fn list(heap: Global, width: usize, entries: Entries<'_>) -> Result<String, fmt::Error>
    ensures { IfOk result (λ text. string_bytes text ≡ listed (card_line width entries.entry.count) 0 (coming entries.entry)) }
{
    let mut text = String::new(heap);
    let count = entries.sectors();
    write!(text, "card {width} sectors {count}\n")?;
    for (sector, outcome) in entries.enumerate() {
        match outcome {
            Ok(entry) => add_line(&mut text, sector, entry)?,
            Err(fault) => return refusal(heap, fault),
        }
    }
    Ok(text)
}

// Adds the line of a sector.
fn add_line(text: &mut String, sector: usize, entry: Entry<'_>) -> fmt::Result
    ensures { OnOk result (string_bytes text.new ≡ string_bytes text.old ++ sector_line sector (held entry.entry)) }
{
    match entry {
        Entry::Blank => write!(text, "{sector} blank\n")?,
        Entry::Sealed { key, .. } => write!(text, "{sector} key {key}\n")?,
    }
    Ok(())
}

// The line of a refusal.
fn refusal(heap: Global, fault: Fault) -> Result<String, fmt::Error>
    ensures { IfOk result (λ text. string_bytes text ≡ refusal_line fault) }
{
    let mut text = String::new(heap);
    let number = fault.number();
    match fault.sector() {
        Some(sector) => write!(text, "refused {number} {sector}\n")?,
        None => write!(text, "refused {number}\n")?,
    }
    Ok(text)
}

#[cfg(test)]
mod tests;
