// The card image as bytes: header, records, marks. Everything here is generic over the block kind, whose block length the header's form depends on,
// and knows no cipher. specs/Layout.antt has the rules; each number of the layout is one constant here and one definition there.
#![tactic(auto)]

ghost use Rattle.std.specs.Prelude.{drop, ◌≡◌, ℕ, ◌+◌, ◌-◌, ◌*◌, ◌/◌, ◌%◌, ◌^◌, ◌<◌, ◌≤◌, true, false, not, List, [], ◌∷◌, ◌++◌, length, replicate, IfOk, if◌then◌else◌, Ok, Err};
ghost use Rattle.fault.specs.declared.Fault.TheVariants.{ImageLength};
ghost use Rattle.layout.specs.Checks.{ruled};
ghost use Rattle.layout.specs.Layout.{mark_length, sector_length, record_length, most_sectors, header_length, kind_code, count_of, is_sized, head_checks, card_number_of, record_start, record_at, records_of, put_record, blank_card, sealed_mark, zeros};
ghost use Rattle.layout.specs.Entries.{Reads, Fitting, Inside};

use fault::Fault;
use kind::Block;

// The bytes of a sector.
pub const SECTOR_LENGTH: usize = 512;

// The bytes of a mark, with which every record begins.
pub const MARK_LENGTH: usize = 2;

// The bytes of a record: a mark and a sector.
pub const RECORD_LENGTH: usize = MARK_LENGTH + SECTOR_LENGTH;

// The most sectors that a card has.
pub const MOST_SECTORS: usize = 65535;

// The most keys that a ring has.
pub const MOST_KEYS: usize = 8;

// The first byte of every card.
pub const MAGIC: u8 = 0x43;

// The card number stands behind the magic byte and the kind's code.
pub const NUMBER_START: usize = 2;

// The mark of a blank record.
pub const BLANK_MARK: [u8; MARK_LENGTH] = [0, 0];

// The first byte of a sealed record's mark; the second is the key number.
pub const SEALED_TAG: u8 = 0x4b;

// The bytes of a block of the kind; no kind has more than 128.
pub fn width<K: Block>() -> usize
    ensures value { result ≡ K.ops.size }
    ensures narrow { result ≤ 128 }
{
    K::size()
}

// The bytes of the header of a card of this kind: magic byte, kind's code, card number.
pub fn header_length<K: Block>() -> usize
    ensures value { result ≡ header_length K.ops.size }
    ensures narrow { result ≤ 130 }
{
    NUMBER_START + width::<K>()
}

// The header's second byte.
// Kept: a byte and no enum of kinds, since it is the byte that the card holds, and it is worked out for every kind.
pub fn kind_code<K: Block>() -> u8
    ensures { result ≡ kind_code K.ops.size }
{
    width::<K>() as u8
}

// How many sectors the image has. Refuses 2, 'the image is not a header and 1 to 65,535 records long'.
pub fn sector_count<K: Block>(image: &[u8]) -> Result<usize, Fault>
    ensures { result ≡ (if not (is_sized K.ops.size image.now) then Err ImageLength else Ok (count_of K.ops.size image.now)) }
{
    let len = image
        .len()
        .checked_sub(header_length::<K>())
        .ok_or(Fault::ImageLength)?;
    let count = len / RECORD_LENGTH;
    if len % RECORD_LENGTH != 0 || count < 1 || count > MOST_SECTORS {
        return Err(Fault::ImageLength);
    }
    Ok(count)
}

// How many sectors the image has, if it begins as a card of this kind. Refuses 2 as `sector_count` does, then 3, 'the image does not begin with 43 hex and the
// kind's code'.
pub fn check_header<K: Block>(image: &[u8]) -> Result<usize, Fault>
    ensures fits { IfOk result (λ n. Fitting K.ops.size image.now n) }
    ensures outcome { result ≡ ruled (head_checks K.ops.size image.now) (count_of K.ops.size image.now) }
{
    let count = sector_count::<K>(image)?;
    if !image.starts_with(&[MAGIC, kind_code::<K>()]) {
        return Err(Fault::BadHeader);
    }
    Ok(count)
}

// The card number of an image that is at least a header long, which is a block of the kind.
pub fn card_number<K: Block>(image: &[u8]) -> K
    requires { header_length K.ops.size ≤ length image.now }
    ensures { K.ops.bytes result ≡ card_number_of K.ops.size image.now }
{
    K::load(&image[NUMBER_START..header_length::<K>()])
}

// Where the record of a sector begins. The caller has tested the sector against the image's count.
pub fn record_start<K: Block>(sector: usize) -> usize
    requires { sector < most_sectors }
    ensures { result ≡ record_start K.ops.size sector }
{
    header_length::<K>() + RECORD_LENGTH * sector
}

// The record of a sector, which lies inside the image.
pub fn record<K: Block>(image: &[u8], sector: usize) -> &[u8; RECORD_LENGTH]
    requires { Inside K.ops.size image.now sector }
    ensures { result.now ≡ record_at K.ops.size image.now sector }
{
    let start = record_start::<K>(sector);
    image[start..start + RECORD_LENGTH].as_array().unwrap()
}

// Writes the record of a sector, which lies inside the image.
pub fn put_record<K: Block>(image: &mut [u8], sector: usize, rec: &[u8; RECORD_LENGTH])
    requires { Inside K.ops.size image.old sector }
    ensures { image.new ≡ put_record K.ops.size image.old sector rec.now }
{
    let start = record_start::<K>(sector);
    image[start..start + RECORD_LENGTH].copy_from_slice(rec);
}

// The records of an image that is at least a header long, in the order of their sectors.
pub fn records<K: Block>(image: &[u8]) -> &[[u8; RECORD_LENGTH]]
    requires { header_length K.ops.size ≤ length image.now }
    ensures { result.now ≡ records_of K.ops.size image.now }
{
    let (records, _) = image[header_length::<K>()..].as_chunks();
    records
}

// Makes the image, of lawful length, the card with this number and only blank sectors.
pub fn clear<K: Block>(image: &mut [u8], number: K)
    requires { is_sized K.ops.size image.old ≡ true }
    ensures { image.new ≡ blank_card K.ops.size (K.ops.bytes number) image.old }
{
    image.fill(0);
    image[0] = MAGIC;
    image[1] = kind_code::<K>();
    number.store(&mut image[NUMBER_START..header_length::<K>()]);
}

// What a record holds: nothing, or a key number and the sealed bytes, which are that part of the record.
#[derive(Clone, Copy)]
pub enum Entry<'a> {
    Blank,
    Sealed {
        key: usize,
        bytes: &'a [u8; SECTOR_LENGTH],
    },
}

// The entry of a whole record, by its mark alone. Refuses 7, 'the mark is neither 00 00 nor 4B hex with a number below the ring's size', for a ring of this
// many keys, and names the sector.
pub fn entry_of(rec: &[u8; RECORD_LENGTH], keys: usize, sector: usize) -> Result<Entry<'_>, Fault>
    ensures { Reads rec.now keys sector result }
{
    match *rec.first_chunk().unwrap() {
        BLANK_MARK => Ok(Entry::Blank),
        [SEALED_TAG, key] if usize::from(key) < keys => Ok(Entry::Sealed {
            key: usize::from(key),
            bytes: behind_mark(rec),
        }),
        _ => Err(Fault::BadMark { sector }),
    }
}

// The bytes of a record behind its mark: the sealed ones, or the zeros of a blank record.
pub fn behind_mark(rec: &[u8; RECORD_LENGTH]) -> &[u8; SECTOR_LENGTH]
    ensures { result.now ≡ drop mark_length rec.now }
{
    rec.last_chunk().unwrap()
}

// The sealed record: the key number's mark, then these bytes.
pub fn sealed_record(key: usize, bytes: &[u8; SECTOR_LENGTH]) -> [u8; RECORD_LENGTH]
    requires { key < 256 }
    ensures { result ≡ sealed_mark key ++ bytes.now }
{
    let mut rec = [0; RECORD_LENGTH];
    rec[0] = SEALED_TAG;
    rec[1] = key as u8;
    rec[MARK_LENGTH..].copy_from_slice(bytes);
    rec
}

// Whether all bytes are zero, as those of a blank record must be.
pub fn all_zero(bytes: &[u8]) -> bool
    ensures { result ≡ zeros bytes.now }
{
    bytes.iter().all(|byte| *byte == 0)
}
