// What each layer refuses. A refusal has a number from 1 to 14, a sentence that is true when it comes, and a layer; on its way up the card adds the sector
// and the key number, and the cause stays with it. specs/Faults.antt gives all of these for every case.
#![tactic(auto)]

ghost use Rattle.std.specs.Prelude.{◌≡◌, ℕ, Some};
ghost use Rattle.fault.specs.Faults.{seal_number, seal_sentence, seal_cause, direct_layer, fault_number, fault_sentence, fault_layer, fault_sector, fault_key, fault_cause, fault_text, placed};

use std::fmt;

// Zero has no inverse: what a block kind answers, and the cause of a dead tweak's refusal.
#[derive(Clone, Copy, PartialEq, Eq, Debug)]
pub struct NoInverse;

// What sealing refuses.
#[derive(Clone, Copy, PartialEq, Eq, Debug)]
pub enum SealFault {
    // 10: the tweak is not one block long.
    TweakLength,
    // 11: the buffer is not one or more whole blocks.
    NotWholeBlocks,
    // 12: the buffer has more than 64 blocks.
    TooManyBlocks,
    // 13: there are two blocks or more and the tweak is dead: it enciphers to zero, which has no inverse.
    DeadTweak { cause: NoInverse },
    // 14: a pass got a buffer of another length than was begun.
    OtherLength,
}

// Where a refusal arises.
#[derive(Clone, Copy, PartialEq, Eq, Debug)]
pub enum Layer {
    Sealing,
    Card,
}

// What a call on a card refuses.
#[derive(Clone, Copy, PartialEq, Eq, Debug)]
pub enum Fault {
    // 1: the ring has no cipher or more than eight.
    RingSize,
    // 2: the image is not a header and 1 to 65,535 records long.
    ImageLength,
    // 3: the image does not begin with 43 hex and its kind's code.
    BadHeader,
    // 4: the card has no sector of this number.
    NoSector {
        sector: usize,
    },
    // 5: the key number that the caller gave is not below the ring's size.
    NoKey,
    // 6: the text or the reading buffer is not 512 bytes long.
    TextLength,
    // 7: the sector's mark is neither 00 00 nor 4B hex with a number below the ring's size.
    BadMark {
        sector: usize,
    },
    // 8: the sector's record is marked blank and holds a byte other than zero.
    BlankNotZero {
        sector: usize,
    },
    // 9: the sector is blank.
    BlankSector {
        sector: usize,
    },
    // 10, at format: the card number is not one block long.
    CardNumberLength,
    // A refusal of sealing, with the sector and the key number that the card adds. Of these only 13 comes up from a card.
    Seal {
        fault: SealFault,
        sector: usize,
        key: usize,
    },
}

// Kept: `number`, `sentence`, `layer` and `cause` on each of the two types: a trait for two types would state each of the four clauses a third time.

impl SealFault {
    // The number of the refusal, 10 to 14.
    pub fn number(self) -> u8
        ensures { result ≡ seal_number self }
    {
        match self {
            SealFault::TweakLength => 10,
            SealFault::NotWholeBlocks => 11,
            SealFault::TooManyBlocks => 12,
            SealFault::DeadTweak { .. } => 13,
            SealFault::OtherLength => 14,
        }
    }

    // What is true when the refusal comes.
    pub fn sentence(self) -> &'static str
        ensures { result.now ≡ seal_sentence self }
    {
        match self {
            SealFault::TweakLength => "the tweak or the card number is not one block long",
            SealFault::NotWholeBlocks => "the buffer is not one or more whole blocks",
            SealFault::TooManyBlocks => "the buffer has more than 64 blocks",
            SealFault::DeadTweak { .. } =>
                "there are two blocks or more and the tweak enciphers to zero",
            SealFault::OtherLength => "the buffer has another length than was begun",
        }
    }

    // The layer of a refusal that a direct call on sealing gives: sealing, whatever the number.
    pub fn layer(self) -> Layer
        ensures { result ≡ direct_layer self }
    {
        Layer::Sealing
    }

    // What the block kind said, for a dead tweak.
    pub fn cause(self) -> Option<NoInverse>
        ensures { result ≡ seal_cause self }
    {
        match self {
            SealFault::DeadTweak { cause } => Some(cause),
            _ => None,
        }
    }
}

impl Fault {
    // The number of the refusal, 1 to 14.
    pub fn number(self) -> u8
        ensures { result ≡ fault_number self }
    {
        match self {
            Fault::RingSize => 1,
            Fault::ImageLength => 2,
            Fault::BadHeader => 3,
            Fault::NoSector { .. } => 4,
            Fault::NoKey => 5,
            Fault::TextLength => 6,
            Fault::BadMark { .. } => 7,
            Fault::BlankNotZero { .. } => 8,
            Fault::BlankSector { .. } => 9,
            Fault::CardNumberLength => 10,
            Fault::Seal { fault, .. } => fault.number(),
        }
    }

    // What is true when the refusal comes.
    pub fn sentence(self) -> &'static str
        ensures { result.now ≡ fault_sentence self }
    {
        match self {
            Fault::RingSize => "the ring has no cipher or more than eight",
            Fault::ImageLength => "the image is not a header and 1 to 65535 records long",
            Fault::BadHeader => "the image does not begin with 43 hex and its kind's code",
            Fault::NoSector { .. } => "the card has no sector of this number",
            Fault::NoKey => "the key number is not below the ring's size",
            Fault::TextLength => "the text or the reading buffer is not 512 bytes long",
            Fault::BadMark { .. } =>
                "the mark is neither a blank one nor that of a key on the ring",
            Fault::BlankNotZero { .. } => "a record marked blank holds a byte other than zero",
            Fault::BlankSector { .. } => "the sector is blank",
            Fault::CardNumberLength => SealFault::TweakLength.sentence(),
            Fault::Seal { fault, .. } => fault.sentence(),
        }
    }

    // The layer that refuses: sealing for 11 to 14, the card for the rest.
    pub fn layer(self) -> Layer
        ensures { result ≡ fault_layer self }
    {
        match self {
            Fault::Seal {
                fault: SealFault::TweakLength,
                ..
            } => Layer::Card,
            Fault::Seal { .. } => Layer::Sealing,
            _ => Layer::Card,
        }
    }

    // The sector that the refusal names.
    pub fn sector(self) -> Option<usize>
        ensures { result ≡ fault_sector self }
    {
        match self {
            Fault::NoSector { sector }
            | Fault::BadMark { sector }
            | Fault::BlankNotZero { sector }
            | Fault::BlankSector { sector }
            | Fault::Seal { sector, .. } => Some(sector),
            _ => None,
        }
    }

    // The key number that the refusal names.
    pub fn key(self) -> Option<usize>
        ensures { result ≡ fault_key self }
    {
        if let Fault::Seal { key, .. } = self {
            Some(key)
        } else {
            None
        }
    }

    // What the block kind said, for a dead tweak.
    pub fn cause(self) -> Option<NoInverse>
        ensures { result ≡ fault_cause self }
    {
        if let Fault::Seal { fault, .. } = self {
            fault.cause()
        } else {
            None
        }
    }
}

// A refusal as text, with its number, its place and its sentence.
impl fmt::Display for Fault {
    ghost output = { λ f. Some (fault_text f) };

    fn fmt<W: fmt::Write>(&self, f: &mut fmt::Formatter<W>) -> fmt::Result {
        let number = self.number();
        let sentence = self.sentence();
        match (self.sector(), self.key()) {
            (None, _) => write!(f, "refusal {number}: {sentence}"),
            (Some(sector), None) => write!(f, "refusal {number}, sector {sector}: {sentence}"),
            (Some(sector), Some(key)) => write!(
                f,
                "refusal {number}, sector {sector}, key {key}: {sentence}"
            ),
        }
    }
}

// The place that the card adds to an outcome of sealing: `seal(..).at(sector, key)?`.
// Kept: a trait of its own, since `From` sees the refusal alone, and not the place where it arose.
pub trait At<T> {
    fn at(self, sector: usize, key: usize) -> Result<T, Fault>;
}

impl<T> At<T> for Result<T, SealFault> {
    fn at(self, sector: usize, key: usize) -> Result<T, Fault>
        ensures { result ≡ placed self sector key }
    {
        self.map_err(|fault| Fault::Seal { fault, sector, key })
    }
}
