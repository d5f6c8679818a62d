// The short kind's arithmetic, on one word.
ghost use Rattle.std.specs.Prelude.{◌-◌, ◌*◌, ◌/◌, ◌^◌, ◌<◌, ◌≡◌};
ghost use Rattle.field.specs.Field.{short_terms};
ghost use Rattle.poly.specs.Shorts.{short_field, short_numbers};

use crate::short::Short;
use arithmetic::Poly;

// The word as a polynomial.
impl From<u64> for Short {
    ghost from_gives = { λ n s. s.word ≡ n };

    fn from(word: u64) -> Short {
        Short { word }
    }
}

// The polynomial as its word.
impl From<Short> for u64 {
    ghost from_gives = { λ s n. n ≡ s.word };

    fn from(element: Short) -> u64 {
        element.word
    }
}

// Kept: an impl for each kind, with the same lines over `u64` here and `u128` in wides.rt: no trait of the library has the shifts, sums and leading zeros of both, and a trait of our own for them would have the same lines twice.
impl Poly for Short {
    ghost width = { 64 };

    ghost modulus = { short_terms };

    ghost value = { λ s. s.word };

    ghost field = { short_field };

    ghost numbers = { short_numbers };

    fn bits() -> u32 {
        64
    }

    fn raised(self) -> Short {
        let out = self.word >> 56;
        Short {
            word: (self.word << 8) ^ (out ^ (out << 1) ^ (out << 3) ^ (out << 4)),
        }
    }

    fn top(self) -> usize {
        (self.word >> 56) as usize
    }

    fn zero() -> Short {
        Short { word: 0 }
    }

    fn plus(self, other: Short) -> Short {
        Short {
            word: self.word ^ other.word,
        }
    }

    fn doubled(self) -> Short {
        Short {
            word: (self.word << 1) ^ ((self.word >> 63) * 0x1b),
        }
    }

    fn one() -> Short {
        Short { word: 1 }
    }

    fn low_terms() -> Short {
        Short {
            word: field::short_low_terms(),
        }
    }

    fn zeros(self) -> u32 {
        self.word.leading_zeros()
    }

    fn shifted(self, by: u32) -> Short {
        Short {
            word: self.word << by,
        }
    }
}
