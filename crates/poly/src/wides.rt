// The wide kind's arithmetic, on two words.
ghost use Rattle.std.specs.Prelude.{◌+◌, ◌-◌, ◌*◌, ◌/◌, ◌^◌, ◌<◌, ◌≡◌};
ghost use Rattle.field.specs.Field.{wide_terms};
ghost use Rattle.poly.specs.Wides.{wide_field, wide_numbers, number};

use crate::wide::Wide;
use arithmetic::Poly;

// The polynomial as its number.
impl From<Wide> for u128 {
    ghost from_gives = { λ w n. n ≡ number w };

    fn from(w: Wide) -> u128 {
        ((w.high as u128) << 64) + w.low as u128
    }
}

// The number as a polynomial of two words.
impl From<u128> for Wide {
    ghost from_gives = { λ n w. number w ≡ n };

    fn from(n: u128) -> Wide {
        Wide {
            high: (n >> 64) as u64,
            low: (n & 0xffff_ffff_ffff_ffff) as u64,
        }
    }
}

// Kept: an impl for each kind, with the same lines over `u128` here and `u64` in shorts.rt: no trait of the library has the shifts, sums and leading zeros of both, and a trait of our own for them would have the same lines twice.
impl Poly for Wide {
    ghost width = { 128 };

    ghost modulus = { wide_terms };

    ghost value = { number };

    ghost field = { wide_field };

    ghost numbers = { wide_numbers };

    fn bits() -> u32 {
        128
    }

    fn raised(self) -> Wide {
        let number = u128::from(self);
        let out = number >> 120;
        Wide::from((number << 8) ^ (out ^ (out << 1) ^ (out << 2) ^ (out << 7)))
    }

    fn top(self) -> usize {
        (self.high >> 56) as usize
    }

    fn zero() -> Wide {
        Wide { high: 0, low: 0 }
    }

    fn plus(self, other: Wide) -> Wide {
        Wide::from(u128::from(self) ^ u128::from(other))
    }

    fn doubled(self) -> Wide {
        let number = u128::from(self);
        Wide::from((number << 1) ^ ((number >> 127) * 0x87))
    }

    fn one() -> Wide {
        Wide { high: 0, low: 1 }
    }

    fn low_terms() -> Wide {
        Wide {
            high: 0,
            low: field::wide_low_terms(),
        }
    }

    fn zeros(self) -> u32 {
        if self.high == 0 {
            64 + self.low.leading_zeros()
        } else {
            self.high.leading_zeros()
        }
    }

    fn shifted(self, by: u32) -> Wide {
        Wide::from(u128::from(self) << by)
    }
}
