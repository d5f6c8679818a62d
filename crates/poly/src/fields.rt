// The product in each kind, and the elements as strings of bytes.
ghost use Rattle.std.specs.Prelude.{◌*◌, length, ◌≡◌, ℕ, refl};
ghost use Rattle.field.specs.Bytes.{number, bytes};
ghost use Rattle.field.specs.Field.{mul};

use crate::short::Short;
use crate::wide::Wide;
use arithmetic::{Multiplier, Poly};

// A kind of polynomials with its product and its bytes.
pub trait Field: Poly {
    // The bytes of an element.
    const BYTES: usize;

    ghost BYTES: { ℕ };

    // The constant BYTES.
    fn size() -> usize
        ensures { result * 8 ≡ Self.width }
    {
        Self::BYTES
    }

    // The element whose number is n.
    fn numbered(n: u64) -> Self
        ensures { Self.value result ≡ n };

    // Kept: each kind's own, by the same lines over its type of number: no trait has `from_be_bytes` and `to_be_bytes`.

    // The element whose coefficients are the bits of the bytes, the highest first. Called with just the bytes of one element.
    fn read(from: &[u8]) -> Self
        requires { length from.now * 8 ≡ Self.width }
        ensures { Self.value result ≡ number from.now };

    // Writes the element's bytes over `into`. Called with just the bytes of one element.
    fn write(self, into: &mut [u8])
        requires { length into.old * 8 ≡ Self.width }
        ensures { into.new ≡ bytes (length into.old) (Self.value self) };

    // Kept: each kind's own, by the same lines: a default method would owe that its tables find room in memory, which no bound says of `Self`.

    // The product.
    fn product(self, other: Self) -> Self
        ensures { Self.value result ≡ mul Self.width Self.modulus (Self.value self) (Self.value other) };

    // The products of one element with two others, which share its tables.
    fn products(self, a: Self, c: Self) -> (Self, Self)
        ensures first { Self.value result.0 ≡ mul Self.width Self.modulus (Self.value a) (Self.value self) }
        ensures second { Self.value result.1 ≡ mul Self.width Self.modulus (Self.value c) (Self.value self) };

    ghost whole: { BYTES * 8 ≡ Self.width };
}

impl Field for Short {
    const BYTES: usize = 8;

    ghost BYTES = { 8 };

    ghost whole = { refl };

    fn numbered(n: u64) -> Short {
        Short::from(n)
    }

    fn read(from: &[u8]) -> Short {
        Short::from(u64::from_be_bytes(from.try_into().unwrap()))
    }

    fn write(self, into: &mut [u8]) {
        into.copy_from_slice(&self.word.to_be_bytes());
    }

    fn product(self, other: Short) -> Short {
        Multiplier::new(other).times(self)
    }

    fn products(self, a: Short, c: Short) -> (Short, Short) {
        let tables = Multiplier::new(self);
        (tables.times(a), tables.times(c))
    }
}

impl Field for Wide {
    const BYTES: usize = 16;

    ghost BYTES = { 16 };

    ghost whole = { refl };

    fn numbered(n: u64) -> Wide {
        Wide { high: 0, low: n }
    }

    fn read(from: &[u8]) -> Wide {
        // Kept: the places written out, so that an edit can take one byte's place for another's, as none can in `try_into`.
        Wide::from(u128::from_be_bytes([
            from[0], from[1], from[2], from[3], from[4], from[5], from[6], from[7], from[8],
            from[9], from[10], from[11], from[12], from[13], from[14], from[15],
        ]))
    }

    fn write(self, into: &mut [u8]) {
        into.copy_from_slice(&u128::from(self).to_be_bytes());
    }

    fn product(self, other: Wide) -> Wide {
        Multiplier::new(other).times(self)
    }

    fn products(self, a: Wide, c: Wide) -> (Wide, Wide) {
        let tables = Multiplier::new(self);
        (tables.times(a), tables.times(c))
    }
}
