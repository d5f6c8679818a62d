// The polynomial kinds as kinds of block.
ghost use Rattle.kind.specs.Polynomials.{poly_ops};
ghost use Rattle.kind.specs.PolynomialsLemmas.{poly_laws, size_of};

use crate::block::Block;
use poly::{Field, Poly, inverted};

// Every kind of polynomials is a kind of block.
impl<P: Field> Block for P {
    const BYTES: usize = <P as Field>::BYTES;

    ghost BYTES = { P.BYTES };

    ghost ops = { poly_ops P.width P.modulus P.value P.numbers };

    ghost laws = { let p = P.Poly in poly_laws p.width p.modulus p.value p.field p.numbers };

    ghost sized = { size_of P.BYTES P.Poly.width P.whole };

    fn zero() -> P {
        <P as Poly>::zero()
    }

    fn one() -> P {
        <P as Poly>::one()
    }

    fn numbered(c: u64) -> P {
        <P as Field>::numbered(c)
    }

    fn add(self, other: P) -> P {
        self.plus(other)
    }

    fn times(self, other: P) -> P {
        self.product(other)
    }

    fn times_both(self, a: P, c: P) -> (P, P) {
        self.products(a, c)
    }

    fn double(self) -> P {
        self.doubled()
    }

    fn inverse(self) -> Option<P> {
        inverted(self)
    }

    fn load(from: &[u8]) -> P {
        P::read(from)
    }

    fn store(self, into: &mut [u8]) {
        self.write(into)
    }
}
