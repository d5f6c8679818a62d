// The product of an element with many others, eight coefficients at a turn, by two tables of sixteen multiples.
ghost use Rattle.std.specs.Prelude.{◌≡◌, ◌+◌, ◌-◌, ◌*◌, ◌/◌, ◌^◌, ◌<◌, slice_index_or};
ghost use Rattle.field.specs.Field.{mul};
ghost use Rattle.field.specs.Window.{raise};
ghost use Rattle.arithmetic.specs.Tables.{Multiples, Ready};

use crate::poly::Poly;

// The multiples of b by the sixteen polynomials of a degree below four.
fn multiples<P: Poly>(b: P) -> [P; 16]
    ensures { Multiples P.width P.modulus P.value (P.value b) result }
{
    let mut all = [P::zero(); 16];
    all[1] = b;
    // Kept: a loop by number, since two entries are made from the one at half their number: an iterator that writes entries can't read that one.
    for i in 1..8usize {
        let even = all[i].doubled();
        all[2 * i] = even;
        all[2 * i + 1] = even.plus(b);
    }
    all
}

// x^4 times b.
#[tactic(auto, unfolding(field::specs::Window::raise))]
fn by_sixteen<P: Poly>(b: P) -> P
    ensures { P.value result ≡ raise P.width P.modulus 4 (P.value b) }
{
    b.doubled().doubled().doubled().doubled()
}

// An element by which many others are multiplied, with its multiples and those of x^4 times it.
#[derive(Drop)]
pub struct Multiplier<P: Poly> {
    of: P,
    low: [P; 16],
    high: [P; 16],
    pub ghost ready: { Ready P.width P.modulus P.value of low high },
}

impl<P: Poly> Multiplier<P> {
    // The tables of b.
    pub fn new(b: P) -> Multiplier<P>
        ensures { result.of ≡ b }
    {
        Multiplier {
            of: b,
            low: multiples(b),
            high: multiples(by_sixteen(b)),
        }
    }

    // The product of a and the element: eight coefficients of a at a turn, the highest first.
    pub fn times(&self, a: P) -> P
        ensures { P.value result ≡ mul P.width P.modulus (P.value a) (P.value self.now.of) }
    {
        let mut sum = P::zero();
        let mut rest = a;
        for _ in 0..P::bytes() {
            let byte = rest.top();
            let multiple = self.high[byte >> 4].plus(self.low[byte & 15]);
            sum = sum.raised().plus(multiple);
            rest = rest.shifted(8);
        }
        sum
    }
}
