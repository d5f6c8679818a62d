// What a kind of polynomials gives, its degree by leading zeros, and its inverse by division.
ghost use Rattle.std.specs.Prelude.{◌≡◌, ℕ, ◌+◌, ◌-◌, ◌*◌, ◌/◌, ◌%◌, ◌^◌, ◌<◌, ◌≤◌, ◌≢◌, MatchOption, bit_xor};
ghost use Rattle.std.specs.Int.Count.{count_leading_zeros};
ghost use Rattle.field.specs.Degree.{Degree};
ghost use Rattle.field.specs.Field.{mul, times_x};
ghost use Rattle.field.specs.Window.{raise};
ghost use Rattle.arithmetic.specs.Descent.{Descent, Division};
ghost use Rattle.arithmetic.specs.Facts.{Modulus, Numbers};

// A kind of polynomials over the field of two elements, of a degree below the kind's width. `value` is an element's number, whose bit i is
// the coefficient of x^i, and the modulus is x^width plus `modulus`, its low terms.
pub trait Poly: Copy {
    ghost width: { ℕ };

    ghost modulus: { ℕ };

    ghost value: { Self → ℕ };

    ghost field: { Modulus width modulus };

    ghost numbers: { Numbers width value };

    // The width in bits.
    // Kept: a function, since a constant would take a ghost member beside it in each kind, which says the width once more.
    fn bits() -> u32
        ensures { result ≡ width };

    // The width in bytes.
    fn bytes() -> u32
        ensures { result * 8 ≡ width }
    {
        Self::bits() / 8
    }

    fn zero() -> Self
        ensures { value result ≡ 0 };

    fn one() -> Self
        ensures { value result ≡ 1 };

    // The modulus without its highest term.
    fn low_terms() -> Self
        ensures { value result ≡ modulus };

    // The sum.
    fn plus(self, other: Self) -> Self
        ensures { value result ≡ bit_xor (value self) (value other) };

    // x times the element.
    fn doubled(self) -> Self
        ensures { value result ≡ times_x width modulus (value self) };

    // x^8 times the element.
    fn raised(self) -> Self
        ensures { value result ≡ raise width modulus 8 (value self) };

    // The eight highest coefficients.
    fn top(self) -> usize
        ensures { result ≡ value self / 2 ^ (width - 8) };

    // How many of the highest coefficients are zero.
    fn zeros(self) -> u32
        ensures { result ≡ count_leading_zeros width (value self) };

    // The coefficients moved up, with no reduction: those that pass the width are lost. Called with less than the width.
    fn shifted(self, by: u32) -> Self
        requires { by < width }
        ensures { value result ≡ value self * 2 ^ by % 2 ^ width };
}

// The degree, the place of the highest one bit; none for zero.
pub fn degree<P: Poly>(a: P) -> Option<u32>
    ensures { MatchOption result (P.value a ≡ 0) (Degree (P.value a)) }
{
    (P::bits() - a.zeros()).checked_sub(1)
}

// An element with its factor: on the way down to the inverse each element is the product of its factor and the one that is inverted. The zeros
// in front of the element, by which degrees are compared, are counted once.
#[derive(Drop)]
struct Multiple<P: Poly> {
    element: P,
    factor: P,
    zeros: u32,
    ghost counted: { zeros ≡ count_leading_zeros P.width (P.value element) },
}

impl<P: Poly> Multiple<P> {
    fn new(element: P, factor: P) -> Multiple<P>
        ensures element { result.element ≡ element }
        ensures factor { result.factor ≡ factor }
    {
        let zeros = element.zeros();
        Multiple {
            element,
            factor,
            zeros,
        }
    }

    // The sum with x^by times the other. Coefficients that pass the width are lost. Called with less than the width.
    fn plus_moved(&self, other: &Multiple<P>, by: u32) -> Multiple<P>
        requires { by < P.width }
        ensures element { P.value result.element ≡ bit_xor (P.value self.now.element) (P.value other.now.element * 2 ^ by % 2 ^ P.width) }
        ensures factor { P.value result.factor ≡ bit_xor (P.value self.now.factor) (P.value other.now.factor * 2 ^ by % 2 ^ P.width) }
    {
        Multiple::new(
            self.element.plus(other.element.shifted(by)),
            self.factor.plus(other.factor.shifted(by)),
        )
    }
}

// What a division by `small` leaves of `left`: `small` is taken away, moved up so that the highest coefficients meet, until the degree is lower
// than that of `small`.
fn remainder<P: Poly>(left: Multiple<P>, small: &Multiple<P>) -> Multiple<P>
    requires divisor { 1 < P.value small.now.element }
    requires division { Division P.width (P.value left.element) (P.value left.factor) (P.value small.now.element) (P.value small.now.factor) }
    ensures descent { Descent P.width (P.value small.now.element) (P.value small.now.factor) (P.value result.element) (P.value result.factor) }
    ensures product { (a : ℕ) → a < 2 ^ P.width → P.value left.element ≡ mul P.width P.modulus (P.value left.factor) a → P.value small.now.element ≡ mul P.width P.modulus (P.value small.now.factor) a → P.value result.element ≡ mul P.width P.modulus (P.value result.factor) a }
{
    let mut rest = left;
    while let Some(by) = small.zeros.checked_sub(rest.zeros) {
        rest = rest.plus_moved(small, by);
    }
    rest
}

// What the division of the modulus leaves. The divisor has a degree of one or more and the factor one; the modulus' factor is zero.
fn modulus_divided<P: Poly>(divisor: &Multiple<P>) -> Multiple<P>
    requires divisor { 1 < P.value divisor.now.element }
    requires factor { P.value divisor.now.factor ≡ 1 }
    ensures descent { Descent P.width (P.value divisor.now.element) (P.value divisor.now.factor) (P.value result.element) (P.value result.factor) }
    ensures product { P.value result.element ≡ mul P.width P.modulus (P.value result.factor) (P.value divisor.now.element) }
{
    let modulus = Multiple::new(P::low_terms(), P::zero());
    remainder(modulus.plus_moved(divisor, divisor.zeros + 1), divisor)
}

// What the division of `big` by `small` leaves.
fn divided<P: Poly>(big: &Multiple<P>, small: &Multiple<P>) -> Multiple<P>
    requires divisor { 1 < P.value small.now.element }
    requires descent { Descent P.width (P.value big.now.element) (P.value big.now.factor) (P.value small.now.element) (P.value small.now.factor) }
    ensures descent { Descent P.width (P.value small.now.element) (P.value small.now.factor) (P.value result.element) (P.value result.factor) }
    ensures product { (a : ℕ) → a < 2 ^ P.width → P.value big.now.element ≡ mul P.width P.modulus (P.value big.now.factor) a → P.value small.now.element ≡ mul P.width P.modulus (P.value small.now.factor) a → P.value result.element ≡ mul P.width P.modulus (P.value result.factor) a }
{
    remainder(big.plus_moved(small, small.zeros - big.zeros), small)
}

// The inverse of a, or none where a is zero: divisions from the modulus and a down to one, whose degree falls at each.
pub fn inverted<P: Poly>(a: P) -> Option<P>
    ensures { MatchOption result (P.value a ≡ 0) (λ b. mul P.width P.modulus (P.value a) (P.value b) ≡ 1) }
{
    if degree(a)? == 0 {
        return Some(a);
    }
    let mut big = Multiple::new(a, P::one());
    let mut small = modulus_divided(&big);
    while degree(small.element) != Some(0) {
        let rest = divided(&big, &small);
        big = small;
        small = rest;
    }
    Some(small.factor)
}
