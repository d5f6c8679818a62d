// The arithmetic of polynomials over the field of two elements, reduced by a modulus: what a kind of them gives, and its degree, product and
// inverse, written and proved once over the width and the modulus.
#![tactic(auto)]

mod multiplier;
mod poly;

pub use multiplier::Multiplier;
pub use poly::{Poly, degree, inverted};
