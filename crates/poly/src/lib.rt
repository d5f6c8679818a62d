// The elements of the two kinds: polynomials of 64 coefficients, the short kind, and of 128, the wide kind, with their product and their bytes.
#![tactic(auto)]

mod fields;
mod short;
mod shorts;
mod wide;
mod wides;

pub use arithmetic::{Poly, degree, inverted};
pub use fields::Field;
pub use short::Short;
pub use wide::Wide;
