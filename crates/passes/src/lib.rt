// What the passes of the sealing mode are made of, written once for every block kind and cipher: the terms of a sealing, what runs along with the
// blocks (a power of R, the masks), and the changes that a pass makes to a buffer of whole blocks, in its place.
#![tactic(auto)]

pub mod changes;
pub mod running;
pub mod steps;
pub mod terms;
pub mod work;

pub use changes::multiply_by_powers;
pub use terms::Terms;
pub use work::Work;
