// The sealing mode, PEP, written once for every block kind and cipher: direct sealing and unsealing of a caller's buffer in its place.
// specs/Mode.antt has the rules, the refusals in their order and what is promised; specs/Texts.antt what a card needs of it.
#![tactic(auto)]

pub mod blocks;
pub mod calls;
pub mod texts;

pub use calls::{prepare, seal, unseal};
pub use texts::seals_texts;
