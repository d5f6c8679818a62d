// The lock for C: blocks, buffers and cards under keys given as bytes. Every export says by its contract what the layers below say.
#![tactic(auto)]

mod blocks;
mod keyed;
mod outcome;
mod outcomes;
mod sealings;

pub use keyed::{Keyed, whitened_under};
pub use outcome::Outcome;
