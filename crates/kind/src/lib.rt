// Block kinds: what a kind of block is, the polynomial kinds, and a buffer of bytes seen as blocks.
#![tactic(auto)]

pub mod block;
pub mod buffer;
pub mod laws;
pub mod pass;
pub mod polys;

pub use block::{Block, MOST_BLOCKS};
pub use buffer::Blocks;
pub use laws::{arithmetic_cases, buffer_laws, inverse_of, kind_laws};
