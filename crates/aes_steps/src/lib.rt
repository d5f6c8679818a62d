// The steps of a round of AES (FIPS 197) on the state of 16 bytes, and their inverses.
// The state holds four columns of four rows, one column after the other.
#![tactic(auto)]

mod factors;
mod sbox;
mod steps;

pub use sbox::{inv_s_box, s_box};
pub use steps::{
    inv_mix_columns, inv_shift_rows, inv_sub_bytes, mix_columns, shift_rows, sub_bytes,
};
