// AES-128 (FIPS 197): a cipher of the wide kind.
#![tactic(auto)]

mod keyed;
mod rounds;
mod schedule;
#[cfg(test)]
mod tests;

pub use keyed::Aes;
