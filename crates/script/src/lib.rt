// Scripts of calls on a card and files of rings: their words, numbers and bytes, and the lines that tell each outcome.
#![tactic(auto)]

mod commands;
mod hex;
mod lines;
mod problems;
mod rings;
mod sizes;
mod told;

pub use commands::{Command, Line, Source, Target, parse_script};
pub use hex::{from_hex, push_hex};
pub use problems::{Problem, Wrong};
pub use rings::{CipherName, Keys, parse_ring};
pub use sizes::{first_length, other_size};
pub use told::Told;
