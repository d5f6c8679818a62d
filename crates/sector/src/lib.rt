// One sector of a card under a ring: the checks that calls begin with, a sector's text read from its record, and its record made from a text.
#![tactic(auto)]

mod card;
mod ring;
mod sealer;
mod sector;

pub use card::Card;
pub use ring::Ring;
pub use sector::Sector;
