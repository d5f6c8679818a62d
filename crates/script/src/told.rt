// The words that tell a call's outcome.
ghost use Rattle.std.specs.Prelude.{◌≡◌, Some};
ghost use Rattle.script.specs.Told.{told, layer_word};

use fault::{Fault, Layer};
use std::fmt;

// An outcome to be told: `accepted`, or `refused` with the number, the layer, the sector and the key where they belong, and what is true then.
#[derive(Clone, Copy)]
pub struct Told {
    pub outcome: Result<(), Fault>,
}

// Kept: one word for each of two cases, told here alone; an `impl Display` in the layers' own crate would be longer.
fn layer_word(layer: Layer) -> &'static str
    ensures { result.now ≡ layer_word layer }
{
    match layer {
        Layer::Sealing => "sealing",
        Layer::Card => "card",
    }
}

impl fmt::Display for Told {
    ghost output = { λ t. Some (told t.outcome) };

    fn fmt<W: fmt::Write>(&self, f: &mut fmt::Formatter<W>) -> fmt::Result {
        let Err(fault) = self.outcome else {
            return f.write_str("accepted");
        };
        let number = fault.number();
        let layer = layer_word(fault.layer());
        let sentence = fault.sentence();
        write!(f, "refused {number} {layer}")?;
        if let Some(sector) = fault.sector() {
            write!(f, " sector {sector}")?;
        }
        if let Some(key) = fault.key() {
            write!(f, " key {key}")?;
        }
        write!(f, ": {sentence}")
    }
}
