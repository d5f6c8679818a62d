// Each outcome of the layers below, as numbers.
ghost use Rattle.std.specs.Prelude.{◌≡◌};
ghost use Rattle.fault.specs.Faults.{fault_sector, fault_key};
ghost use Rattle.capi.specs.Outcomes.{layer_code, places, outcome, sealing_outcome};

use crate::outcome::Outcome;
use fault::{Fault, Layer, SealFault};

// Kept: tried: an impl for each layer's refusals: `impl<E> From<Result<(), E>> for Outcome where Outcome: From<E>` is refused, since the search for its bound comes back to it.

// The outcome of a direct sealing or unsealing.
impl From<Result<(), SealFault>> for Outcome {
    ghost from_gives = { λ sealed result. result ≡ sealing_outcome sealed };

    fn from(sealed: Result<(), SealFault>) -> Outcome {
        match sealed {
            Ok(()) => Outcome::default(),
            Err(fault) => Outcome {
                number: u32::from(fault.number()),
                layer: layer_code(fault.layer()),
                cause: u32::from(fault.cause().is_some()),
                ..Outcome::default()
            },
        }
    }
}

// The outcome of a call on a card.
impl From<Result<(), Fault>> for Outcome {
    ghost from_gives = { λ called result. result ≡ outcome called };

    fn from(called: Result<(), Fault>) -> Outcome {
        match called {
            Ok(()) => Outcome::default(),
            Err(fault) => Outcome {
                number: u32::from(fault.number()),
                layer: layer_code(fault.layer()),
                cause: u32::from(fault.cause().is_some()),
                places: places(fault),
                sector: fault.sector().unwrap_or(0) as u64,
                key: fault.key().unwrap_or(0) as u64,
            },
        }
    }
}

// The layer that refuses.
// Kept: the numbers here, and none on the cases of `Layer`: they are what C reads, and no business of `fault`; a `From` would be between two types of other crates.
fn layer_code(layer: Layer) -> u32
    ensures { result ≡ layer_code layer }
{
    match layer {
        Layer::Sealing => 1,
        Layer::Card => 2,
    }
}

// How many places a refusal names.
fn places(fault: Fault) -> u32
    ensures { result ≡ places (fault_sector fault) (fault_key fault) }
{
    match (fault.sector(), fault.key()) {
        (None, _) => 0,
        (Some(_), None) => 1,
        (Some(_), Some(_)) => 2,
    }
}
