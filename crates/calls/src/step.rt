// A call as a value, and a step of a list.
ghost use Rattle.std.specs.Prelude.{◌≡◌, Ok};

use fault::Fault;

// A call with its arguments. The buffer of a read comes back in it with the text that was read.
#[derive(Drop)]
pub enum Call {
    Format {
        number: Vec<u8>,
    },
    Open,
    Write {
        sector: usize,
        key: usize,
        text: Vec<u8>,
    },
    Read {
        sector: usize,
        buffer: Vec<u8>,
    },
    Rekey {
        sector: usize,
        key: usize,
    },
    Copy {
        source: usize,
        destination: usize,
    },
    Erase {
        sector: usize,
    },
}

// A call of a list and its outcome, which stands there once the list was run.
// Kept: the outcome stands as accepted until then and is no `Option`, since a list is run at once and in whole, and each reader would unwrap it.
#[derive(Drop)]
pub struct Step {
    pub call: Call,
    pub outcome: Result<(), Fault>,
}

impl Step {
    // The step of a call that is still to be made; its outcome stands as accepted until then.
    pub fn new(call: Call) -> Self
        ensures call { result.call ≡ call }
        ensures outcome { result.outcome ≡ Ok tt }
    {
        Step {
            call,
            outcome: Ok(()),
        }
    }
}
