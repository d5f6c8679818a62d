// How a program of this repository ends that cannot go on: its `main` answers with a `Failure`, so its status is 1 and the error's text stands in quotes on
// standard error.
#![tactic(auto)]

ghost use Rattle.std.specs.Prelude.{◌≡◌, IfOk, string_bytes};
ghost use Rattle.anyhow.specs.Error.{error_message};
ghost use Rattle.failure.specs.Printed.{printed};

use std::alloc::{AllocError, Global};
use std::fmt;

// What ends a program: an error's text, or that there was no memory for it.
#[derive(Drop)]
pub struct Failure {
    text: Result<String, AllocError>,
}

impl Failure {
    // The failure that tells this error.
    pub fn new(heap: Global, error: anyhow::Error) -> Failure
        ensures { IfOk result.text (λ text. string_bytes text ≡ error_message error) }
    {
        Failure {
            text: format!(in heap; "{error}"),
        }
    }
}

impl fmt::Debug for Failure {
    ghost debug_output = { λ f. printed f.text };

    fn fmt<W: fmt::Write>(&self, f: &mut fmt::Formatter<W>) -> fmt::Result {
        match &self.text {
            Ok(text) => write!(f, "{text:?}"),
            Err(_) => write!(f, "\"there is no memory\""),
        }
    }
}

#[cfg(test)]
mod tests;
