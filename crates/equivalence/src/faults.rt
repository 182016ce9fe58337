// The refusals of the vet, with their numbers, their origin and their words.
ghost use Rattle.std.specs.Prelude.{◌≡◌, Some};
ghost use Rattle.equivalence.specs.Faults.{number, origin, said};

use std::error::Error;
use std::fmt;

/// Why the vet refuses.
#[derive(Clone, Copy, PartialEq, Eq, Debug)]
pub enum Fault {
    /// The table has not one byte for each node.
    Length = 10,
}

impl Fault {
    pub fn number(self) -> u8
        ensures { result ≡ number self }
    {
        self as u8
    }

    /// The part of the engine that refuses, by its name.
    pub fn origin(self) -> &'static str
        ensures { result.now ≡ origin self }
    {
        "vet"
    }
}

impl fmt::Display for Fault {
    ghost output = { λ f. Some (said f) };

    fn fmt<W: fmt::Write>(&self, f: &mut fmt::Formatter<W>) -> fmt::Result {
        match self {
            Fault::Length => f.write_str("not one byte for each node"),
        }
    }
}

impl Error for Fault {}
