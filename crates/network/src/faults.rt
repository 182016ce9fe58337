// The refusals of a network: their numbers, their origin and their words.
ghost use Rattle.std.specs.Prelude.{◌≡◌, Some};
ghost use Rattle.network.specs.Faults.{number, origin, said};

use std::error::Error;
use std::fmt;

/// Why a network refuses.
#[derive(Clone, Copy, PartialEq, Eq, Debug)]
pub enum Fault {
    /// There are not 1 to 128 nodes, or a side has none.
    Size = 1,
    /// The memory handed to the making is too short, or has more than 1,024 slots.
    Memory = 2,
    /// A node that is named is not below the number of nodes.
    Node = 3,
    /// The pair is not allowed.
    Pair = 4,
    /// The byte is not 0, the pair is untied, and as many pairs are tied as the cap allows.
    Full = 5,
}

impl Fault {
    pub fn number(self) -> u8
        ensures { result ≡ number self }
    {
        self as u8
    }

    /// The part of the engine that refuses, by its name: the network.
    pub fn origin(self) -> &'static str
        ensures { result.now ≡ origin self }
    {
        "network"
    }
}

impl fmt::Display for Fault {
    ghost output = { λ f. Some (said f) };

    fn fmt<W: fmt::Write>(&self, f: &mut fmt::Formatter<W>) -> fmt::Result {
        f.write_str(match self {
            Fault::Size => "not 1 to 128 nodes, or a side without nodes",
            Fault::Memory => "too little memory, or more than 1,024 slots",
            Fault::Node => "no such node",
            Fault::Pair => "a pair that is not allowed",
            Fault::Full => "as many tied pairs as the cap allows",
        })
    }
}

impl Error for Fault {}
