// The refusals of a session, with their numbers, their origin and their words.
ghost use Rattle.std.specs.Prelude.{◌≡◌, Some};
ghost use Rattle.session.specs.Faults.{number, origin, said};

use std::error::Error;
use std::fmt;

/// Why a session refuses.
#[derive(Clone, Copy, PartialEq, Eq, Debug)]
pub enum Fault {
    /// A node that is named is not below the number of nodes.
    Node = 3,
    /// A role that is named is not below the number of roles.
    Role = 11,
}

impl Fault {
    pub fn number(self) -> u8
        ensures { result ≡ number self }
    {
        self as u8
    }

    /// The part of the engine that refuses, by its name.
    pub fn origin(self) -> &'static str
        ensures { result.now ≡ origin self }
    {
        "session"
    }
}

impl fmt::Display for Fault {
    ghost output = { λ f. Some (said f) };

    fn fmt<W: fmt::Write>(&self, f: &mut fmt::Formatter<W>) -> fmt::Result {
        f.write_str(match self {
            Fault::Node => "no such node",
            Fault::Role => "no such role",
        })
    }
}

impl Error for Fault {}
