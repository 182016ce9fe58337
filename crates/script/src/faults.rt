// The refusals of a script, with their numbers, their origin and their words.
ghost use Rattle.std.specs.Prelude.{◌≡◌, Some};
ghost use Rattle.script.specs.Faults.{fault_said, number, origin, said};

use std::error::Error;
use std::fmt;

/// Why a record, or a whole script, is refused. What a part below refuses is held as it is.
#[derive(Clone, Copy, PartialEq, Eq, Debug)]
pub enum Reason {
    /// The record has no mark that is known.
    Mark,
    /// The fields are not right in number and form.
    Fields,
    /// The record does not fit the stage.
    Stage,
    /// The script has more than 32,768 bytes.
    Length,
    Network(network::Fault),
    Session(session::faults::Fault),
    Question(question::Fault),
}

impl Reason {
    /// 12 to 15, or the number of the fault below.
    pub fn number(self) -> u8
        ensures { result ≡ number self }
    {
        match self {
            Reason::Mark => 12,
            Reason::Fields => 13,
            Reason::Stage => 14,
            Reason::Length => 15,
            Reason::Network(fault) => fault.number(),
            Reason::Session(fault) => fault.number(),
            Reason::Question(fault) => fault.number(),
        }
    }

    /// The part of the engine that refuses, by its name: the script, or the origin of the fault
    /// below.
    pub fn origin(self) -> &'static str
        ensures { result.now ≡ origin self }
    {
        match self {
            Reason::Network(fault) => fault.origin(),
            Reason::Session(fault) => fault.origin(),
            Reason::Question(fault) => fault.origin(),
            Reason::Mark | Reason::Fields | Reason::Stage | Reason::Length => "script",
        }
    }
}

/// A refusal, and where it comes in the script.
#[derive(Clone, Copy, PartialEq, Eq, Debug)]
pub struct Fault {
    pub reason: Reason,
    /// The number of the record, from 1; 0 where the whole script is refused.
    pub record: usize,
    /// Where in the script the record begins, from 0; 0 where the whole script is refused.
    pub offset: usize,
}

impl Fault {
    /// That of its reason.
    pub fn number(self) -> u8
        ensures { result ≡ number self.reason }
    {
        self.reason.number()
    }

    /// That of its reason.
    pub fn origin(self) -> &'static str
        ensures { result.now ≡ origin self.reason }
    {
        self.reason.origin()
    }
}

impl fmt::Display for Reason {
    ghost output = { λ r. Some (said r) };

    fn fmt<W: fmt::Write>(&self, f: &mut fmt::Formatter<W>) -> fmt::Result {
        match self {
            Reason::Mark => f.write_str("an unknown mark"),
            Reason::Fields => f.write_str("fields that are wrong in number or form"),
            Reason::Stage => f.write_str("a record that does not fit the stage"),
            Reason::Length => f.write_str("a script of more than 32768 bytes"),
            Reason::Network(fault) => write!(f, "{fault}"),
            Reason::Session(fault) => write!(f, "{fault}"),
            Reason::Question(fault) => write!(f, "{fault}"),
        }
    }
}

impl fmt::Display for Fault {
    ghost output = { λ f. Some (fault_said f) };

    fn fmt<W: fmt::Write>(&self, f: &mut fmt::Formatter<W>) -> fmt::Result {
        let Fault {
            reason,
            record,
            offset,
        } = self;
        write!(f, "record {record}, at byte {offset}: {reason}")
    }
}

impl Error for Reason {}

impl Error for Fault {}
