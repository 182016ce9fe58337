// The refusals of a question, with their numbers, origin and line.
ghost use Rattle.std.specs.Prelude.{◌≡◌, Some};
ghost use Rattle.question.specs.Faults.{number, origin, line_of, said};

use std::error::Error;
use std::fmt;

/// Why a question is refused.
#[derive(Clone, Copy, PartialEq, Eq, Debug)]
pub enum Fault {
    /// There are not 1 to 32 lines.
    Lines,
    /// The code of this line is unknown.
    Code(usize),
    /// This line names a line that is not earlier.
    Later(usize),
    /// The handed area has not a byte for each line and column.
    Area,
}

impl Fault {
    pub fn number(self) -> u8
        ensures { result ≡ number self }
    {
        match self {
            Fault::Lines => 6,
            Fault::Code(_) => 7,
            Fault::Later(_) => 8,
            Fault::Area => 9,
        }
    }

    /// The part of the engine that refuses, by its name.
    pub fn origin(self) -> &'static str
        ensures { result.now ≡ origin self }
    {
        "question"
    }

    /// The line that is refused, where it is one.
    pub fn line(self) -> Option<usize>
        ensures { result ≡ line_of self }
    {
        match self {
            Fault::Code(line) | Fault::Later(line) => Some(line),
            Fault::Lines | Fault::Area => None,
        }
    }
}

impl fmt::Display for Fault {
    ghost output = { λ f. Some (said f) };

    fn fmt<W: fmt::Write>(&self, f: &mut fmt::Formatter<W>) -> fmt::Result {
        match self {
            Fault::Lines => f.write_str("not 1 to 32 lines"),
            Fault::Code(line) => write!(f, "an unknown code at line {line}"),
            Fault::Later(line) => write!(f, "a line that is not earlier, at line {line}"),
            Fault::Area => f.write_str("too small an area"),
        }
    }
}

impl Error for Fault {}
