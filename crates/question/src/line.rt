// A line of a question.
ghost use Rattle.std.specs.Prelude.{◌≡◌, Some};
ghost use Rattle.question.specs.Lines.{claim, earlier};
ghost use Rattle.question.specs.declared.line.Claim.{Claim};

/// As it is handed: a code and operands. An operand that the code has not is not read, and may be
/// anything.
#[derive(Clone, Copy, PartialEq, Eq, Debug, Default)]
pub struct Line {
    /// 0 colour, 1 not, 2 and, 3 tied.
    pub code: u8,
    /// A line that it names: of not, and, tied.
    pub k: usize,
    /// A second one: of and.
    pub l: usize,
    /// The colour of colour, the test of tied.
    pub byte: u8,
}

/// What a line says of a node, with the operands that its code has.
#[derive(Clone, Copy, PartialEq, Eq, Debug)]
pub enum Claim {
    /// It has the colour.
    Colour(u8),
    /// The line is false of it.
    Not(usize),
    /// Both lines are true of it.
    And(usize, usize),
    /// Its total toward the nodes that the line is true of holds the test.
    Tied(usize, u8),
}

impl Line {
    /// True of the nodes of colour c. As in the other makers, operands that the code has not are 0.
    pub fn colour(c: u8) -> Line
        ensures line { result ≡ record { code = 0; k = 0; l = 0; byte = c } }
        ensures claim { claim result ≡ Some (Claim.Colour c) }
    {
        Line {
            code: 0,
            byte: c,
            ..Line::default()
        }
    }

    /// True of the nodes that line k is false of.
    pub fn not(k: usize) -> Line
        ensures line { result ≡ record { code = 1; k = k; l = 0; byte = 0 } }
        ensures claim { claim result ≡ Some (Claim.Not k) }
    {
        Line {
            code: 1,
            k,
            ..Line::default()
        }
    }

    /// True of the nodes that lines k and l are both true of.
    pub fn and(k: usize, l: usize) -> Line
        ensures line { result ≡ record { code = 2; k = k; l = l; byte = 0 } }
        ensures claim { claim result ≡ Some (Claim.And k l) }
    {
        Line {
            code: 2,
            k,
            l,
            ..Line::default()
        }
    }

    /// True of the nodes whose total toward those of line k holds test t, by the session's measure.
    pub fn tied(k: usize, t: u8) -> Line
        ensures line { result ≡ record { code = 3; k = k; l = 0; byte = t } }
        ensures claim { claim result ≡ Some (Claim.Tied k t) }
    {
        Line {
            code: 3,
            k,
            byte: t,
            ..Line::default()
        }
    }

    /// What the line claims; none where its code is unknown.
    pub fn claim(self) -> Option<Claim>
        ensures { result ≡ claim self }
    {
        match self.code {
            0 => Some(Claim::Colour(self.byte)),
            1 => Some(Claim::Not(self.k)),
            2 => Some(Claim::And(self.k, self.l)),
            3 => Some(Claim::Tied(self.k, self.byte)),
            _ => None,
        }
    }
}

impl Claim {
    // Whether each line that it names is before line `at`.
    pub(crate) fn is_after(self, at: usize) -> bool
        ensures { result ≡ earlier at self }
    {
        match self {
            Claim::Colour(_) => true,
            Claim::Not(k) | Claim::Tied(k, _) => k < at,
            Claim::And(k, l) => k < at && l < at,
        }
    }
}
