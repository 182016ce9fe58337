// What a record says.
use question::Line;

/// A record of a script, taken apart. Numbers are at most 65,535, and bytes 255.
#[derive(Clone, Copy)]
pub enum Record<'a> {
    /// `NM n`: a matrix of n nodes.
    Matrix(usize),
    /// `NT a b`: a two-mode network of a nodes on side A and b on side B.
    TwoMode(usize, usize),
    /// `NL n s`: a list of n nodes and s slots.
    Slots(usize, usize),
    /// `MK`: the measure kinds.
    Kinds,
    /// `MB`: the measure bundles.
    Bundles,
    /// `MT`: the measure tally.
    Tally,
    /// `PU i j b`: the tie byte from i to j.
    Put(usize, usize, u8),
    /// `CO i c`: the colour of node i.
    Colour(usize, u8),
    /// `QC c`, `QN k`, `QA k l`, `QT k t`: a line more of the question.
    Question(Line),
    /// `GO`: settle, list and ask.
    Go,
    /// `RM`: the part of the record after its mark.
    Remark(&'a [u8]),
}
