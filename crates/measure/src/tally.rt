// Tally: how many ties go out, and how many come in, whatever their kinds.
ghost use Rattle.std.specs.Prelude.{◌≡◌, Some, codes};
ghost use Rattle.measure.specs.Tally.{tally, one_if_tied, capped_sum};
ghost use Rattle.measure.specs.TallyLaws.{tally_laws};

use super::interface::Measure;
use std::fmt;

/// A value of tally.
pub mod counts;

use counts::Counts;

/// Weighs ties by their number, whatever their kinds: a value counts those that go out and those
/// that come in.
#[derive(Clone, Copy, Debug)]
pub struct Tally;

// By hand, since no derive states what is printed.
impl fmt::Display for Tally {
    ghost output = { λ _. Some (codes "tally") };

    fn fmt<W: fmt::Write>(&self, f: &mut fmt::Formatter<W>) -> fmt::Result {
        f.write_str("tally")
    }
}

impl Measure for Tally {
    type Value = Counts;

    ghost ops = { tally };

    ghost lawful = { tally_laws };

    fn none(&self) -> Counts {
        Counts { out: 0, into: 0 }
    }

    // One for a tie that goes out, and one for a tie that comes in.
    fn weigh(&self, out: u8, into: u8) -> Counts {
        Counts {
            out: one_if_tied(out),
            into: one_if_tied(into),
        }
    }

    fn join(&self, a: Counts, b: Counts) -> Counts {
        Counts {
            out: capped_sum(a.out, b.out),
            into: capped_sum(a.into, b.into),
        }
    }

    fn same(&self, a: Counts, b: Counts) -> bool {
        a == b
    }

    /// Tests 0 to 127 ask for more than t ties that go out, tests 128 to 255 for more than t - 128
    /// that come in.
    fn holds(&self, v: Counts, t: u8) -> bool {
        if t < 128 { v.out > t } else { v.into > t - 128 }
    }
}

fn one_if_tied(byte: u8) -> u8
    ensures { result ≡ one_if_tied byte }
{
    byte.min(1)
}

// A network has at most 128 nodes, so a count of them stops at 128.
fn capped_sum(a: u8, b: u8) -> u8
    ensures { result ≡ capped_sum a b }
{
    a.saturating_add(b).min(128)
}
