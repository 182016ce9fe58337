// Kinds: which kinds of tie go out, and which come in.
ghost use Rattle.std.specs.Prelude.{Some, codes};
ghost use Rattle.measure.specs.Kinds.{kinds};
ghost use Rattle.measure.specs.KindLaws.{kinds_laws};

use super::interface::Measure;
use super::members::has;
use std::fmt;

/// A value of kinds.
pub mod sets;

use sets::KindSets;

/// Weighs ties by their kinds: a value has the set of kinds that go out to some node, and the set
/// of those that come in from some node.
#[derive(Clone, Copy, Debug)]
pub struct Kinds;

// By hand, since no derive states what is printed.
impl fmt::Display for Kinds {
    ghost output = { λ _. Some (codes "kinds") };

    fn fmt<W: fmt::Write>(&self, f: &mut fmt::Formatter<W>) -> fmt::Result {
        f.write_str("kinds")
    }
}

impl Measure for Kinds {
    type Value = KindSets;

    ghost ops = { kinds };

    ghost lawful = { kinds_laws };

    fn none(&self) -> KindSets {
        KindSets { out: 0, into: 0 }
    }

    fn weigh(&self, out: u8, into: u8) -> KindSets {
        KindSets { out, into }
    }

    fn join(&self, a: KindSets, b: KindSets) -> KindSets {
        KindSets {
            out: a.out | b.out,
            into: a.into | b.into,
        }
    }

    fn same(&self, a: KindSets, b: KindSets) -> bool {
        a == b
    }

    /// Tests 0 to 7 ask for a kind that goes out, 8 to 15 for one that comes in. No other holds.
    fn holds(&self, v: KindSets, t: u8) -> bool {
        match t {
            0..=7 => has(u64::from(v.out), t),
            8..=15 => has(u64::from(v.into), t - 8),
            _ => false,
        }
    }
}
