// Bundles: which combinations of kinds 0 to 2, out and in together, there are with a single node.
ghost use Rattle.std.specs.Prelude.{◌≡◌, Some, codes};
ghost use Rattle.measure.specs.Bundles.{bundles, bundle};
ghost use Rattle.measure.specs.BundleLaws.{bundles_laws};

use super::interface::Measure;
use super::members::has;
use std::fmt;

/// A value of bundles.
pub mod set;

use set::BundleSet;

/// Weighs ties by bundles: a value has the combinations of kinds 0 to 2, out and in together, that
/// there are with a single node. Kinds 3 to 7 count for nothing.
#[derive(Clone, Copy, Debug)]
pub struct Bundles;

// By hand, since no derive states what is printed.
impl fmt::Display for Bundles {
    ghost output = { λ _. Some (codes "bundles") };

    fn fmt<W: fmt::Write>(&self, f: &mut fmt::Formatter<W>) -> fmt::Result {
        f.write_str("bundles")
    }
}

impl Measure for Bundles {
    type Value = BundleSet;

    ghost ops = { bundles };

    ghost lawful = { bundles_laws };

    fn none(&self) -> BundleSet {
        BundleSet { members: 0 }
    }

    // The set of the pair's own bundle, empty where no kind goes out or comes in.
    fn weigh(&self, out: u8, into: u8) -> BundleSet {
        match bundle(out, into) {
            0 => self.none(),
            number => BundleSet {
                members: 1 << number,
            },
        }
    }

    fn join(&self, a: BundleSet, b: BundleSet) -> BundleSet {
        BundleSet {
            members: a.members | b.members,
        }
    }

    fn same(&self, a: BundleSet, b: BundleSet) -> bool {
        a == b
    }

    /// Test t up to 63 asks for bundle t. No other holds.
    fn holds(&self, v: BundleSet, t: u8) -> bool {
        t < 64 && has(v.members, t)
    }
}

// The number of a bundle: bits 0 to 2 are the kinds that go out, bits 3 to 5 those that come in.
fn bundle(out: u8, into: u8) -> u8
    ensures { result ≡ bundle out into }
{
    out % 8 + 8 * (into % 8)
}
