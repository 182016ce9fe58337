// Totals by the three measures, as they are defined, and the tests of a total.
use super::case::Case;
use std::fmt;

/// The measure by which ties are weighed.
#[derive(Clone, Copy, PartialEq, Eq)]
pub(crate) enum Weighing {
    Kinds,
    Bundles,
    Tally,
}

pub(crate) const WEIGHINGS: [Weighing; 3] = [Weighing::Kinds, Weighing::Bundles, Weighing::Tally];

impl fmt::Display for Weighing {
    fn fmt<W: fmt::Write>(&self, f: &mut fmt::Formatter<W>) -> fmt::Result {
        f.write_str(match self {
            Weighing::Kinds => "kinds",
            Weighing::Bundles => "bundles",
            Weighing::Tally => "tally",
        })
    }
}

/// What a node has with a set of nodes.
#[derive(Clone, Copy, PartialEq, Eq)]
pub(crate) enum Total {
    /// The kinds that go out, and those that come in, a bit for each.
    Kinds(u8, u8),
    /// A bit for each bundle.
    Bundles(u64),
    /// How many ties go out, and how many come in.
    Tally(usize, usize),
}

impl Total {
    fn nothing(weighing: Weighing) -> Total {
        match weighing {
            Weighing::Kinds => Total::Kinds(0, 0),
            Weighing::Bundles => Total::Bundles(0),
            Weighing::Tally => Total::Tally(0, 0),
        }
    }

    /// One node more: the byte to it, and the byte from it.
    fn with(self, to: u8, from: u8) -> Total {
        match self {
            Total::Kinds(out, into) => Total::Kinds(out | to, into | from),
            Total::Bundles(set) => Total::Bundles(set | bundle(to, from)),
            Total::Tally(out, into) => Total::Tally(
                out.saturating_add(usize::from(to > 0)),
                into.saturating_add(usize::from(from > 0)),
            ),
        }
    }

    /// Whether test t holds.
    pub(crate) fn holds(self, t: u8) -> bool {
        match self {
            Total::Kinds(out, _) if t < 8 => has(u64::from(out), t),
            Total::Kinds(_, into) => t < 16 && has(u64::from(into), t.saturating_sub(8)),
            Total::Bundles(set) => t < 64 && has(set, t),
            Total::Tally(out, _) if t < 128 => out > usize::from(t),
            Total::Tally(_, into) => into > usize::from(t.saturating_sub(128)),
        }
    }
}

// Whether a set has member k.
fn has(set: u64, k: u8) -> bool {
    set.checked_shr(u32::from(k))
        .is_some_and(|bits| bits % 2 == 1)
}

// The set of one bundle: the kinds 0 to 2 that go out and that come in. Without any it is empty.
fn bundle(to: u8, from: u8) -> u64 {
    match to % 8 + from % 8 * 8 {
        0 => 0,
        number => 1u64.checked_shl(u32::from(number)).unwrap_or(0),
    }
}

/// The total of x toward the nodes that have this label.
pub(crate) fn total_toward(case: &Case, x: usize, labels: &[u8], label: u8) -> Total {
    let mut total = Total::nothing(case.weighing);
    for (y, &its) in labels.iter().enumerate() {
        if its == label {
            total = total.with(case.book.tie(x, y), case.book.tie(y, x));
        }
    }
    total
}
