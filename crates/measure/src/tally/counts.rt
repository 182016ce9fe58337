// A value of tally.
ghost use Rattle.std.specs.Prelude.{◌≤◌};

/// How many ties go out, and how many come in, each at most 128.
#[derive(Clone, Copy, PartialEq, Eq, Debug)]
pub struct Counts {
    pub out: u8,
    pub into: u8,
    ghost out_few: { out ≤ 128 },
    ghost into_few: { into ≤ 128 },
}
