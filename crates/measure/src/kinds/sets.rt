// A value of kinds.
ghost use Rattle.std.specs.Prelude.{◌<◌};

/// Bit k of `out` says that a tie of kind k goes out, bit k of `into` that one comes in.
#[derive(Clone, Copy, PartialEq, Eq, Debug)]
pub struct KindSets {
    pub out: u8,
    pub into: u8,
    ghost out_byte: { out < 256 },
    ghost into_byte: { into < 256 },
}
