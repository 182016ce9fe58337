// A value of bundles.
ghost use Rattle.std.specs.Prelude.{◌^◌, ◌<◌};

/// Bit t of `members` says that bundle t is in the set.
#[derive(Clone, Copy, PartialEq, Eq, Debug)]
pub struct BundleSet {
    pub members: u64,
    ghost wide: { members < 2 ^ 64 },
}
