// Sets of numbers below 64, a bit for each.
ghost use Rattle.std.specs.Prelude.{◌≡◌, ◌<◌};
ghost use Rattle.measure.specs.Bits.{bit};

// Whether k is in the set.
pub(crate) fn has(set: u64, k: u8) -> bool
    requires { k < 64 }
    ensures { result ≡ bit set k }
{
    (set >> k) & 1 == 1
}
