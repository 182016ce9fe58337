// What a measure tells, and the laws it keeps.
ghost use Rattle.std.specs.Prelude.{◌≡◌};
ghost use Rattle.measure.specs.Measures.{Operations, Laws};

/// A way to weigh ties. It has no state: each answer is by the arguments alone.
pub trait Measure {
    /// What a node has with other nodes, as far as the measure tells.
    type Value: Copy;

    ghost ops: { Operations Self.Value };

    /// The value of no ties.
    fn none(&self) -> Self::Value
        ensures { result ≡ ops.none };

    /// The value of one pair: the byte that goes out and the byte that comes in.
    fn weigh(&self, out: u8, into: u8) -> Self::Value
        ensures { result ≡ ops.weigh out into };

    /// Two values together.
    fn join(&self, a: Self::Value, b: Self::Value) -> Self::Value
        ensures { result ≡ ops.join a b };

    /// Whether two values are equal. A method, since a host's values need not compare by `==`.
    fn same(&self, a: Self::Value, b: Self::Value) -> bool
        ensures { result ≡ ops.same a b };

    /// Whether test t holds of the value. A test is a number, 0 to 255: each measure has tests of
    /// its own, and who asks about any measure passes the number on.
    fn holds(&self, v: Self::Value, t: u8) -> bool
        ensures { result ≡ ops.holds v t };

    ghost lawful: { Laws ops };
}
