// The operations of each measure, and its laws, at a few values.
use super::bundles::Bundles;
use super::interface::Measure;
use super::kinds::Kinds;
use super::tally::Tally;
use std::process::Abort;
use std::test::Fail;

// The tests that hold of the value, as bits from test 0 up, 64 to a number.
fn held<M: Measure>(measure: &M, value: M::Value) -> [u64; 4] {
    (0..=255u8)
        .filter(|&t| measure.holds(value, t))
        .fold([0; 4], |mut bits, t| {
            bits[usize::from(t / 64)] |= 1u64 << (t % 64);
            bits
        })
}

// The laws of a measure at three values.
fn lawful<M: Measure>(rt: &impl Abort, m: &M, a: M::Value, b: M::Value, c: M::Value) {
    assert!(rt; m.same(m.join(a, b), m.join(b, a)));
    assert!(rt; m.same(m.join(m.join(a, b), c), m.join(a, m.join(b, c))));
    assert!(rt; m.same(m.join(a, m.none()), a));
    assert!(rt; m.same(m.weigh(0, 0), m.none()));
}

#[test]
fn each_measure_has_its_name(rt: HostRuntime) -> Result<(), Fail> {
    let names = format!(in rt.alloc(); "{Kinds} {Bundles} {Tally}")?;
    assert_eq!(rt; names.as_str(), "kinds bundles tally");
    Ok(())
}

#[test]
fn kinds_join_out_with_out_and_in_with_in(rt: HostRuntime) {
    let both = Kinds.join(Kinds.weigh(1, 6), Kinds.weigh(128, 2));
    assert_eq!(rt; both.out, 129);
    assert_eq!(rt; both.into, 6);
    assert!(rt; Kinds.same(both, Kinds.weigh(129, 6)));
    assert!(rt; !Kinds.same(both, Kinds.weigh(6, 129)));
    lawful(&rt, &Kinds, Kinds.weigh(255, 0), Kinds.weigh(4, 9), both);
}

#[test]
fn kinds_has_sixteen_tests(rt: HostRuntime) {
    assert_eq!(rt; held(&Kinds, Kinds.weigh(129, 6)), [0x0681, 0, 0, 0]);
    assert_eq!(rt; held(&Kinds, Kinds.weigh(255, 255)), [0xffff, 0, 0, 0]);
}

#[test]
fn a_bundle_is_what_there_is_with_one_node(rt: HostRuntime) {
    let apart = Bundles.join(Bundles.weigh(1, 0), Bundles.weigh(0, 1));
    let together = Bundles.weigh(1, 1);
    assert_eq!(rt; apart.members, (1 << 1) | (1 << 8));
    assert_eq!(rt; together.members, 1 << 9);
    assert!(rt; !Bundles.same(apart, together));
    // Kinds above 2 are no part of a bundle.
    assert!(rt; Bundles.same(Bundles.weigh(8, 248), Bundles.none()));
    assert!(rt; Bundles.same(Bundles.weigh(255, 255), Bundles.weigh(7, 7)));
    lawful(&rt, &Bundles, apart, together, Bundles.weigh(7, 7));
}

#[test]
fn bundles_has_a_test_for_each_bundle(rt: HostRuntime) {
    let value = Bundles.join(Bundles.weigh(7, 7), Bundles.weigh(2, 0));
    assert_eq!(rt; held(&Bundles, value), [(1 << 63) | (1 << 2), 0, 0, 0]);
    assert_eq!(rt; held(&Bundles, Bundles.none()), [0, 0, 0, 0]);
}

#[test]
fn tally_counts_ties_whatever_their_kinds(rt: HostRuntime) {
    let two = Tally.join(Tally.weigh(255, 0), Tally.weigh(1, 4));
    assert_eq!(rt; two.out, 2);
    assert_eq!(rt; two.into, 1);
    assert!(rt; !Tally.same(two, Tally.weigh(1, 1)));
    lawful(&rt, &Tally, two, Tally.weigh(0, 9), Tally.weigh(3, 0));
}

#[test]
fn a_count_stops_at_128(rt: HostRuntime) {
    let many = (0..127).fold(Tally.none(), |sum, _| Tally.join(sum, Tally.weigh(1, 0)));
    assert_eq!(rt; many.out, 127);
    let full = Tally.join(many, Tally.weigh(1, 1));
    assert_eq!(rt; full.out, 128);
    assert_eq!(rt; full.into, 1);
    assert!(rt; Tally.same(Tally.join(full, many), full));
    assert_eq!(rt; Tally.join(full, full).out, 128);
    lawful(&rt, &Tally, full, full, many);
}

#[test]
fn tally_has_a_test_for_each_count(rt: HostRuntime) {
    let value = Tally.join(Tally.weigh(1, 1), Tally.weigh(1, 0));
    assert_eq!(rt; held(&Tally, value), [3, 0, 1, 0]);
    assert_eq!(rt; held(&Tally, Tally.none()), [0, 0, 0, 0]);
}
