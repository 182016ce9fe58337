// What a node has with a set of nodes.
ghost use Rattle.std.specs.Prelude.{◌≡◌, ◌<◌, ℕ, Bool, cond, filter, map};
ghost use Rattle.std.specs.List.{All, fold, range_with_len};
ghost use Rattle.equivalence.specs.Totals.{total, labelled};

use measure::interface::Measure;
use network::interface::Readable;

// What y brings to a total of x.
fn brought<N: Readable, M: Measure>(network: &N, measure: &M, x: usize, y: usize) -> M::Value
    requires of { x < (N.Readable.meaning network.now).nodes }
    requires with { y < (N.Readable.meaning network.now).nodes }
    ensures { let m = N.Readable.meaning network.now in
        result ≡ M.Measure.ops.weigh (m.tie x y) (m.tie y x) }
{
    measure.weigh(network.tie(x, y), network.tie(y, x))
}

// The sum with what y brings to a total of x, where y has the label, and without it elsewhere.
fn with_share<N: Readable, M: Measure>(
    network: &N,
    measure: &M,
    x: usize,
    labels: &[u8],
    label: u8,
    sum: M::Value,
    y: usize,
) -> M::Value
    requires of { x < (N.Readable.meaning network.now).nodes }
    requires with { y < (N.Readable.meaning network.now).nodes }
    ensures { let m = N.Readable.meaning network.now in
        let o = M.Measure.ops in
        let more = o.join sum (o.weigh (m.tie x y) (m.tie y x)) in
        result ≡ cond (labelled labels.now label y) more sum }
{
    if labels.get(y) == Some(&label) {
        measure.join(sum, brought(network, measure, x, y))
    } else {
        sum
    }
}

/// The total of x toward the nodes whose byte among the labels is `label`. One pass, and one weigh
/// for each such node. The engine's own, so that x is a node; bytes past the last node count for
/// nothing, and a node past the last byte is not in the set.
pub fn total_toward<N: Readable, M: Measure>(
    network: &N,
    measure: &M,
    x: usize,
    labels: &[u8],
    label: u8,
) -> M::Value
    requires { x < (N.Readable.meaning network.now).nodes }
    ensures { let m = N.Readable.meaning network.now in
        result ≡ total M.Measure.ops m x (labelled labels.now label) }
{
    (0..network.nodes()).fold(measure.none(), |sum, y| {
        with_share(network, measure, x, labels, label, sum, y)
    })
}

/// What x has with the nodes of a list, joined: its total toward a set, where the list has the
/// nodes of the set in order. One weigh for each of them. The engine's own, so that x and those
/// that are listed are nodes.
pub fn total_over<N: Readable, M: Measure>(
    network: &N,
    measure: &M,
    x: usize,
    nodes: &[u8],
) -> M::Value
    requires node { x < (N.Readable.meaning network.now).nodes }
    requires nodes { All (λ y. y < (N.Readable.meaning network.now).nodes) nodes.now }
    ensures listed { let m = N.Readable.meaning network.now in
        let o = M.Measure.ops in
        result ≡ fold o.join o.none (map (λ y. o.weigh (m.tie x y) (m.tie y x)) nodes.now) }
    ensures set { let m = N.Readable.meaning network.now in
        (among : ℕ → Bool)
        → nodes.now ≡ filter among (range_with_len 0 m.nodes)
        → result ≡ total M.Measure.ops m x among }
{
    nodes
        .iter()
        .map(|&y| usize::from(y))
        .map(|y| brought(network, measure, x, y))
        .fold(measure.none(), |sum, value| measure.join(sum, value))
}
