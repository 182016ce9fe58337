// Which nodes leave a role when it is split.
ghost use Rattle.std.specs.Prelude.{◌≡◌, ◌<◌, ℕ, Bool, filter, length};
ghost use Rattle.std.specs.List.{All, range_with_len};
ghost use Rattle.equivalence.specs.Totals.{flag};
ghost use Rattle.equivalence.specs.Splitting.{leaves};
ghost use Rattle.equivalence.specs.Vetted.{table_of};

use super::totals::total_over;
use measure::interface::Measure;
use network::MOST_NODES;
use network::interface::Readable;

/// Flags the nodes of part's role whose total toward the listed nodes is not part's. One weigh
/// for each node of the role and each listed node. The engine's own, so that the table has a byte
/// for each node, and part and those that are listed are nodes.
pub fn leaving<N: Readable, M: Measure>(
    network: &N,
    measure: &M,
    table: &[u8],
    part: usize,
    nodes: &[u8],
) -> [bool; MOST_NODES]
    requires fits { length table.now ≡ (N.Readable.meaning network.now).nodes }
    requires part { part < (N.Readable.meaning network.now).nodes }
    requires nodes { All (λ y. y < (N.Readable.meaning network.now).nodes) nodes.now }
    ensures { let m = N.Readable.meaning network.now in
        (among : ℕ → Bool)
        → nodes.now ≡ filter among (range_with_len 0 m.nodes)
        → (x : ℕ)
        → x < m.nodes
        → flag result x ≡ leaves M.Measure.ops m (table_of table.now) part among x }
{
    let total = total_over(network, measure, part, nodes);
    let mut leaving = [false; MOST_NODES];
    for (x, leaves) in leaving[..network.nodes()].iter_mut().enumerate() {
        *leaves = table[x] == table[part]
            && !measure.same(total_over(network, measure, x, nodes), total);
    }
    leaving
}
