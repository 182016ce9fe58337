// Whether a table is regular.
ghost use Rattle.std.specs.Prelude.{◌≡◌, ◌≢◌, ◌<◌, ◌≤◌, length, MatchOption};
ghost use Rattle.equivalence.specs.Totals.{total, labelled};
ghost use Rattle.equivalence.specs.Regular.{Balanced, Regular, Unequal};
ghost use Rattle.equivalence.specs.Heads.{head_of};
ghost use Rattle.equivalence.specs.Vetted.{Vetted, table_of};

use super::faults::Fault;
use super::totals::total_toward;
use measure::interface::Measure;
use network::interface::Readable;

// A table with a byte for each node, held against its network under a measure.
#[derive(Drop)]
struct Vetting<'a, N: Readable, M: Measure> {
    network: &'a N,
    measure: &'a M,
    table: &'a [u8],
    ghost fits: { length table.now ≡ (N.Readable.meaning network.now).nodes },
}

impl<'a, N: Readable, M: Measure> Vetting<'a, N, M> {
    // The head of x's role.
    fn head(&self, x: usize) -> usize
        requires { x < length self.now.table.now }
        ensures within { result ≤ x }
        ensures head { result ≡ head_of (table_of self.now.table.now) x }
    {
        let role = self.table[x];
        self.table[..x].iter().position(|&r| r == role).unwrap_or(x)
    }

    // The total of x toward a role.
    fn total(&self, x: usize, role: u8) -> M::Value
        requires { x < length self.now.table.now }
        ensures { let m = N.Readable.meaning self.now.network.now in
            result ≡ total M.Measure.ops m x (labelled self.now.table.now role) }
    {
        total_toward(self.network, self.measure, x, self.table, role)
    }

    // Whether y has the total toward the role that the head of its own role has.
    fn agrees(&self, y: usize, role: u8) -> bool
        requires { y < length self.now.table.now }
        ensures { let m = N.Readable.meaning self.now.network.now in
            let head = head_of (table_of self.now.table.now) y in
            let among = labelled self.now.table.now role in
            let o = M.Measure.ops in
            result ≡ o.same (total o m head among) (total o m y among) }
    {
        let x = self.head(y);
        x == y || self.measure.same(self.total(x, role), self.total(y, role))
    }

    // The first node that does not agree, none where the table is balanced toward the role.
    fn stray(&self, role: u8) -> Option<usize>
        ensures { let o = M.Measure.ops in
            let m = N.Readable.meaning self.now.network.now in
            let at = table_of self.now.table.now in
            let among = labelled self.now.table.now role in
            MatchOption result
            (Balanced o m at among)
            (λ y. (y < m.nodes) × (total o m (head_of at y) among ≢ total o m y among)) }
    {
        (0..self.table.len()).find(|&y| !self.agrees(y, role))
    }

    // Three nodes that show that the table is not regular, or none where it is.
    fn witness(&self) -> Option<(usize, usize, usize)>
        ensures { let o = M.Measure.ops in
            let m = N.Readable.meaning self.now.network.now in
            let at = table_of self.now.table.now in
            MatchOption result (Regular o m at) (λ w. Unequal o m at w.0 w.1 w.2) }
    {
        for z in 0..self.table.len() {
            if self.head(z) == z {
                if let Some(y) = self.stray(self.table[z]) {
                    return Some((self.head(y), y, z));
                }
            }
        }
        None
    }
}

/// Whether the table is regular, equal bytes being one role: none where it is, else three nodes
/// x, y and z that show that it is not: x and y share a role, and have unequal totals toward z's.
/// Refuses a table that has not one byte for each node. Alters nothing.
///
/// At most 2 n * n weighs and 3 n * n * n comparisons of table bytes, and no memory.
pub fn vet<N: Readable, M: Measure>(
    network: &N,
    measure: &M,
    table: &[u8],
) -> Result<Option<(usize, usize, usize)>, Fault>
    ensures { Vetted M.Measure.ops (N.Readable.meaning network.now) table.now result }
{
    if table.len() != network.nodes() {
        return Err(Fault::Length);
    }
    let vetting = Vetting {
        network,
        measure,
        table,
    };
    Ok(vetting.witness())
}
