// The table at the starting classes.
ghost use Rattle.std.specs.Prelude.{◌≡◌, ℕ, ◌<◌, ◌≤◌, slice_set};
ghost use Rattle.network.specs.Meaning.{most_nodes};
ghost use Rattle.equivalence.specs.Starting.{starting_classes};
ghost use Rattle.equivalence.specs.Starting as starting;
ghost use Rattle.equivalence.specs.Vetted.{table_of};
ghost use Rattle.session.specs.Tables.{Starting, colour_in};

use super::Table;
use arrayvec::ArrayVec;
use network::MOST_NODES;
use network::interface::Readable;

// Whether x and y start together.
fn starts_with<N: Readable>(_network: &N, colours: &[u8; MOST_NODES], x: usize, y: usize) -> bool
    requires x { x < most_nodes }
    requires y { y < most_nodes }
    ensures { let m = N.Readable.meaning _network.now in
        result ≡ starting.starts_with m (table_of colours.now) x y }
{
    colours[x] == colours[y]
}

// The lowest node that starts with x.
fn starting_head<N: Readable>(network: &N, colours: &[u8; MOST_NODES], x: usize) -> usize
    requires { x < most_nodes }
    ensures class { let m = N.Readable.meaning network.now in
        result ≡ starting_classes m (table_of colours.now) x }
    ensures below { result ≤ x }
{
    (0..x)
        .find(|&y| starts_with(network, colours, x, y))
        .unwrap_or(x)
}

impl Table {
    // The table of a network with these colours. Each node is held against those below it.
    fn starting<N: Readable>(network: &N, colours: [u8; MOST_NODES]) -> Table
        ensures start { Starting (N.Readable.meaning network.now) result }
        ensures colours { result.colours ≡ colours }
    {
        let mut heads = ArrayVec::<u8, MOST_NODES>::new();
        for x in 0..network.nodes() {
            heads.push(starting_head(network, &colours, x) as u8);
        }
        Table::of_heads(&heads, colours, 0)
    }

    // Every colour is 0.
    pub(crate) fn new<N: Readable>(network: &N) -> Table
        ensures start { Starting (N.Readable.meaning network.now) result }
        ensures colours { (x : ℕ) → colour_in result x ≡ 0 }
    {
        Table::starting(network, [0; MOST_NODES])
    }

    // Back to the starting classes.
    pub(crate) fn restart<N: Readable>(&mut self, network: &N)
        ensures start { Starting (N.Readable.meaning network.now) self.new }
        ensures colours { self.new.colours ≡ self.old.colours }
    {
        *self = Table::starting(network, self.colours);
    }

    // Node x has colour c, and the table is back at the starting classes.
    pub(crate) fn colour<N: Readable>(&mut self, network: &N, x: usize, c: u8)
        requires { x < most_nodes }
        ensures start { Starting (N.Readable.meaning network.now) self.new }
        ensures colours { self.new.colours ≡ slice_set self.old.colours x c }
    {
        self.colours[x] = c;
        self.restart(network);
    }
}
