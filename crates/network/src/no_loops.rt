// A layer that allows no tie from a node to itself.
ghost use Rattle.network.specs.Layers.{without_loops};

use super::faults::Fault;
use super::interface::{Editable, Readable};

/// The network below, in which no node may be tied to itself. Ties that are there stay, and are
/// read and counted.
#[derive(Drop, Debug)]
pub struct NoLoops<N>(pub N);

impl<N: Readable> Readable for NoLoops<N> {
    ghost meaning = { λ t. without_loops (N.Readable.meaning t.0) };

    fn nodes(&self) -> usize {
        self.0.nodes()
    }

    fn tie(&self, i: usize, j: usize) -> u8 {
        self.0.tie(i, j)
    }
}

impl<N: Editable> Editable for NoLoops<N> {
    /// A number that is no node is left to the network below, which refuses it with `Node`.
    fn put(&mut self, i: usize, j: usize, b: u8) -> Result<(), Fault> {
        if i == j && i < self.0.nodes() {
            return Err(Fault::Pair);
        }
        self.0.put(i, j, b)
    }
}
