// A layer that turns every tie round.
ghost use Rattle.network.specs.Layers.{transposed};

use super::faults::Fault;
use super::interface::{Editable, Readable};

/// The network below turned round: a tie from i to j is one from j to i below.
#[derive(Drop, Debug)]
pub struct Turned<N>(pub N);

impl<N: Readable> Readable for Turned<N> {
    ghost meaning = { λ t. transposed (N.Readable.meaning t.0) };

    fn nodes(&self) -> usize {
        self.0.nodes()
    }

    fn tie(&self, i: usize, j: usize) -> u8 {
        self.0.tie(j, i)
    }
}

impl<N: Editable> Editable for Turned<N> {
    fn put(&mut self, i: usize, j: usize, b: u8) -> Result<(), Fault> {
        self.0.put(j, i, b)
    }
}
