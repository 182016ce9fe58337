// A byte for each pair, in memory that is handed to the making.
ghost use Rattle.std.specs.Prelude.{◌≡◌, ◌≤◌, cond, length, nat_le, Ok, Err, vec_len, ◌≢◌};
ghost use Rattle.network.specs.Meaning.{most_nodes};
ghost use Rattle.network.specs.Layouts.{Layout, LaidOut, place_in, with_ties, cleared, written};
ghost use Rattle.network.specs.Put.{put_answer, put_after};
ghost use Rattle.network.specs.PutsLaw.{PutsLaw};

use super::faults::Fault;
use super::interface::{Editable, Readable};

/// What a grid is laid out by: how many nodes there are, which pairs have a byte, and where that
/// stands. By its law each pair of nodes that may be tied has a byte of its own, and no other pair
/// has one. Public since the networks are types over it; its module is not, so that no other shape
/// can be given.
pub trait Shape: Copy {
    ghost layout: { Self → Layout };

    /// At most [`MOST_NODES`](crate::MOST_NODES).
    fn nodes(self) -> usize
        ensures value { result ≡ (layout self).nodes }
        ensures few { result ≤ most_nodes };

    /// How many pairs have a byte.
    fn pairs(self) -> usize
        ensures { result ≡ (layout self).pairs };

    /// Where the byte from i to j stands, `None` where the pair has none.
    fn place(self, i: usize, j: usize) -> Option<usize>
        ensures { result ≡ place_in (layout self) i j };

    ghost laid_out: { (s : Self) → LaidOut (layout s) };
}

/// A network that keeps the tie byte of each pair that may be tied, in memory that is handed to its
/// making. Its shape says where the byte of a pair stands, so that a reading and a put are one byte
/// each, and are written and proved once for every shape. The bytes past those of the pairs stay as
/// they were handed.
#[derive(Drop, Debug)]
pub struct Grid<S: Shape> {
    shape: S,
    bytes: Vec<u8>,
    ghost fits: { (S.layout shape).pairs ≤ vec_len bytes },
}

// Sets the first k bytes to 0.
fn zero_out(bytes: &mut [u8], k: usize)
    requires { k ≤ length bytes.old }
    ensures value { bytes.new ≡ cleared k bytes.old }
    ensures len { length bytes.new ≡ length bytes.old }
{
    bytes[..k].fill(0);
}

impl<S: Shape> Grid<S> {
    ghost use Rattle.network.specs.Grids.{bytes_of, ties_of};

    // The shape, where the memory has a byte for each pair.
    pub(crate) fn fitted(shape: S, memory: &[u8]) -> Result<S, Fault>
        ensures { let fits = nat_le (S.layout shape).pairs (length memory.now) in
            result ≡ cond fits (Ok shape) (Err Fault.Memory) }
    {
        if memory.len() < shape.pairs() {
            return Err(Fault::Memory);
        }
        Ok(shape)
    }

    // The network of this shape without ties.
    pub(crate) fn untied(shape: S, memory: Vec<u8>) -> Grid<S>
        requires { (S.layout shape).pairs ≤ vec_len memory }
        ensures shape { result.shape ≡ shape }
        ensures meaning { ties_of result ≡ with_ties (S.layout shape) (λ _ _. 0) }
        ensures memory { bytes_of result ≡ cleared (S.layout shape).pairs memory.items }
    {
        let mut bytes = memory;
        zero_out(&mut bytes, shape.pairs());
        Grid { shape, bytes }
    }

    /// Gives the memory back, the tie bytes first, then what stood past them at the making.
    pub fn into_memory(self) -> Vec<u8>
        ensures { result.items ≡ bytes_of self }
    {
        let Grid { bytes, .. } = self;
        bytes
    }
}

impl<S: Shape> Readable for Grid<S> {
    ghost use Rattle.network.specs.Grids.{ties_of};

    ghost meaning = { ties_of };

    fn nodes(&self) -> usize {
        self.shape.nodes()
    }

    fn tie(&self, i: usize, j: usize) -> u8 {
        match self.shape.place(i, j) {
            Some(place) => self.bytes[place],
            None => 0,
        }
    }
}

impl<S: Shape> Editable for Grid<S> {
    ghost use Rattle.network.specs.Grids.{bytes_of, layout_of, ties_of};

    /// One byte at most differs. There is room for every pair that has a byte, so `Full` never
    /// comes.
    #[tactic(auto, using(crate::proofs::PutsLaw::puts_law))]
    fn put(&mut self, i: usize, j: usize, b: u8) -> Result<(), Fault>
        ensures answer { result ≡ put_answer (ties_of self.old) i j b }
        ensures after { ties_of self.new ≡ put_after (ties_of self.old) i j b }
        ensures memory { let l = layout_of self.old in
            bytes_of self.new ≡ written l (bytes_of self.old) i j b }
        ensures roomy { result ≢ Err Fault.Full }
        ensures law { PutsLaw }
    {
        if i >= self.nodes() || j >= self.nodes() {
            return Err(Fault::Node);
        }
        let Some(place) = self.shape.place(i, j) else {
            return Err(Fault::Pair);
        };
        self.bytes[place] = b;
        Ok(())
    }
}
