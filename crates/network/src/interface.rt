// What a network tells, and what an editable one takes.
ghost use Rattle.std.specs.Prelude.{◌≡◌, ◌≤◌, false};
ghost use Rattle.network.specs.Meaning.{Meaning, inside, most_nodes};
ghost use Rattle.network.specs.Put.{put_answer, put_after};

use super::faults::Fault;

/// As many nodes as a network may have.
pub const MOST_NODES: usize = 128;

/// A network that can be read. Reading alters nothing.
pub trait Readable {
    ghost meaning: { Self → Meaning };

    /// At most [`MOST_NODES`].
    fn nodes(&self) -> usize
        ensures value { result ≡ (meaning self.now).nodes }
        ensures few { result ≤ most_nodes };

    /// The tie byte from i to j, 0 where one of them is no node.
    fn tie(&self, i: usize, j: usize) -> u8
        ensures value { result ≡ (meaning self.now).tie i j }
        ensures outside { inside (meaning self.now).nodes i j ≡ false → result ≡ 0 };
}

/// A network that can also be altered, one tie byte at a time.
pub trait Editable: Readable {
    /// Makes the tie byte from i to j equal b, or refuses and alters nothing.
    fn put(&mut self, i: usize, j: usize, b: u8) -> Result<(), Fault>
        ensures answer { let m = Self.Readable.meaning self.old in result ≡ put_answer m i j b }
        ensures after { let m = Self.Readable.meaning self.old in
            Self.Readable.meaning self.new ≡ put_after m i j b };
}
