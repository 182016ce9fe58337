// The matrix: n rows of n tie bytes in memory that is handed to its making.
ghost use Rattle.std.specs.Prelude.{◌≡◌, ◌≤◌, length, vec_len, MatchResult, Ok, Err};
ghost use Rattle.network.specs.Meaning.{most_nodes};
ghost use Rattle.network.specs.LayoutLaws.{matrix_laid_out};
ghost use Rattle.network.specs.Matrices.{matrix_check, matrix_layout, matrix_made, matrix_memory};
ghost use Rattle.network.specs.Matrices.{MatrixCheckLaw};

use super::faults::Fault;
use super::grid::{Grid, Shape};
use super::interface::MOST_NODES;

/// Every pair of n nodes. The byte from i to j stands at i * n + j.
#[derive(Clone, Copy, Debug)]
pub struct Square {
    n: usize,
    ghost few: { n ≤ most_nodes },
}

impl Square {
    // The square of n nodes, where it can be made over this memory.
    fn over(n: usize, memory: &[u8]) -> Result<Square, Fault>
        ensures { let check = matrix_check n (length memory.now) in
            MatchResult result
            (λ s. (s.n ≡ n) × (check ≡ Ok tt))
            (λ f. check ≡ Err f) }
    {
        if n == 0 || n > MOST_NODES {
            return Err(Fault::Size);
        }
        Grid::fitted(Square { n }, memory)
    }
}

impl Shape for Square {
    ghost layout = { λ s. matrix_layout s.n };

    fn nodes(self) -> usize {
        self.n
    }

    fn pairs(self) -> usize {
        self.n * self.n
    }

    fn place(self, i: usize, j: usize) -> Option<usize> {
        (i < self.n && j < self.n).then(|| i * self.n + j)
    }

    ghost laid_out = { λ s. matrix_laid_out s.n };
}

/// A network of n nodes that allows every pair, over n * n bytes.
pub type Matrix = Grid<Square>;

impl Grid<Square> {
    ghost use Rattle.network.specs.Grids.{bytes_of, ties_of};

    /// Whether n nodes can be made over this memory.
    #[tactic(auto, using(crate::proofs::Makings::matrix_check_law))]
    pub fn check(n: usize, memory: &[u8]) -> Result<(), Fault>
        ensures value { result ≡ matrix_check n (length memory.now) }
        ensures law { MatrixCheckLaw }
    {
        Square::over(n, memory).map(|_| ())
    }

    /// The matrix of n nodes without ties. Where `check` refuses, the network without nodes, and
    /// nothing is written.
    pub fn new(n: usize, memory: Vec<u8>) -> Matrix
        ensures meaning { ties_of result ≡ matrix_made n (vec_len memory) }
        ensures memory { bytes_of result ≡ matrix_memory n memory.items }
    {
        let shape = Square::over(n, &memory).unwrap_or(Square { n: 0 });
        Grid::untied(shape, memory)
    }
}
