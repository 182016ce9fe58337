// The two-mode network: ties from side A to side B only, in memory that is handed to its making.
ghost use Rattle.std.specs.Prelude.{◌≡◌, ◌+◌, ◌≤◌, length, vec_len, Ok, Err, MatchResult};
ghost use Rattle.network.specs.Meaning.{most_nodes};
ghost use Rattle.network.specs.LayoutLaws.{two_mode_laid_out};
ghost use Rattle.network.specs.TwoModes.{two_mode_check, two_mode_layout, two_mode_made};
ghost use Rattle.network.specs.TwoModes.{two_mode_memory, TwoModeCheckLaw};

use super::faults::Fault;
use super::grid::{Grid, Shape};
use super::interface::MOST_NODES;

/// Side A has the nodes below a, side B the b nodes from a on. The byte from i to j stands at
/// i * b + (j - a).
#[derive(Clone, Copy, Debug)]
pub struct Sides {
    a: usize,
    b: usize,
    ghost few: { a + b ≤ most_nodes },
}

impl Sides {
    // The sides of a and b nodes, where they can be made over this memory.
    fn over(a: usize, b: usize, memory: &[u8]) -> Result<Sides, Fault>
        ensures { let check = two_mode_check a b (length memory.now) in
            MatchResult result
            (λ s. (s.a ≡ a) × (s.b ≡ b) × (check ≡ Ok tt))
            (λ f. check ≡ Err f) }
    {
        if a == 0 || b == 0 || a.saturating_add(b) > MOST_NODES {
            return Err(Fault::Size);
        }
        Grid::fitted(Sides { a, b }, memory)
    }
}

impl Shape for Sides {
    ghost layout = { λ s. two_mode_layout s.a s.b };

    fn nodes(self) -> usize {
        self.a + self.b
    }

    fn pairs(self) -> usize {
        self.a * self.b
    }

    fn place(self, i: usize, j: usize) -> Option<usize> {
        (i < self.a && j >= self.a && j < self.a + self.b).then(|| i * self.b + (j - self.a))
    }

    ghost laid_out = { λ s. two_mode_laid_out s.a s.b };
}

/// A network of two sides that allows the pairs from side A to side B, over a * b bytes. Side A has
/// the nodes below a, side B the b nodes from a on.
pub type TwoMode = Grid<Sides>;

impl Grid<Sides> {
    ghost use Rattle.network.specs.Grids.{bytes_of, ties_of};

    /// Whether sides of a and b nodes can be made over this memory.
    #[tactic(auto, using(crate::proofs::Makings::two_mode_check_law))]
    pub fn check(a: usize, b: usize, memory: &[u8]) -> Result<(), Fault>
        ensures value { result ≡ two_mode_check a b (length memory.now) }
        ensures law { TwoModeCheckLaw }
    {
        Sides::over(a, b, memory).map(|_| ())
    }

    /// Sides of a and b nodes without ties. Where `check` refuses, the network without nodes, and
    /// nothing is written.
    pub fn new(a: usize, b: usize, memory: Vec<u8>) -> TwoMode
        ensures meaning { ties_of result ≡ two_mode_made a b (vec_len memory) }
        ensures memory { bytes_of result ≡ two_mode_memory a b memory.items }
    {
        let shape = Sides::over(a, b, &memory).unwrap_or(Sides { a: 0, b: 0 });
        Grid::untied(shape, memory)
    }
}
