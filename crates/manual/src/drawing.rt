// A network as a page draws it.
ghost use Rattle.std.specs.Prelude.{◌≡◌, Ok, Err, vec_len, MatchResult};
ghost use Rattle.network.specs.Grids.{ties_of};
ghost use Rattle.manual.specs.Drawing.{drawn_from, drawing, drawing_sides, Drawn};

use network::{Editable, Fault, Matrix, TwoMode};

// Puts byte 1 for each pair, in order, up to the first refusal. On a network without ties, these
// pairs are then tied and no other.
#[tactic(auto, using(crate::proofs::DrawnTies::drawn_law))]
fn tied<N: Editable + Drop>(mut network: N, ties: &[(usize, usize)]) -> Result<N, Fault>
    ensures built { let drawn = drawn_from (N.Readable.meaning network) ties.now in
        MatchResult result (λ m. drawn ≡ Ok (N.Readable.meaning m)) (λ f. drawn ≡ Err f) }
    ensures law { Drawn }
{
    for &(i, j) in ties {
        network.put(i, j, 1)?;
    }
    Ok(network)
}

// The matrix of n nodes over the memory, with a tie of kind 0 for each pair.
pub(crate) fn drawn(n: usize, memory: Vec<u8>, ties: &[(usize, usize)]) -> Result<Matrix, Fault>
    ensures { let drawn = drawing n (vec_len memory) ties.now in
        MatchResult result (λ m. drawn ≡ Ok (ties_of m)) (λ f. drawn ≡ Err f) }
{
    Matrix::check(n, &memory)?;
    tied(Matrix::new(n, memory), ties)
}

// The two-mode network of a and b nodes over the memory, likewise.
pub(crate) fn drawn_sides(
    a: usize,
    b: usize,
    memory: Vec<u8>,
    ties: &[(usize, usize)],
) -> Result<TwoMode, Fault>
    ensures { let drawn = drawing_sides a b (vec_len memory) ties.now in
        MatchResult result (λ m. drawn ≡ Ok (ties_of m)) (λ f. drawn ≡ Err f) }
{
    TwoMode::check(a, b, &memory)?;
    tied(TwoMode::new(a, b, memory), ties)
}
