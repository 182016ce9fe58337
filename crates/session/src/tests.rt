// Sessions over small networks with known roles.
use super::faults::Fault;
use super::open::Open;
use super::role::Role;
use super::settled::Settled;
use equivalence::vetting::vet;
use measure::interface::Measure;
use measure::kinds::Kinds;
use network::interface::Editable;
use network::matrix::Matrix;
use std::alloc::Global;
use std::process::Abort;
use std::test::Fail;

// Ties and colours that change.
mod editing;
// Look and ask.
mod questions;
// The coarsest regular table.
mod settling;
// Step by step.
mod stepping;

// A team of three, and one of two.
const TEAMS: [(usize, usize); 3] = [(0, 1), (0, 2), (3, 4)];

// A cycle of three nodes, and a mutual tie.
const CYCLES: [(usize, usize); 5] = [(0, 1), (1, 2), (2, 0), (3, 4), (4, 3)];

// A matrix of n nodes without ties.
fn matrix(heap: Global, n: usize) -> Result<Matrix, Fail> {
    Ok(Matrix::new(n, vec![in heap; 0; n.saturating_mul(n)]?))
}

// A session with byte 1 for each tie.
fn tied<N: Editable + Drop, M: Measure + Drop>(
    rt: &impl Abort,
    network: N,
    measure: M,
    ties: &[(usize, usize)],
) -> Open<N, M> {
    let mut open = Open::new(network, measure);
    for &(i, j) in ties {
        assert_eq!(rt; open.put(i, j, 1), Ok(()));
    }
    open
}

// A session in which node 0 is tied to 1, 1 to 2, and so on.
fn chain(rt: &impl Abort, heap: Global, n: usize) -> Result<Open<Matrix, Kinds>, Fail> {
    let mut open = Open::new(matrix(heap, n)?, Kinds);
    for j in 1..n {
        assert_eq!(rt; open.put(j - 1, j, 1), Ok(()));
    }
    Ok(open)
}

// What both kinds of session tell.
trait Tells {
    // How many roles there are, and how many were split.
    fn counts(&self) -> (usize, usize);

    // The role of node x.
    fn role_at(&self, x: usize) -> Result<Role, Fault>;
}

impl<N: Editable, M: Measure> Tells for Open<N, M> {
    fn counts(&self) -> (usize, usize) {
        (self.roles(), self.splits())
    }

    fn role_at(&self, x: usize) -> Result<Role, Fault> {
        self.role(self.role_of(x)?)
    }
}

impl<N: Editable, M: Measure> Tells for Settled<N, M> {
    fn counts(&self) -> (usize, usize) {
        (self.roles(), self.splits())
    }

    fn role_at(&self, x: usize) -> Result<Role, Fault> {
        self.role(self.role_of(x)?)
    }
}

// So many roles were split, and heads[x] is the head of the role of node x.
fn shows<T: Tells>(rt: &impl Abort, session: &T, splits: usize, heads: &[usize]) {
    let mut roles = 0usize;
    for (x, &head) in heads.iter().enumerate() {
        let size = heads.iter().filter(|&&h| h == head).count();
        assert_eq!(rt; session.role_at(x), Ok(Role { head, size }), "at node {x}");
        if head == x {
            roles = roles.saturating_add(1);
        }
    }
    assert_eq!(rt; session.role_at(heads.len()), Err(Fault::Node));
    assert_eq!(rt; session.counts(), (roles, splits));
}

// Settles the session, which then shows these roles, and the vet says that they are regular.
fn settles<N: Editable + Drop, M: Measure + Drop>(
    rt: &impl Abort,
    open: Open<N, M>,
    measure: &M,
    splits: usize,
    heads: &[usize],
) -> Open<N, M> {
    let settled = open.settle();
    shows(rt, &settled, splits, heads);
    assert_eq!(rt; vet(settled.network(), measure, settled.table()), Ok(None));
    settled.reopen()
}
