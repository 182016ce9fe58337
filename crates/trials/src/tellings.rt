// What a session tells of its roles, held against the table that it is to have.
use super::case::{At, Case};
use super::tables::{head, in_order, label, role_count, size};
use super::trouble::Trouble;
use measure::Measure;
use network::Editable;
use session::{Fault, Open, Role, Settled};

/// What both kinds of session tell.
pub(crate) trait Tells {
    fn count(&self) -> usize;

    fn split_count(&self) -> usize;

    fn number_of(&self, x: usize) -> Result<usize, Fault>;

    fn record(&self, r: usize) -> Result<Role, Fault>;

    fn numbers(&self) -> &[u8];
}

impl<N: Editable, M: Measure> Tells for Open<N, M> {
    fn count(&self) -> usize {
        self.roles()
    }

    fn split_count(&self) -> usize {
        self.splits()
    }

    fn number_of(&self, x: usize) -> Result<usize, Fault> {
        self.role_of(x)
    }

    fn record(&self, r: usize) -> Result<Role, Fault> {
        self.role(r)
    }

    fn numbers(&self) -> &[u8] {
        self.table()
    }
}

impl<N: Editable, M: Measure> Tells for Settled<N, M> {
    fn count(&self) -> usize {
        self.roles()
    }

    fn split_count(&self) -> usize {
        self.splits()
    }

    fn number_of(&self, x: usize) -> Result<usize, Fault> {
        self.role_of(x)
    }

    fn record(&self, r: usize) -> Result<Role, Fault> {
        self.role(r)
    }

    fn numbers(&self) -> &[u8] {
        self.table()
    }
}

// The role of each node, and of what is none.
fn hold_nodes<S: Tells>(case: &Case, session: &S) -> Result<(), Trouble> {
    for (x, &role) in session.numbers().iter().enumerate() {
        case.hold(
            At("role_of", x),
            session.number_of(x),
            Ok(usize::from(role)),
        )?;
    }
    let n = case.book.nodes;
    case.hold(At("role_of", n), session.number_of(n), Err(Fault::Node))
}

// The head and the size of each role, and of what is none.
fn hold_records<S: Tells>(case: &Case, session: &S) -> Result<(), Trouble> {
    let heap = case.heap;
    let table = session.numbers();
    let count = session.count();
    for r in 0..count {
        let role = label(r);
        let Some(head) = head(table, role) else {
            return Err(case.differs(format!(in heap; "no node has role {r}")));
        };
        let size = size(table, role);
        case.hold(At("role", r), session.record(r), Ok(Role { head, size }))?;
    }
    case.hold(At("role", count), session.record(count), Err(Fault::Role))
}

/// Holds all that a session tells: it is to have this table, its roles in order.
pub(crate) fn hold_roles<S: Tells>(case: &Case, session: &S, wanted: &[u8]) -> Result<(), Trouble> {
    let ordered = in_order(case.heap, wanted)?;
    case.hold("table", session.numbers(), ordered.as_slice())?;
    case.hold("roles", session.count(), role_count(wanted))?;
    case.hold("splits", session.split_count(), case.splits_to(wanted))?;
    hold_nodes(case, session)?;
    hold_records(case, session)
}
