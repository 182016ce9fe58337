// A settled session: its table is the coarsest regular one within the starting classes.
ghost use Rattle.std.specs.Prelude.{◌≡◌, ◌↔◌, ◌+◌, ◌<◌, IfErr, IfOk, IsOk};
ghost use Rattle.equivalence.specs.Regular.{Regular};
ghost use Rattle.equivalence.specs.Coarsest.{Coarsest, FewestLaw};
ghost use Rattle.session.specs.OpenSessions.{state_of, parts_of};
ghost use Rattle.session.specs.Roles.{Described};
ghost use Rattle.session.specs.Sessions.{Ended};
ghost use Rattle.session.specs.States.{IsSound, class_count, classes, role, role_count};
ghost use Rattle.session.specs.Tellings.{nodes_of, record_answer, role_answer};
ghost use Rattle.session.specs.declared.faults.Fault.{Fault};

use super::faults::Fault;
use super::open::Open;
use super::role::Role;
use super::step::Step;
use arrayvec::ArrayVec;
use measure::interface::Measure;
use network::MOST_NODES;
use network::interface::Editable;

// Look and ask.
mod asking;

/// The session, of which nothing can be altered until it is open again.
#[derive(Debug, Drop)]
pub struct Settled<N: Editable, M: Measure> {
    session: Open<N, M>,
    ghost regular: { Regular M.Measure.ops (state_of session).network (role (state_of session)) },
}

impl<N: Editable, M: Measure> Open<N, M> {
    ghost use Rattle.session.specs.SettledSessions.{settled_state, settled_parts};

    /// Splits roles until the table is regular: at most n - 1 splits, and one step more.
    pub fn settle(mut self) -> Settled<N, M>
        ensures ended { Ended M.Measure.ops (state_of self) (settled_state result) }
        ensures parts { settled_parts result ≡ parts_of self }
    {
        while let Step::Split { .. } = self.step() {}
        Settled { session: self }
    }
}

impl<N: Editable, M: Measure> Settled<N, M> {
    ghost use Rattle.session.specs.SettledSessions.{settled_state, settled_parts};

    /// The session, open again: table and count stay as they are.
    pub fn reopen(self) -> Open<N, M>
        ensures state { state_of result ≡ settled_state self }
        ensures parts { parts_of result ≡ settled_parts self }
    {
        self.session
    }

    /// How many roles there are.
    pub fn roles(&self) -> usize
        ensures { result ≡ role_count (settled_state self.now) }
    {
        self.session.roles()
    }

    /// How many roles were split since the table was at the starting classes.
    pub fn splits(&self) -> usize
        ensures count { result ≡ (settled_state self.now).splits }
        ensures classes { let s = settled_state self.now in
            result + class_count s ≡ role_count s }
    {
        self.session.splits()
    }

    /// The role of node x, or 3.
    pub fn role_of(&self, x: usize) -> Result<usize, Fault>
        ensures answer { result ≡ role_answer (settled_state self.now) x }
        ensures below { IfOk result (λ r. r < role_count (settled_state self.now)) }
    {
        self.session.role_of(x)
    }

    /// The head and the size of role r, or 11.
    pub fn role(&self, r: usize) -> Result<Role, Fault>
        ensures answer { result ≡ record_answer (settled_state self.now) r }
        ensures described { let s = settled_state self.now in
            IfOk result (Described s.network.nodes (role s) r) }
    {
        self.session.role(r)
    }

    /// The nodes of role r, in order, or 11.
    pub fn members(&self, r: usize) -> Result<ArrayVec<u8, MOST_NODES>, Fault>
        ensures known { (r < role_count (settled_state self.now)) ↔ IsOk result }
        ensures refused { IfErr result (λ f. f ≡ Fault.Role) }
        ensures nodes { IfOk result (λ nodes. nodes.items ≡ nodes_of (settled_state self.now) r) }
    {
        self.session.members(r)
    }

    /// The role of each node, in order.
    pub fn table(&self) -> &[u8]
        ensures table { result.now ≡ (settled_state self.now).table }
        ensures sound { IsSound M.Measure.ops (settled_state self.now) }
        ensures coarsest { let s = settled_state self.now in
            Coarsest M.Measure.ops s.network (classes s) (role s) }
        ensures fewest { FewestLaw M.Measure.ops }
    {
        self.session.table()
    }

    /// The network, to be read.
    pub fn network(&self) -> &N
        ensures { result.now ≡ (settled_parts self.now).0 }
    {
        self.session.network()
    }
}
