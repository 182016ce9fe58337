// What a session tells, open or settled.
ghost use Rattle.std.specs.Prelude.{◌≡◌, ◌↔◌, ◌+◌, ◌<◌, IfErr, IfOk, IsOk};
ghost use Rattle.session.specs.OpenSessions.{state_of, parts_of};
ghost use Rattle.session.specs.Roles.{Described};
ghost use Rattle.session.specs.States.{IsSound, class_count, role, role_count};
ghost use Rattle.session.specs.Tellings.{nodes_of, record_answer, role_answer};
ghost use Rattle.session.specs.declared.faults.Fault.{Fault};

use super::super::faults::Fault;
use super::super::role::Role;
use super::Open;
use arrayvec::ArrayVec;
use measure::interface::Measure;
use network::MOST_NODES;
use network::interface::Editable;

impl<N: Editable, M: Measure> Open<N, M> {
    /// How many roles there are.
    #[tactic(auto, using(crate::proofs::Keeping::numbered))]
    pub fn roles(&self) -> usize
        ensures { result ≡ role_count (state_of self.now) }
    {
        self.table.count()
    }

    /// How many roles were split since the table was at the starting classes.
    pub fn splits(&self) -> usize
        ensures count { result ≡ (state_of self.now).splits }
        ensures classes { let s = state_of self.now in
            result + class_count s ≡ role_count s }
    {
        self.table.splits()
    }

    /// The role of node x, or 3.
    pub fn role_of(&self, x: usize) -> Result<usize, Fault>
        ensures answer { result ≡ role_answer (state_of self.now) x }
        ensures below { IfOk result (λ r. r < role_count (state_of self.now)) }
    {
        if x >= self.table.nodes() {
            return Err(Fault::Node);
        }
        Ok(self.table.role_of(x))
    }

    /// The head and the size of role r, or 11.
    #[tactic(auto, using(crate::proofs::Keeping::numbered, crate::proofs::Keeping::recorded))]
    pub fn role(&self, r: usize) -> Result<Role, Fault>
        ensures answer { result ≡ record_answer (state_of self.now) r }
        ensures described { let s = state_of self.now in
            IfOk result (Described s.network.nodes (role s) r) }
    {
        if r >= self.table.count() {
            return Err(Fault::Role);
        }
        Ok(self.table.role(r))
    }

    /// The nodes of role r, in order, or 11.
    #[tactic(auto, using(crate::proofs::Keeping::numbered))]
    pub fn members(&self, r: usize) -> Result<ArrayVec<u8, MOST_NODES>, Fault>
        ensures known { (r < role_count (state_of self.now)) ↔ IsOk result }
        ensures refused { IfErr result (λ f. f ≡ Fault.Role) }
        ensures nodes { IfOk result (λ nodes. nodes.items ≡ nodes_of (state_of self.now) r) }
    {
        if r >= self.table.count() {
            return Err(Fault::Role);
        }
        Ok(self.table.members(r))
    }

    /// The role of each node, in order.
    pub fn table(&self) -> &[u8]
        ensures table { result.now ≡ (state_of self.now).table }
        ensures sound { IsSound M.Measure.ops (state_of self.now) }
    {
        self.table.roles_of()
    }

    /// The network, to be read.
    pub fn network(&self) -> &N
        ensures { result.now ≡ (parts_of self.now).0 }
    {
        &self.network
    }
}
