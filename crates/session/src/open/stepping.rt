// The search for a split. Partition refinement by roles of the table itself, without the
// smaller-half rule: a measure has no subtraction.
// A step reads each ordered pair of nodes at most four times, and the bytes of the table a few
// times for each pair of roles.
ghost use Rattle.std.specs.Prelude.{◌≡◌, ◌↔◌, ℕ, Bool, ◌<◌, None, MatchOption, filter};
ghost use Rattle.std.specs.List.{All, range_with_len};
ghost use Rattle.equivalence.specs.Heads.{head_of};
ghost use Rattle.equivalence.specs.Regular.{Balanced, Even, Regular, members};
ghost use Rattle.equivalence.specs.Splitting.{SplitLaw, leaves};
ghost use Rattle.equivalence.specs.Totals.{flag};
ghost use Rattle.session.specs.OpenSessions.{state_of, parts_of};
ghost use Rattle.session.specs.States.{role};
ghost use Rattle.session.specs.Steps.{InTwo, Stepped};
ghost use Rattle.session.specs.Tables.{count_in};
ghost use Rattle.session.specs.declared.step.Step.{Step};

use super::super::step::Step;
use super::Open;
use equivalence::leaving::leaving;
use measure::interface::Measure;
use network::MOST_NODES;
use network::interface::Editable;

impl<N: Editable, M: Measure> Open<N, M> {
    // Which nodes leave the role of `part`, by totals toward the listed nodes.
    fn leaving(&self, part: usize, nodes: &[u8]) -> [bool; MOST_NODES]
        requires node { part < (state_of self.now).network.nodes }
        requires nodes { let n = (state_of self.now).network.nodes in All (λ y. y < n) nodes.now }
        ensures { let s = state_of self.now in
            (among : ℕ → Bool)
            → nodes.now ≡ filter among (range_with_len 0 s.network.nodes)
            → (x : ℕ) → x < s.network.nodes
            → flag result x ≡ leaves M.Measure.ops s.network (role s) part among x }
    {
        leaving(
            &self.network,
            &self.measure,
            self.table.roles_of(),
            part,
            nodes,
        )
    }

    // Splits the role of head `part` by totals toward that of head `toward`, whose nodes are
    // listed, where they differ in it. Gives the head of the new role.
    fn split_role(&mut self, part: usize, toward: usize, nodes: &[u8]) -> Option<usize>
        requires part { let s = state_of self.old in
            (part < s.network.nodes) × (head_of (role s) part ≡ part) }
        requires toward { let s = state_of self.old in
            (toward < s.network.nodes) × (head_of (role s) toward ≡ toward) }
        requires listed { let s = state_of self.old in
            let among = members (role s) (role s toward) in
            nodes.now ≡ filter among (range_with_len 0 s.network.nodes) }
        ensures search { let s = state_of self.old in
            let among = members (role s) (role s toward) in
            MatchOption result
            (Even M.Measure.ops s.network (role s) (role s part) among)
            (λ fresh. InTwo M.Measure.ops s (state_of self.new) part toward fresh) }
        ensures unaltered { result ≡ None → self.new ≡ self.old }
        ensures parts { parts_of self.new ≡ parts_of self.old }
    {
        let leaving = self.leaving(part, nodes);
        match self.table.lowest(&leaving) {
            None => None,
            Some(fresh) => {
                self.table.split(fresh, &leaving);
                Some(fresh)
            }
        }
    }

    // Splits a role by totals toward role c, where one has nodes that differ in it. Gives the heads
    // of what stays and of the new role.
    fn split_toward(&mut self, c: usize) -> Option<(usize, usize)>
        requires { c < count_in self.old.table }
        ensures search { let s = state_of self.old in
            MatchOption result
            (Balanced M.Measure.ops s.network (role s) (members (role s) c))
            (λ two. InTwo M.Measure.ops s (state_of self.new) two.0 (s.head c) two.1) }
        ensures unaltered { result ≡ None → self.new ≡ self.old }
        ensures parts { parts_of self.new ≡ parts_of self.old }
    {
        let toward = self.table.role(c).head;
        let nodes = self.table.members(c);
        for r in 0..self.table.count() {
            let part = self.table.role(r);
            // A single node has no other to differ from.
            if part.size > 1 {
                if let Some(fresh) = self.split_role(part.head, toward, &nodes) {
                    return Some((part.head, fresh));
                }
            }
        }
        None
    }

    /// Splits one role in two, where the table is not regular.
    pub fn step(&mut self) -> Step
        ensures stable { let s = state_of self.old in
            (result ≡ Step.Stable) ↔ Regular M.Measure.ops s.network (role s) }
        ensures stepped { Stepped M.Measure.ops (state_of self.old) (state_of self.new) result }
        ensures law { SplitLaw M.Measure.ops }
        ensures parts { parts_of self.new ≡ parts_of self.old }
    {
        for c in 0..self.table.count() {
            let toward = self.table.role(c).head;
            if let Some((part, fresh)) = self.split_toward(c) {
                return Step::Split {
                    part,
                    toward,
                    fresh,
                };
            }
        }
        Step::Stable
    }
}
