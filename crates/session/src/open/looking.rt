// What a session answers to a question: at each node, and at each role.
ghost use Rattle.std.specs.Prelude.{◌≡◌, IfOk};
ghost use Rattle.question.specs.Truth.{TruthLaw};
ghost use Rattle.session.specs.OpenSessions.{state_of};
ghost use Rattle.session.specs.Questions.{AnswersNodes, after_ask, after_look};
ghost use Rattle.session.specs.Questions.{ask_answer, look_answer};

use super::super::columns::EachNode;
use super::Open;
use measure::interface::Measure;
use network::interface::Editable;
use question::faults::Fault;
use question::line::Line;

impl<N: Editable, M: Measure> Open<N, M> {
    /// Asks each node, on the whole network: a row of n bytes for each line. Tells where the last
    /// row starts.
    pub fn look(&self, question: &[Line], area: &mut [u8]) -> Result<usize, Fault>
        ensures start { result ≡ look_answer (state_of self.now) question.now area.old }
        ensures area { let s = state_of self.now in
            area.new ≡ after_look M.Measure.ops s question.now area.old }
        ensures truth { TruthLaw M.Measure.ops }
        ensures agrees { let s = state_of self.now in
            IfOk result (λ start. AnswersNodes M.Measure.ops s question.now start area.new) }
    {
        self.answer(&EachNode::of(self.table.nodes()), question, area)
    }

    // Asks each role, with its head in place of its nodes. Only a settled session's roles have the
    // network's answer, so its `ask` alone calls this.
    #[tactic(auto, using(crate::proofs::Keeping::numbered))]
    pub(crate) fn answer_by_roles(&self, question: &[Line], area: &mut [u8]) -> Result<usize, Fault>
        ensures start { result ≡ ask_answer (state_of self.now) question.now area.old }
        ensures area { let s = state_of self.now in
            area.new ≡ after_ask M.Measure.ops s question.now area.old }
    {
        self.answer(&self.table, question, area)
    }
}
